// Zeros in the lent memory where a reading leaves no rows.
#![tactic(auto)]

ghost use Rattle.std.specs.Prelude.{◌≡◌, ◌*◌, ◌≤◌, length};
ghost use Rattle.rules.specs.Record.{limit, atom_places, bond_places};
ghost use Rattle.reader_rows.specs.Says.{row_places};
ghost use Rattle.reader_answer.specs.Read.{zeroed, atoms_read, bonds_read, Clearing};
ghost use Rattle.reader_answer.specs.Rowed.{settled};

use reader_answer::RecordRead;
use rules::{ATOMS, BONDS};

// Zeros from place `from` to before place `to`.
pub fn zero_rows(table: &mut [i32], from: usize, to: usize)
    requires { (from ≤ to) × (to ≤ length table.old) }
    ensures { table.new ≡ zeroed table.old from to }
{
    reader_tables::clear(table, from, to);
}

// Zeros behind n rows of atoms and m rows of bonds, up to the limit.
fn clear_rest(n: u32, m: u32, atoms: &mut [i32], bonds: &mut [i32])
    requires { (n ≤ limit) × (m ≤ limit) × (atom_places ≤ length atoms.old) × (bond_places ≤ length bonds.old) }
    ensures atoms_after { atoms.new ≡ zeroed atoms.old (16 * n) atom_places }
    ensures bonds_after { bonds.new ≡ zeroed bonds.old (6 * m) bond_places }
{
    let n = n as usize;
    let m = m as usize;
    zero_rows(atoms, 16 * n, ATOMS);
    zero_rows(bonds, 6 * m, BONDS);
}

// Zeros behind the rows that were read; after a refusal no row is left.
pub fn clear_after(got: RecordRead, atoms: &mut [i32], bonds: &mut [i32])
    requires { Clearing got atoms.old bonds.old }
    ensures atoms_after { atoms.new ≡ zeroed atoms.old (16 * atoms_read got) atom_places }
    ensures bonds_after { bonds.new ≡ zeroed bonds.old (6 * bonds_read got) bond_places }
{
    match got {
        RecordRead::Read {
            n,
            m,
            chiral: _,
            length: _,
            lines: _,
            header_end: _,
            items_start: _,
            items_end: _,
        } => clear_rest(n, m, atoms, bonds),
        RecordRead::Refused {
            no: _,
            line: _,
            column: _,
        } => clear_rest(0, 0, atoms, bonds),
    }
}

// Rows that say nothing after a refusal.
pub fn clear_refused(got: RecordRead, rows: &mut [u64])
    requires { row_places ≤ length rows.old }
    ensures { rows.new ≡ settled got rows.old }
{
    match got {
        RecordRead::Read {
            n: _,
            m: _,
            chiral: _,
            length: _,
            lines: _,
            header_end: _,
            items_start: _,
            items_end: _,
        } => {}
        RecordRead::Refused {
            no: _,
            line: _,
            column: _,
        } => reader_rows::clear(rows),
    }
}
