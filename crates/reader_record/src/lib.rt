// A record read into lent tables.
#![tactic(auto)]

ghost use Rattle.std.specs.Prelude.{◌≡◌, ◌≤◌, length};
ghost use Rattle.rules.specs.Record.{atom_places, bond_places};
ghost use Rattle.reader_rows.specs.Rowed.{Lent};
ghost use Rattle.reader_walk.specs.Asked.{rows_asked};
ghost use Rattle.reader_walk.specs.Stands.{kind_of};
ghost use Rattle.reader_walk.specs.Walked.{walk_of, RowsMarked};
ghost use Rattle.reader_walk.specs.Outcome.{outcome_of};
ghost use Rattle.reader_answer.specs.Promise.{ReadPromise};
ghost use Rattle.reader_answer.specs.Read.{answered, atoms_by, bonds_by, read_as, atoms_as, bonds_as, read_of, atoms_after, bonds_after, RowsLeft};
ghost use Rattle.reader_answer.specs.Rows.{RowsPromise};
ghost use Rattle.reader_answer.specs.Rowed.{after, rowed_as, rowed_of, RowedPromise};

pub use reader_answer::{Counted, RecordRead};
use reader_rows::ROWS;
use reader_walk::Walked;
use rules::{ATOMS, BONDS, LISTED};

// The plain reading: one record from the front of a text, its rows at the front of tables that have room. What stands behind the rows is not cleared.
fn read_front(sd: bool, s: &[u8], atoms: &mut [i32], bonds: &mut [i32], rows: &mut [u64]) -> Counted
    requires { (atom_places ≤ length atoms.old) × (bond_places ≤ length bonds.old) × Lent rows.old }
    ensures read_value { result.read ≡ answered (walk_of (kind_of sd) s.now) }
    ensures asked_value { result.asked ≡ rows_asked (kind_of sd) s.now }
    ensures rows_left { RowsLeft atoms.old atoms.new bonds.old bonds.new (outcome_of (kind_of sd) s.now) }
    ensures rows_marked { RowsMarked rows.old rows.new (outcome_of (kind_of sd) s.now) }
{
    let mut listed = [0u32; LISTED];
    let counted = reader_walk::walk_rows(sd, s, atoms, bonds, &mut listed, rows);
    let asked = counted.asked;
    let walked = counted.walked;
    let got = reader_answer::told(walked, asked);
    match walked {
        Walked::Whole {
            counts,
            length: _,
            lines: _,
            header_end: _,
            items_start: _,
            items_end: _,
        } => {
            reader_tables::mean(atoms, counts.atoms, &listed);
            got
        }
        Walked::Refused {
            no: _,
            line: _,
            column: _,
        } => got,
    }
}

// The same for callers that look at the rows of the record alone. Tables without room are left as they are.
pub fn read_rows(sd: bool, s: &[u8], atoms: &mut [i32], bonds: &mut [i32]) -> RecordRead
    ensures value { result ≡ read_as (kind_of sd) (length atoms.old) (length bonds.old) s.now }
    ensures rows_promise { RowsPromise (kind_of sd) s.now atoms.old bonds.old atoms.new bonds.new }
{
    if atoms.len() < ATOMS {
        return RecordRead::Refused {
            no: 2,
            line: 0,
            column: 0,
        };
    }
    if bonds.len() < BONDS {
        return RecordRead::Refused {
            no: 2,
            line: 0,
            column: 0,
        };
    }
    let mut none = [0u64; 0];
    let got = read_front(sd, s, atoms, bonds, &mut none);
    got.read
}

// The plain reading, and then zeros behind the rows.
fn read_cleared(
    sd: bool,
    s: &[u8],
    atoms: &mut [i32],
    bonds: &mut [i32],
    rows: &mut [u64],
) -> Counted
    requires { (atom_places ≤ length atoms.old) × (bond_places ≤ length bonds.old) × Lent rows.old }
    ensures read_value { result.read ≡ answered (walk_of (kind_of sd) s.now) }
    ensures asked_value { result.asked ≡ rows_asked (kind_of sd) s.now }
    ensures atoms_after { atoms.new ≡ atoms_by atoms.old (outcome_of (kind_of sd) s.now) }
    ensures bonds_after { bonds.new ≡ bonds_by bonds.old (outcome_of (kind_of sd) s.now) }
    ensures rows_marked { RowsMarked rows.old rows.new (outcome_of (kind_of sd) s.now) }
{
    let got = read_front(sd, s, atoms, bonds, rows);
    let read = got.read;
    reader_clear::clear_after(read, atoms, bonds);
    got
}

// Tables without room are left as they are.
fn read_as(sd: bool, s: &[u8], atoms: &mut [i32], bonds: &mut [i32]) -> RecordRead
    ensures value { result ≡ read_as (kind_of sd) (length atoms.old) (length bonds.old) s.now }
    ensures atoms_after { atoms.new ≡ atoms_as (kind_of sd) (length bonds.old) s.now atoms.old }
    ensures bonds_after { bonds.new ≡ bonds_as (kind_of sd) (length atoms.old) s.now bonds.old }
{
    if atoms.len() < ATOMS {
        return RecordRead::Refused {
            no: 2,
            line: 0,
            column: 0,
        };
    }
    if bonds.len() < BONDS {
        return RecordRead::Refused {
            no: 2,
            line: 0,
            column: 0,
        };
    }
    let mut none = [0u64; 0];
    let got = read_cleared(sd, s, atoms, bonds, &mut none);
    got.read
}

// One record from the front of a text, searched in the list for repeated pairs: kind 0 is a molfile, kind 1 an SDfile.
pub fn read_plain(kind: u8, s: &[u8], atoms: &mut [i32], bonds: &mut [i32]) -> RecordRead
    ensures value { result ≡ read_of kind (length atoms.old) (length bonds.old) s.now }
    ensures atoms_after { atoms.new ≡ atoms_after kind (length bonds.old) s.now atoms.old }
    ensures bonds_after { bonds.new ≡ bonds_after kind (length atoms.old) s.now bonds.old }
    ensures read_promise { ReadPromise kind s.now atoms.old bonds.old result atoms.new bonds.new }
{
    if kind == 0 {
        return read_as(false, s, atoms, bonds);
    }
    if kind == 1 {
        return read_as(true, s, atoms, bonds);
    }
    RecordRead::Refused {
        no: 1,
        line: 0,
        column: 0,
    }
}

// The same with rows. Tables and rows without room are left as they are.
fn read_rowed(sd: bool, s: &[u8], atoms: &mut [i32], bonds: &mut [i32], rows: &mut [u64]) -> Counted
    ensures { after result atoms.new bonds.new rows.new ≡ rowed_as (kind_of sd) s.now atoms.old bonds.old rows.old }
{
    if atoms.len() < ATOMS {
        return reader_answer::unread(2);
    }
    if bonds.len() < BONDS {
        return reader_answer::unread(2);
    }
    if rows.len() < ROWS {
        return reader_answer::unread(35);
    }
    reader_rows::clear(rows);
    let got = read_cleared(sd, s, atoms, bonds, rows);
    let read = got.read;
    reader_clear::clear_refused(read, rows);
    got
}

// One record from the front of a text, its pairs asked of the rows: kind 0 is a molfile, kind 1 an SDfile.
pub fn read_record(
    kind: u8,
    s: &[u8],
    atoms: &mut [i32],
    bonds: &mut [i32],
    rows: &mut [u64],
) -> Counted
    ensures rows_after { after result atoms.new bonds.new rows.new ≡ rowed_of kind s.now atoms.old bonds.old rows.old }
    ensures rowed_promise { RowedPromise kind s.now atoms.old bonds.old rows.old (after result atoms.new bonds.new rows.new) }
{
    if kind == 0 {
        return read_rowed(false, s, atoms, bonds, rows);
    }
    if kind == 1 {
        return read_rowed(true, s, atoms, bonds, rows);
    }
    reader_answer::unread(1)
}
