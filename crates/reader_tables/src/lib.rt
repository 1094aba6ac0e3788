// Rows of the lent tables: stored, cleared, given their meaning.
#![tactic(auto)]

ghost use Rattle.std.specs.Prelude.{◌≡◌, ◌+◌, ◌*◌, ◌≤◌, ◌<◌, ◌==◌, [], ◌∷◌, length, not};
ghost use Rattle.std.specs.List.{list_any};
ghost use Rattle.std.proofs.lemmas.List.Edits.{sets};
ghost use Rattle.line_atom.specs.Answer.{atom_is};
ghost use Rattle.line_counts_bonds.specs.Answer.{bond_is};
ghost use Rattle.rules.specs.Record.{limit};
ghost use Rattle.rules.specs.Meaning.{bond_numbers};
ghost use Rattle.line_property.specs.Listed.{places};
ghost use Rattle.reader_tables.specs.Row.{raw_row, SmallAtom, SmallBond};
ghost use Rattle.reader_tables.specs.RowParts.{place_row, codes_row, rest_row, SmallCodes};
ghost use Rattle.reader_tables.specs.Filled.{cleared};
ghost use Rattle.reader_tables.specs.Mean.{any_after, number_kept, charge_by, radical_by, mass_by, code_in, Kept, codes_in, superseded_in, meant_row, meant};

use line_atom::{Atom, AtomCodes, AtomPlace};
use line_counts_bonds::Bond;
use rules::{LISTED, PLACES};

// What a record's property lines supersede: a line of charges or of radicals every code, a line of isotopes every mass difference.
#[derive(Clone, Copy)]
struct Superseded {
    codes: bool,
    masses: bool,
}

// Where an atom stands and what it is: the first four numbers of its row.
fn put_place(table: &mut [i32], at: usize, p: AtomPlace)
    requires { (at + 4 ≤ length table.old) × (p.symbol ≤ 999) }
    ensures { table.new ≡ sets table.old at (place_row p) }
{
    let x = p.x;
    let y = p.y;
    let z = p.z;
    let symbol = p.symbol as i32;
    table[at] = x;
    table[at + 1] = y;
    table[at + 2] = z;
    table[at + 3] = symbol;
}

// The next seven: the charge code stands in the place of the charge, with no radical and no isotope.
fn put_codes(table: &mut [i32], at: usize, c: AtomCodes)
    requires { (at + 7 ≤ length table.old) × SmallCodes c }
    ensures { table.new ≡ sets table.old at (codes_row c) }
{
    let mass = c.mass_difference;
    let code = c.charge_code as i32;
    let parity = c.parity as i32;
    let hydrogens = c.hydrogen_count as i32;
    let care = c.stereo_care as i32;
    table[at] = mass;
    table[at + 1] = code;
    table[at + 2] = 0;
    table[at + 3] = 0;
    table[at + 4] = parity;
    table[at + 5] = hydrogens;
    table[at + 6] = care;
}

// The last five.
fn put_rest(table: &mut [i32], at: usize, a: Atom)
    requires { (at + 5 ≤ length table.old) × SmallAtom (atom_is a) }
    ensures { table.new ≡ sets table.old at (rest_row a) }
{
    let valence = a.valence as i32;
    let h0 = a.h0 as i32;
    let map = a.atom_map as i32;
    let inversion = a.inversion as i32;
    let exact = a.exact_change as i32;
    table[at] = valence;
    table[at + 1] = h0;
    table[at + 2] = map;
    table[at + 3] = inversion;
    table[at + 4] = exact;
}

// Row i of the table, as the atom's line has it.
pub fn put_atom(atoms: &mut [i32], i: usize, a: Atom)
    requires { (i ≤ 999) × (16 * i + 16 ≤ length atoms.old) × SmallAtom (atom_is a) }
    ensures { atoms.new ≡ sets atoms.old (16 * i) (raw_row (atom_is a)) }
{
    let place = a.place;
    let codes = a.codes;
    let at = 16 * i;
    put_place(atoms, at, place);
    put_codes(atoms, at + 4, codes);
    put_rest(atoms, at + 11, a);
}

// Row i of the table of bonds.
pub fn put_bond(bonds: &mut [i32], i: usize, b: Bond)
    requires { (i ≤ 999) × (6 * i + 6 ≤ length bonds.old) × SmallBond (bond_is b) }
    ensures { bonds.new ≡ sets bonds.old (6 * i) (bond_numbers (bond_is b)) }
{
    let at = 6 * i;
    let first = b.first as i32;
    let second = b.second as i32;
    let order = b.order as i32;
    let stereo = b.stereo as i32;
    let topology = b.topology as i32;
    let centre = b.centre;
    bonds[at] = first;
    bonds[at + 1] = second;
    bonds[at + 2] = order;
    bonds[at + 3] = stereo;
    bonds[at + 4] = topology;
    bonds[at + 5] = centre;
}

// Zeros from place `from` to before place `to`.
fn clear_few(table: &mut [i32], from: usize, to: usize)
    requires { (from ≤ to) × (to ≤ length table.old) }
    ensures { table.new ≡ cleared table.old from to }
{
    table[from..to].fill(0);
}

// Sixty-four zeros from place `at` on, which compile to sixteen wide stores.
fn clear_block(table: &mut [i32], at: usize)
    requires { at + 64 ≤ length table.old }
    ensures { table.new ≡ cleared table.old at (at + 64) }
{
    table[at..at + 64].fill(0);
}

// Zeros from place `from` to before place `to`: both halves side by side, block by block, and then the few that are left. One run of zeros would compile
// to a call that takes a third more.
#[tactic(auto, using(crate::proofs::Clearing::halves_laws))]
pub fn clear(table: &mut [i32], from: usize, to: usize)
    requires { (from ≤ to) × (to ≤ length table.old) }
    ensures { table.new ≡ cleared table.old from to }
{
    let blocks = (to - from) / 128;
    let half = 64 * blocks;
    let mid = from + half;
    for block in 0..blocks {
        let i = 64 * block;
        clear_block(table, from + i);
        clear_block(table, mid + i);
    }
    clear_few(table, mid + half, to);
}

// Whether one of these places is in use.
fn any_used(listed: &[u32]) -> bool
    ensures { result ≡ list_any (λ k. not (k == 0)) listed.now }
{
    listed.iter().any(|k| *k != 0)
}

// Whether one of the places 1 to n after place `from` is in use.
fn any_listed(listed: &[u32; LISTED], from: usize, n: usize) -> bool
    requires { from + n < 3 * places }
    ensures { result ≡ any_after from listed.now n }
{
    any_used(&listed[from + 1..from + 1 + n])
}

// The number that a place keeps.
fn number_kept(k: u32) -> i32
    requires { k ≤ 1015 }
    ensures { result ≡ number_kept k }
{
    if k == 0 {
        return 0;
    }
    if 16 <= k {
        return field_numbers::with_sign(false, k - 16);
    }
    field_numbers::with_sign(true, 16 - k)
}

// The charge of an atom: listed, or that of its code.
fn charge_of(over: Superseded, code: i32, kept: u32) -> i32
    requires { kept ≤ 1015 }
    ensures { result ≡ charge_by over (code_in code) (number_kept kept) }
{
    if over.codes {
        return number_kept(kept);
    }
    if code == 1 {
        return 3;
    }
    if code == 2 {
        return 2;
    }
    if code == 3 {
        return 1;
    }
    if code == 5 {
        return -1;
    }
    if code == 6 {
        return -2;
    }
    if code == 7 {
        return -3;
    }
    0
}

// The radical of an atom: listed, or that of its code.
fn radical_of(over: Superseded, code: i32, kept: u32) -> i32
    requires { kept ≤ 1015 }
    ensures { result ≡ radical_by over (code_in code) (number_kept kept) }
{
    if over.codes {
        return number_kept(kept);
    }
    if code == 4 {
        return 2;
    }
    0
}

// Isotopes put an end to mass differences.
fn mass_of(over: Superseded, mass: i32) -> i32
    ensures { result ≡ mass_by over mass }
{
    if over.masses { 0 } else { mass }
}

// Four numbers from place `at` on.
fn put_four(table: &mut [i32], at: usize, a: i32, b: i32, c: i32, d: i32)
    requires { at + 4 ≤ length table.old }
    ensures { table.new ≡ sets table.old at (a ∷ b ∷ c ∷ d ∷ []) }
{
    table[at] = a;
    table[at + 1] = b;
    table[at + 2] = c;
    table[at + 3] = d;
}

// Row i, of atom i + 1, gets its meaning.
fn mean_row(atoms: &mut [i32], i: usize, listed: &[u32; LISTED], over: Superseded)
    requires { (i < limit) × (16 * i + 16 ≤ length atoms.old) × Kept (i + 1) listed.now }
    ensures { atoms.new ≡ meant_row over listed.now i atoms.old }
{
    let at = 16 * i;
    let atom = i + 1;
    let mass = atoms[at + 4];
    let code = atoms[at + 5];
    let mass = mass_of(over, mass);
    let charge = charge_of(over, code, listed[atom]);
    let radical = radical_of(over, code, listed[PLACES + atom]);
    let isotope = number_kept(listed[2 * PLACES + atom]);
    put_four(atoms, at + 4, mass, charge, radical, isotope);
}

// Whether a line of charges or of radicals lists some atom of 1 to n.
fn codes_void(listed: &[u32; LISTED], n: usize) -> bool
    requires { n ≤ limit }
    ensures { result ≡ codes_in n listed.now }
{
    if any_listed(listed, 0, n) {
        return true;
    }
    any_listed(listed, PLACES, n)
}

// What the lines that list some atom of 1 to n supersede.
fn superseded_by(listed: &[u32; LISTED], n: usize) -> Superseded
    requires { n ≤ limit }
    ensures { result ≡ superseded_in n listed.now }
{
    Superseded {
        codes: codes_void(listed, n),
        masses: any_listed(listed, 2 * PLACES, n),
    }
}

// The first n rows get their meaning.
#[tactic(auto, using(crate::proofs::Rows::meanings))]
pub fn mean(atoms: &mut [i32], n: u32, listed: &[u32; LISTED])
    requires { (n ≤ limit) × (16 * n ≤ length atoms.old) × Kept n listed.now }
    ensures { atoms.new ≡ meant n atoms.old listed.now }
{
    let rows = n as usize;
    let over = superseded_by(listed, rows);
    for i in 0..rows {
        mean_row(atoms, i, listed, over);
    }
}
