// The molecule of a record written into lent room: counts, atoms and bonds, then property lines and `M  END`.
#![tactic(auto)]

ghost use Rattle.std.specs.Prelude.{◌≡◌, [], ◌∷◌, cond, ◌+◌, ◌*◌, ◌≤◌, ◌<◌, length, take};
ghost use Rattle.text.specs.Text.{bytes};
ghost use Rattle.text.specs.Written.{text};
ghost use Rattle.rules.specs.Write.{property_text};
ghost use Rattle.rules.specs.Forms.{tag};
ghost use Rattle.rules.specs.Canon.{is_zero};
ghost use Rattle.rules.specs.Record.{limit};
ghost use Rattle.writer_lines.specs.Laid.{Laid, Field};
ghost use Rattle.writer_lines.specs.Lines.{WritableAtoms};
ghost use Rattle.writer_molecule.specs.Properties.{kind_of, number_at, entry_at, entries_at, entries_text, properties_text, Next, Eight, Entered};
ghost use Rattle.writer_molecule.specs.Body.{body_text, rest_text, rest_size, body_size};

// Whether atom i, which counts from 0, has the number 0: a kind is 0 for charges, 1 for radicals, 2 for isotopes.
fn is_zero(atoms: &[i32], i: usize, kind: usize) -> bool
    requires { (16 * i + 16 ≤ length atoms.now) × (kind ≤ 2) }
    ensures { result ≡ is_zero (number_at kind atoms.now i) }
{
    let v = atoms[16 * i + 5 + kind];
    if v == 0 {
        return true;
    }
    false
}

// 1 for an atom that has an entry.
fn one_entry(atoms: &[i32], i: usize, kind: usize) -> usize
    requires { (16 * i + 16 ≤ length atoms.now) × (kind ≤ 2) }
    ensures { result ≡ cond (is_zero (number_at kind atoms.now i)) 0 1 }
{
    if is_zero(atoms, i, kind) {
        return 0;
    }
    1
}

// How many atoms have an entry.
#[tactic(auto, using(crate::specs::Listing::counting_laws))]
fn entry_count(atoms: &[i32], n: usize, kind: usize) -> usize
    requires { (16 * n ≤ length atoms.now) × (kind ≤ 2) }
    ensures { result ≡ length (entries_at kind n atoms.now 0) }
{
    let mut k = 0;
    for i in 0..n {
        k += one_entry(atoms, i, kind);
    }
    k
}

// The first atom from i on that has an entry.
#[tactic(auto, using(crate::specs::Listing::seeking_laws))]
fn next_entry(atoms: &[i32], n: usize, kind: usize, i: usize) -> usize
    requires { (16 * n ≤ length atoms.now) × ((kind ≤ 2) × (1 ≤ length (entries_at kind n atoms.now i))) }
    ensures { Next kind n atoms.now i result }
{
    for j in i..n {
        if !is_zero(atoms, j, kind) {
            return j;
        }
    }
    n
}

// The entry of atom i: a space, its number from 1, a space, the number given to it.
fn put_entry(room: &mut [u8], at: usize, atoms: &[i32], i: usize, kind: usize) -> usize
    requires { (at + 8 ≤ length room.old) × ((16 * i + 16 ≤ length atoms.now) × ((kind ≤ 2) × (i < limit))) }
    ensures { Field room.old room.new at 8 (entries_text (entry_at kind atoms.now i ∷ [])) result }
{
    let a = writer_lines::put_bytes(room, at, b" ");
    let b = writer_lines::put_number(room, a, (i + 1) as u32);
    let c = writer_lines::put_bytes(room, b, b" ");
    writer_lines::put_signed(room, c, 3, atoms, 16 * i + 5 + kind)
}

// The first atom that is not looked at yet, and the next place.
#[derive(Drop)]
struct Entries {
    atom: usize,
    at: usize,
}

// The next entries from atom i on, so many.
#[tactic(auto, using(crate::specs::Listing::entering_laws))]
fn put_entries(
    room: &mut [u8],
    at: usize,
    atoms: &[i32],
    n: usize,
    kind: usize,
    i: usize,
    count: usize,
) -> Entries
    requires n_in_bounds { (16 * n ≤ length atoms.now) × ((kind ≤ 2) × (n ≤ limit)) }
    requires count_in_bounds { (count ≤ length (entries_at kind n atoms.now i)) × (at + 8 * count ≤ length room.old) }
    ensures { Entered kind n atoms.now i count (8 * count) room.old room.new at (entries_text (take count (entries_at kind n atoms.now i))) result.atom result.at }
{
    let mut j = i;
    let mut e = at;
    for _ in 0..count {
        let a = next_entry(atoms, n, kind, j);
        e = put_entry(room, e, atoms, a, kind);
        j = a + 1;
    }
    Entries { atom: j, at: e }
}

fn put_tag(room: &mut [u8], at: usize, kind: usize) -> usize
    requires { at + 6 ≤ length room.old }
    ensures { Field room.old room.new at 6 (bytes (tag (kind_of kind))) result }
{
    if kind == 0 {
        return writer_lines::put_bytes(room, at, b"M  CHG");
    }
    if kind == 1 {
        return writer_lines::put_bytes(room, at, b"M  RAD");
    }
    writer_lines::put_bytes(room, at, b"M  ISO")
}

// M  CHGnn8 aaa vvv ...
fn put_property(
    room: &mut [u8],
    at: usize,
    atoms: &[i32],
    n: usize,
    kind: usize,
    i: usize,
    count: usize,
) -> Entries
    requires n_in_bounds { (16 * n ≤ length atoms.now) × ((kind ≤ 2) × (n ≤ limit)) }
    requires count_in_bounds { (count ≤ length (entries_at kind n atoms.now i)) × ((count ≤ 8) × (at + (10 + 8 * count) ≤ length room.old)) }
    ensures { Entered kind n atoms.now i count (10 + 8 * count) room.old room.new at (text (property_text (record { kind = kind_of kind; entries = take count (entries_at kind n atoms.now i) }) ∷ [])) result.atom result.at }
{
    let a = put_tag(room, at, kind);
    let b = writer_lines::put_number(room, a, count as u32);
    let p = put_entries(room, b, atoms, n, kind, i, count);
    let c = p.at;
    let d = writer_lines::put_bytes(room, c, b"\n");
    Entries {
        atom: p.atom,
        at: d,
    }
}

// Entries that a line holds at most.
const PER_LINE: usize = 8;

// How many of the entries left go into the next line.
fn at_most_eight(left: usize) -> usize
    requires { 0 < left }
    ensures { Eight left result }
{
    if left < PER_LINE {
        return left;
    }
    PER_LINE
}

// All lines of a kind: entries by rising atom number, eight a line.
fn put_properties(room: &mut [u8], at: usize, atoms: &[i32], n: usize, kind: usize) -> usize
    requires n_in_bounds { (16 * n ≤ length atoms.now) × ((kind ≤ 2) × (n ≤ limit)) }
    requires atoms_in_bounds { at + length (properties_text kind n atoms.now) ≤ length room.old }
    ensures { Laid room.old room.new at (properties_text kind n atoms.now) result }
{
    let mut left = entry_count(atoms, n, kind);
    let mut i = 0;
    let mut e = at;
    // A line takes up to eight: a `for` over lines would have to make out again what is left and where to go on.
    while 0 < left {
        let k = at_most_eight(left);
        let p = put_property(room, e, atoms, n, kind, i, k);
        i = p.atom;
        e = p.at;
        left -= k;
    }
    e
}

// How many bytes the lines of a kind take.
fn kind_size(atoms: &[i32], n: usize, kind: usize) -> usize
    requires { (16 * n ≤ length atoms.now) × ((kind ≤ 2) × (n ≤ limit)) }
    ensures { result ≡ length (properties_text kind n atoms.now) }
{
    let k = entry_count(atoms, n, kind);
    10 * ((k + 7) / 8) + 8 * k
}

// How many bytes the lines after the header lines take.
pub fn molecule_size(atoms: &[i32], n: u32, m: u32) -> usize
    requires { (16 * n ≤ length atoms.now) × ((n ≤ limit) × (m ≤ limit)) }
    ensures { result ≡ body_size n m atoms.now }
{
    let k = n as usize;
    let a = kind_size(atoms, k, 0);
    let b = kind_size(atoms, k, 1);
    let c = kind_size(atoms, k, 2);
    40 + 70 * k + 22 * (m as usize) + (a + b + c + 7)
}

// The property lines and `M  END`.
fn put_rest(room: &mut [u8], at: usize, atoms: &[i32], n: usize) -> usize
    requires n_in_bounds { (16 * n ≤ length atoms.now) × (n ≤ limit) }
    requires atoms_in_bounds { at + rest_size n atoms.now ≤ length room.old }
    ensures { Laid room.old room.new at (rest_text n atoms.now) result }
{
    let a = put_properties(room, at, atoms, n, 0);
    let b = put_properties(room, a, atoms, n, 1);
    let c = put_properties(room, b, atoms, n, 2);
    writer_lines::put_bytes(room, c, b"M  END\n")
}

// The lines after the header lines.
pub fn put_molecule(
    room: &mut [u8],
    at: usize,
    atoms: &[i32],
    bonds: &[i32],
    n: u32,
    m: u32,
    chiral: u32,
) -> usize
    requires n_in_bounds { ((16 * n ≤ length atoms.now) × (6 * m ≤ length bonds.now)) × ((n ≤ limit) × (m ≤ limit)) }
    requires writable_atoms { WritableAtoms n atoms.now }
    requires atoms_in_bounds { at + body_size n m atoms.now ≤ length room.old }
    ensures { Laid room.old room.new at (body_text n m chiral atoms.now bonds.now) result }
{
    let k = n as usize;
    let a = writer_lines::put_counts(room, at, n, m, chiral);
    let b = writer_lines::put_atoms(room, a, atoms, k);
    let c = writer_lines::put_bonds(room, b, bonds, m as usize);
    put_rest(room, c, atoms, k)
}
