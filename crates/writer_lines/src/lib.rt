// Lines of a molecule written into lent room: fields, and the counts, atom and bond lines that they make.
#![tactic(auto)]

ghost use Rattle.std.specs.Prelude.{◌≡◌, [], ◌∷◌, map, ◌+◌, ◌-◌, ◌*◌, ◌≤◌, ◌<◌, length, get_or, pos, nat_abs};
ghost use Rattle.text.specs.Written.{text};
ghost use Rattle.field_numbers.specs.Write.{number_text, signed_text};
ghost use Rattle.field_coordinates.specs.Write.{coordinate_text};
ghost use Rattle.field_symbols.specs.Symbol.{symbols_all};
ghost use Rattle.field_symbols.specs.Write.{symbol_text};
ghost use Rattle.rules.specs.Write.{counts_text};
ghost use Rattle.rules.specs.Canon.{code_of_charge, charge_code};
ghost use Rattle.rules.specs.Rows.{rows_of};
ghost use Rattle.writer_lines.specs.Laid.{Field};
ghost use Rattle.writer_lines.specs.Lines.{atom_line, bond_line, WritableAtoms, columns_from, code_text, position_text, are_zeros, is_plain, values_text, stereo_text};

// These bytes, one by one: copy_from_slice costs up to 0.2 instructions a byte of what `records canon` reads.
#[tactic(auto, using(crate::specs::LineParts::copying_laws))]
pub fn put_bytes(room: &mut [u8], at: usize, src: &[u8]) -> usize
    requires { at + length src.now ≤ length room.old }
    ensures { Field room.old room.new at (length src.now) src.now result }
{
    for i in 0..src.len() {
        room[at + i] = src[i];
    }
    at + src.len()
}

// Three columns for a number without negatives.
pub fn put_number(room: &mut [u8], at: usize, k: u32) -> usize
    requires { at + 3 ≤ length room.old }
    ensures { Field room.old room.new at 3 (number_text 3 k) result }
{
    field_numbers_put::put_number(room, at, 3, k);
    at + 3
}

// A number without its sign.
fn size_of(v: i32) -> u32
    ensures { result ≡ nat_abs v }
{
    if v < 0 {
        return (-1 - v) as u32 + 1;
    }
    v as u32
}

// Three columns for each of numbers i to e - 1 of a row.
#[tactic(auto, using(crate::specs::LineParts::columns_laws))]
fn put_columns(room: &mut [u8], at: usize, row: &[i32], i: usize, e: usize) -> usize
    requires { (i ≤ e) × ((e ≤ length row.now) × (at + 3 * (e - i) ≤ length room.old)) }
    ensures { Field room.old room.new at (3 * (e - i)) (columns_from row.now i (e - i)) result }
{
    let mut a = at;
    for k in i..e {
        let v = row[k];
        a = put_number(room, a, size_of(v));
    }
    a
}

// Number k of a row with its sign.
pub fn put_signed(room: &mut [u8], at: usize, width: usize, row: &[i32], k: usize) -> usize
    requires { (at + width ≤ length room.old) × (k < length row.now) }
    ensures { Field room.old room.new at width (signed_text width (get_or row.now k (pos 0))) result }
{
    let v = row[k];
    field_numbers_put::put_signed(room, at, width, v);
    at + width
}

// Number k of a row as a coordinate.
fn put_coordinate(room: &mut [u8], at: usize, row: &[i32], k: usize) -> usize
    requires { (at + 10 ≤ length room.old) × (k < length row.now) }
    ensures { Field room.old room.new at 10 (coordinate_text (get_or row.now k (pos 0))) result }
{
    let v = row[k];
    field_coordinates_put::put_coordinate(room, at, v);
    at + 10
}

// Number 3 of an atom's row as a symbol.
fn put_symbol(room: &mut [u8], at: usize, row: &[i32]) -> usize
    requires at_in_bounds { (at + 3 ≤ length room.old) × (3 < length row.now) }
    requires bound { (1 ≤ nat_abs (get_or row.now 3 (pos 0))) × (nat_abs (get_or row.now 3 (pos 0)) ≤ symbols_all) }
    ensures { Field room.old room.new at 3 (symbol_text (nat_abs (get_or row.now 3 (pos 0)))) result }
{
    let v = row[3];
    let k = size_of(v);
    field_symbols_put::put_symbol(room, at, k);
    at + 3
}

fn code_of_charge(charge: i32) -> u32
    ensures { result ≡ code_of_charge charge }
{
    if charge == 3 {
        return 1;
    }
    if charge == 2 {
        return 2;
    }
    if charge == 1 {
        return 3;
    }
    if charge == -1 {
        return 5;
    }
    if charge == -2 {
        return 6;
    }
    if charge == -3 {
        return 7;
    }
    0
}

// The code that an atom line has for a charge and a radical.
fn charge_code(charge: i32, radical: i32) -> u32
    ensures { result ≡ charge_code charge radical }
{
    if radical == 0 {
        return code_of_charge(charge);
    }
    if radical == 2 {
        if charge == 0 {
            return 4;
        }
        return 0;
    }
    0
}

// The charge code of an atom's row.
fn put_code(room: &mut [u8], at: usize, row: &[i32]) -> usize
    requires { (at + 3 ≤ length room.old) × (6 < length row.now) }
    ensures { Field room.old room.new at 3 (code_text row.now) result }
{
    let charge = row[5];
    let radical = row[6];
    put_number(room, at, charge_code(charge, radical))
}

// aaabbblllfffcccsssxxxrrrpppiiimmmvvvvvv
pub fn put_counts(room: &mut [u8], at: usize, n: u32, m: u32, chiral: u32) -> usize
    requires { at + 40 ≤ length room.old }
    ensures { Field room.old room.new at 40 (text (counts_text (record { atoms = n; bonds = m; chiral = chiral }) ∷ [])) result }
{
    let a = put_number(room, at, n);
    let b = put_number(room, a, m);
    let c = put_bytes(room, b, b"  0  0");
    let d = put_number(room, c, chiral);
    put_bytes(room, d, b"  0  0  0  0  0999 V2000\n")
}

// Columns 1 to 31 of an atom line.
fn put_position(room: &mut [u8], at: usize, row: &[i32]) -> usize
    requires { (at + 31 ≤ length room.old) × (3 ≤ length row.now) }
    ensures { Field room.old room.new at 31 (position_text row.now) result }
{
    let a = put_coordinate(room, at, row, 0);
    let b = put_coordinate(room, a, row, 1);
    let c = put_coordinate(room, b, row, 2);
    put_bytes(room, c, b" ")
}

// Whether numbers i to e - 1 of a row are zeros: all are looked at, for eight at once are cheaper than one after the other.
#[tactic(auto, using(crate::specs::Zeros::zeros_laws))]
fn are_zeros(row: &[i32], i: usize, e: usize) -> bool
    requires { (i ≤ e) × (e ≤ length row.now) }
    ensures { result ≡ are_zeros row.now i (e - i) }
{
    let mut zeros = true;
    for k in i..e {
        let v = row[k];
        if v != 0 {
            zeros = false;
        }
    }
    zeros
}

// Whether an atom line has zeros only after its symbol, as most have.
fn is_plain(row: &[i32]) -> bool
    requires { length row.now ≡ 16 }
    ensures { result ≡ is_plain row.now }
{
    if are_zeros(row, 8, 16) {
        return are_zeros(row, 4, 7);
    }
    false
}

// What follows the symbol in an atom line, its LF included.
fn put_values(room: &mut [u8], at: usize, row: &[i32]) -> usize
    requires { (at + 36 ≤ length room.old) × (length row.now ≡ 16) }
    ensures { Field room.old room.new at 36 (values_text row.now) result }
{
    let a = put_signed(room, at, 2, row, 4);
    let b = put_code(room, a, row);
    let c = put_columns(room, b, row, 8, 13);
    let d = put_bytes(room, c, b"  0  0");
    let e = put_columns(room, d, row, 13, 16);
    put_bytes(room, e, b"\n")
}

// xxxxx.xxxxyyyyy.yyyyzzzzz.zzzz aaaddcccssshhhbbbvvvHHHrrriiimmmnnneee
fn put_atom(room: &mut [u8], at: usize, row: &[i32]) -> usize
    requires at_in_bounds { (at + 70 ≤ length room.old) × (length row.now ≡ 16) }
    requires bound { (1 ≤ nat_abs (get_or row.now 3 (pos 0))) × (nat_abs (get_or row.now 3 (pos 0)) ≤ symbols_all) }
    ensures { Field room.old room.new at 70 (text (atom_line row.now ∷ [])) result }
{
    let a = put_position(room, at, row);
    let b = put_symbol(room, a, row);
    if is_plain(row) {
        return put_bytes(room, b, b" 0  0  0  0  0  0  0  0  0  0  0  0\n");
    }
    put_values(room, b, row)
}

// What follows the type in a bond line, its LF included.
fn put_stereo(room: &mut [u8], at: usize, row: &[i32]) -> usize
    requires { (at + 13 ≤ length room.old) × (length row.now ≡ 6) }
    ensures { Field room.old room.new at 13 (stereo_text row.now) result }
{
    let a = put_columns(room, at, row, 3, 4);
    let b = put_bytes(room, a, b"  0");
    let c = put_columns(room, b, row, 4, 5);
    let d = put_signed(room, c, 3, row, 5);
    put_bytes(room, d, b"\n")
}

// 111222tttsssxxxrrrccc
fn put_bond(room: &mut [u8], at: usize, row: &[i32]) -> usize
    requires { (at + 22 ≤ length room.old) × (length row.now ≡ 6) }
    ensures { Field room.old room.new at 22 (text (bond_line row.now ∷ [])) result }
{
    let a = put_columns(room, at, row, 0, 3);
    if are_zeros(row, 3, 6) {
        return put_bytes(room, a, b"  0  0  0  0\n");
    }
    put_stereo(room, a, row)
}

#[tactic(auto, using(crate::specs::Walks::laying_laws))]
pub fn put_atoms(room: &mut [u8], at: usize, atoms: &[i32], n: usize) -> usize
    requires n_in_bounds { (16 * n ≤ length atoms.now) × (at + 70 * n ≤ length room.old) }
    requires writable_atoms { WritableAtoms n atoms.now }
    ensures { Field room.old room.new at (70 * n) (text (map atom_line (rows_of 16 n atoms.now))) result }
{
    let mut e = at;
    for i in 0..n {
        let a = 16 * i;
        let b = a + 16;
        e = put_atom(room, e, &atoms[a..b]);
    }
    e
}

#[tactic(auto, using(crate::specs::Walks::laying_laws))]
pub fn put_bonds(room: &mut [u8], at: usize, bonds: &[i32], m: usize) -> usize
    requires { (6 * m ≤ length bonds.now) × (at + 22 * m ≤ length room.old) }
    ensures { Field room.old room.new at (22 * m) (text (map bond_line (rows_of 6 m bonds.now))) result }
{
    let mut e = at;
    for i in 0..m {
        let a = 6 * i;
        let b = a + 6;
        e = put_bond(room, e, &bonds[a..b]);
    }
    e
}
