// Rows of the tables as JSON, at a place of lent room that has enough left. Each function answers the place behind what it has put.
#![tactic(auto)]

ghost use Rattle.std.specs.Prelude.{◌≡◌, ◌+◌, ◌-◌, ◌*◌, ◌≤◌, ◌<◌, length};

// Numbers of an atom, and of a bond.
pub const ATOM: usize = 16;

pub const BOND: usize = 6;

// Numbers of the tables that a record is read into.
pub const ATOMS: usize = rules::ATOMS;

pub const BONDS: usize = rules::BONDS;

// No row is longer, with the comma before it.
pub const ROW: usize = 256;

// These bytes.
fn put_bytes(room: &mut [u8], at: usize, src: &[u8]) -> usize
    requires { at + length src.now ≤ length room.old }
    ensures { result ≡ at + length src.now }
{
    let end = at + src.len();
    room[at..end].copy_from_slice(src);
    end
}

// Digits are put by hand: with `write!` for each number `records read` takes 50.2 instructions a byte in place of 34.1.
fn digit(k: u32) -> u8 {
    48 + (k % 10) as u8
}

pub fn put_byte(room: &mut [u8], at: usize, b: u8) -> usize
    requires { at < length room.old }
    ensures { result ≡ at + 1 }
{
    room[at] = b;
    at + 1
}

// The last two digits of a number.
fn put_two(room: &mut [u8], at: usize, k: u32) -> usize
    requires { at + 2 ≤ length room.old }
    ensures { result ≡ at + 2 }
{
    let middle = put_byte(room, at, digit(k / 10));
    put_byte(room, middle, digit(k))
}

// The last three digits.
fn put_three(room: &mut [u8], at: usize, k: u32) -> usize
    requires { at + 3 ≤ length room.old }
    ensures { result ≡ at + 3 }
{
    let middle = put_byte(room, at, digit(k / 100));
    put_two(room, middle, k)
}

// The last four digits.
fn put_four(room: &mut [u8], at: usize, k: u32) -> usize
    requires { at + 4 ≤ length room.old }
    ensures { result ≡ at + 4 }
{
    let middle = put_two(room, at, k / 100);
    put_two(room, middle, k)
}

// A number of at most four digits.
fn put_short(room: &mut [u8], at: usize, k: u32) -> usize
    requires { at + 4 ≤ length room.old }
    ensures { result ≤ at + 4 }
{
    if k < 10 {
        return put_byte(room, at, digit(k));
    }
    if k < 100 {
        return put_two(room, at, k);
    }
    if k < 1000 {
        return put_three(room, at, k);
    }
    put_four(room, at, k)
}

// A number of at most eight digits.
fn put_long(room: &mut [u8], at: usize, k: u32) -> usize
    requires { at + 8 ≤ length room.old }
    ensures { result ≤ at + 8 }
{
    if k < 10000 {
        return put_short(room, at, k);
    }
    let middle = put_short(room, at, k / 10000);
    put_four(room, middle, k)
}

// A number of any size.
fn put_size(room: &mut [u8], at: usize, k: u32) -> usize
    requires { at + 12 ≤ length room.old }
    ensures { result ≤ at + 12 }
{
    if k < 10000 {
        return put_short(room, at, k);
    }
    let middle = put_long(room, at, k / 10000);
    put_four(room, middle, k)
}

fn put_sign(room: &mut [u8], at: usize, v: i32) -> usize
    requires { at < length room.old }
    ensures { result ≤ at + 1 }
{
    if v < 0 {
        return put_byte(room, at, b'-');
    }
    at
}

// A comma and then a number of a table.
fn put_number(room: &mut [u8], at: usize, v: i32) -> usize
    requires { at + 14 ≤ length room.old }
    ensures { result ≤ at + 14 }
{
    let parted = put_byte(room, at, b',');
    let signed = put_sign(room, parted, v);
    put_size(room, signed, v.unsigned_abs())
}

// Some numbers of a table, with a comma before each.
fn put_numbers(room: &mut [u8], at: usize, numbers: &[i32]) -> usize
    requires { at + 14 * length numbers.now ≤ length room.old }
    ensures { result ≤ at + 14 * length numbers.now }
{
    let mut a = at;
    for v in numbers {
        a = put_number(room, a, *v);
    }
    a
}

// The first three numbers of a row; its bracket stands where the first one's comma would.
fn put_three_numbers(room: &mut [u8], at: usize, table: &[i32], i: usize) -> usize
    requires { (i + 3 ≤ length table.now) × (at + 42 ≤ length room.old) }
    ensures { result ≤ at + 42 }
{
    let behind = put_numbers(room, at, &table[i..i + 3]);
    put_byte(room, at, b'[');
    behind
}

// Whether one of some numbers is not 0. All are asked, which compiles to a few vector tests.
fn any_number(numbers: &[i32]) -> bool {
    numbers.iter().fold(0, |all, v| all | *v) != 0
}

// The place behind a symbol of three columns, without its spaces.
fn behind_symbol(room: &[u8], at: usize) -> usize
    requires { at + 3 ≤ length room.now }
    ensures { result ≤ at + 3 }
{
    if room[at + 1] == b' ' {
        return at + 1;
    }
    if room[at + 2] == b' ' {
        return at + 2;
    }
    at + 3
}

// The symbol of this number; nothing where no symbol has it.
fn put_symbol(room: &mut [u8], at: usize, k: u32) -> usize
    requires { at + 3 ≤ length room.old }
    ensures { result ≤ at + 3 }
{
    if k < 1 || field_symbols::SYMBOLS < k {
        return at;
    }
    field_symbols_put::put_symbol(room, at, k);
    behind_symbol(room, at)
}

// The symbol of an atom as text, behind its coordinates.
fn put_element(room: &mut [u8], at: usize, v: i32) -> usize
    requires { at + 6 ≤ length room.old }
    ensures { result ≤ at + 6 }
{
    let opened = put_bytes(room, at, b",\"");
    let named = put_symbol(room, opened, v.unsigned_abs());
    put_byte(room, named, b'"')
}

// The last twelve numbers of an atom. They are nearly always 0.
fn put_rest(room: &mut [u8], at: usize, atoms: &[i32], i: usize) -> usize
    requires { (i + 16 ≤ length atoms.now) × (at + 180 ≤ length room.old) }
    ensures { result ≤ at + 180 }
{
    let rest = &atoms[i + 4..i + 16];
    if !any_number(rest) {
        return put_bytes(room, at, b",0,0,0,0,0,0,0,0,0,0,0,0]");
    }
    let behind = put_numbers(room, at, rest);
    put_byte(room, behind, b']')
}

fn put_comma(room: &mut [u8], at: usize, first: bool) -> usize
    requires { at < length room.old }
    ensures { result ≤ at + 1 }
{
    if first {
        return at;
    }
    put_byte(room, at, b',')
}

// The atom whose row begins at number i of the table: 16 numbers, the symbol as text.
pub fn put_atom(room: &mut [u8], at: usize, atoms: &[i32], i: usize) -> usize
    requires { (i + 16 ≤ length atoms.now) × (at + 256 ≤ length room.old) }
    ensures { result ≤ at + 256 }
{
    let begun = put_comma(room, at, i == 0);
    let placed = put_three_numbers(room, begun, atoms, i);
    let named = put_element(room, placed, atoms[i + 3]);
    put_rest(room, named, atoms, i)
}

// The last three numbers of a bond.
fn put_end(room: &mut [u8], at: usize, bonds: &[i32], i: usize) -> usize
    requires { (i + 6 ≤ length bonds.now) × (at + 60 ≤ length room.old) }
    ensures { result ≤ at + 60 }
{
    let rest = &bonds[i + 3..i + 6];
    if !any_number(rest) {
        return put_bytes(room, at, b",0,0,0]");
    }
    let behind = put_numbers(room, at, rest);
    put_byte(room, behind, b']')
}

// The bond whose row begins at number i of the table.
pub fn put_bond(room: &mut [u8], at: usize, bonds: &[i32], i: usize) -> usize
    requires { (i + 6 ≤ length bonds.now) × (at + 256 ≤ length room.old) }
    ensures { result ≤ at + 256 }
{
    let begun = put_comma(room, at, i == 0);
    let placed = put_three_numbers(room, begun, bonds, i);
    put_end(room, placed, bonds, i)
}
