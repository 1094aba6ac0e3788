// One row of a table that is to be written: the ranges of an atom's numbers, the ranges and rules of a bond's.
#![tactic(auto)]

ghost use Rattle.std.specs.Prelude.{◌≡◌, ◌≤◌, ◌<◌, not, length, get_or, pos};
ghost use Rattle.rules.specs.Record.{limit};
ghost use Rattle.rules.specs.Canon.{atom_row, bond_row};
ghost use Rattle.judge_line.specs.Field.{elem_signed, same_integer};
ghost use Rattle.writer_row.specs.Row.{in_range, marks, place_holds, numbers_hold, codes_hold, changes_hold, atom_holds, kind_holds, bond_holds};

// The number at k of a row is from `low` to `high`.
fn in_range(row: &[i32], k: usize, low: i32, high: u32) -> bool
    requires { (k < length row.now) × (high < 1000000000) }
    ensures { result ≡ in_range low high (get_or row.now k (pos 0)) }
{
    let v = row[k];
    if v < low {
        return false;
    }
    v <= high as i32
}

// Coordinates, symbol, mass difference.
fn place_holds(row: &[i32]) -> bool
    requires { 16 ≤ length row.now }
    ensures { result ≡ place_holds (atom_row row.now) }
{
    if !in_range(row, 0, -99999999, 999999999) {
        return false;
    }
    if !in_range(row, 1, -99999999, 999999999) {
        return false;
    }
    if !in_range(row, 2, -99999999, 999999999) {
        return false;
    }
    if !in_range(row, 3, 1, field_symbols::SYMBOLS) {
        return false;
    }
    in_range(row, 4, -3, 4)
}

// Charge, radical, isotope, parity, hydrogen count.
fn numbers_hold(row: &[i32]) -> bool
    requires { 16 ≤ length row.now }
    ensures { result ≡ numbers_hold (atom_row row.now) }
{
    if !in_range(row, 5, -15, 15) {
        return false;
    }
    if !in_range(row, 6, 0, 3) {
        return false;
    }
    if !in_range(row, 7, 0, 999) {
        return false;
    }
    if !in_range(row, 8, 0, 3) {
        return false;
    }
    in_range(row, 9, 0, 5)
}

// Stereo care, valence, H0, atom map.
fn codes_hold(row: &[i32], n: u32) -> bool
    requires { (16 ≤ length row.now) × (n ≤ limit) }
    ensures { result ≡ codes_hold n (atom_row row.now) }
{
    if !in_range(row, 10, 0, 1) {
        return false;
    }
    if !in_range(row, 11, 0, 15) {
        return false;
    }
    if !in_range(row, 12, 0, 1) {
        return false;
    }
    in_range(row, 13, 0, n)
}

// Inversion, exact change.
fn changes_hold(row: &[i32]) -> bool
    requires { 16 ≤ length row.now }
    ensures { result ≡ changes_hold (atom_row row.now) }
{
    if !in_range(row, 14, 0, 2) {
        return false;
    }
    in_range(row, 15, 0, 1)
}

// A row of an atom, in a record of n.
pub fn atom_holds(row: &[i32], n: u32) -> bool
    requires { (16 ≤ length row.now) × (n ≤ limit) }
    ensures { result ≡ atom_holds n (atom_row row.now) }
{
    if !place_holds(row) {
        return false;
    }
    if !numbers_hold(row) {
        return false;
    }
    if !codes_hold(row, n) {
        return false;
    }
    changes_hold(row)
}

// The stereo marks of single bonds, of double bonds, of all others, and the marks of a reacting centre.
const SINGLE: [i32; 4] = [0, 1, 4, 6];

const DOUBLE: [i32; 2] = [0, 3];

const OTHER: [i32; 1] = [0];

const CENTRES: [i32; 10] = [-1, 0, 1, 2, 4, 5, 8, 9, 12, 13];

// The number at k of a row is one of the list.
fn one_of(row: &[i32], k: usize, list: &[i32]) -> bool
    requires { k < length row.now }
    ensures { result ≡ elem_signed (get_or row.now k (pos 0)) list.now }
{
    list.contains(&row[k])
}

fn stereo_holds(row: &[i32]) -> bool
    requires { 6 ≤ length row.now }
    ensures { result ≡ elem_signed (bond_row row.now).stereo (marks (bond_row row.now).type) }
{
    let order = row[2];
    if order == 1 {
        return one_of(row, 3, &SINGLE);
    }
    if order == 2 {
        return one_of(row, 3, &DOUBLE);
    }
    one_of(row, 3, &OTHER)
}

// Type, stereo mark, topology, reacting centre.
fn kind_holds(row: &[i32]) -> bool
    requires { 6 ≤ length row.now }
    ensures { result ≡ kind_holds (bond_row row.now) }
{
    if !in_range(row, 2, 1, 8) {
        return false;
    }
    if !stereo_holds(row) {
        return false;
    }
    if !in_range(row, 4, 0, 2) {
        return false;
    }
    one_of(row, 5, &CENTRES)
}

// The ends differ.
fn ends_differ(row: &[i32]) -> bool
    requires { 6 ≤ length row.now }
    ensures { result ≡ not (same_integer (bond_row row.now).first (bond_row row.now).second) }
{
    let first = row[0];
    let second = row[1];
    first != second
}

// A row of a bond, in a record of n atoms.
pub fn bond_holds(row: &[i32], n: u32) -> bool
    requires { (6 ≤ length row.now) × (n ≤ limit) }
    ensures { result ≡ bond_holds n (bond_row row.now) }
{
    if !in_range(row, 0, 1, n) {
        return false;
    }
    if !in_range(row, 1, 1, n) {
        return false;
    }
    if !kind_holds(row) {
        return false;
    }
    ends_differ(row)
}
