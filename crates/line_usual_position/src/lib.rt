// The three coordinates of an atom line in their usual form, with one digit or two before the point: most have it, and it is asked of all thirty columns at once.
#![tactic(auto)]

ghost use Rattle.std.specs.Prelude.{◌≡◌, true, false, ◌+◌, ◌-◌, ◌≤◌, length};
ghost use Rattle.text.specs.Columns.{column};
ghost use Rattle.field_numbers.specs.Number.{Digit};
ghost use Rattle.line_usual_position.specs.Usual.{Between, Lead, UsualAt, UsualLine, minus_of, tens_of, decimals_of, coordinate_of, Said};

#[derive(Drop)]
pub struct Position {
    pub x: i32,
    pub y: i32,
    pub z: i32,
}

// Whether a column from 1 on lies outside its bounds. All are compared, and by `|` with both, which compiles to a few
// vector tests.
fn outside(line: &[u8], low: &[u8], high: &[u8]) -> bool
    requires { (length low.now ≤ length line.now) × (length low.now ≡ length high.now) }
    ensures { result ≡ false → Between line.now low.now high.now (length low.now) }
{
    text::any_below(low.len(), |k| {
        let b = text::inner_column(line, k + 1);
        (b < low[k]) | (high[k] < b)
    })
}

// Whether the two columns before the units have no digit and at most a sign in the second, or a digit there and at most a sign before it.
fn has_lead(line: &[u8], i: usize) -> bool
    requires { (1 ≤ i) × (i ≤ 1000) × (i + 9 ≤ length line.now) × (column line.now (i + 3) ≤ 57) }
    ensures { result ≡ true → Lead (column line.now (i + 2)) (column line.now (i + 3)) }
{
    let a = text::inner_column(line, i + 2);
    let b = text::inner_column(line, i + 3);
    if b >= 48 {
        if a == 45 {
            return true;
        }
        return a == 32;
    }
    if a != 32 {
        return false;
    }
    if b == 45 {
        return true;
    }
    b == 32
}

// A digit of the line.
fn digit(line: &[u8], i: usize) -> u32
    requires { (1 ≤ i) × (i ≤ length line.now) × Digit (column line.now i) }
    ensures { (result ≡ column line.now i - 48) × (result ≤ 9) }
{
    let d = text::inner_column(line, i);
    d as u32 - 48
}

// Whether a usual coordinate has a sign.
fn minus(line: &[u8], i: usize) -> bool
    requires { (1 ≤ i) × (i ≤ 1000) × (i + 9 ≤ length line.now) }
    ensures { result ≡ minus_of (column line.now (i + 2)) (column line.now (i + 3)) }
{
    if text::inner_column(line, i + 3) == 45 {
        return true;
    }
    text::inner_column(line, i + 2) == 45
}

// The tens before its point.
fn tens(line: &[u8], i: usize) -> u32
    requires { (1 ≤ i) × (i ≤ 1000) × UsualAt line.now i }
    ensures { (result ≡ tens_of (column line.now (i + 3))) × (result ≤ 9) }
{
    let b = text::inner_column(line, i + 3);
    if b >= 48 {
        return b as u32 - 48;
    }
    0
}

// Its four digits after the point.
fn decimals(line: &[u8], i: usize) -> u32
    requires { (1 ≤ i) × (i ≤ 1000) × UsualAt line.now i }
    ensures { (result ≡ decimals_of line.now i) × (result ≤ 9999) }
{
    let a = digit(line, i + 6) * 10 + digit(line, i + 7);
    let b = a * 10 + digit(line, i + 8);
    b * 10 + digit(line, i + 9)
}

// The usual coordinate in the ten columns from column i.
fn coordinate(line: &[u8], i: usize) -> i32
    requires { (1 ≤ i) × (i ≤ 1000) × UsualAt line.now i }
    ensures { result ≡ coordinate_of line.now i }
{
    let whole = tens(line, i) * 10 + digit(line, i + 4);
    field_numbers::with_sign(minus(line, i), whole * 10000 + decimals(line, i))
}

fn is_usual(line: &[u8]) -> bool
    ensures { result ≡ true → UsualLine line.now }
{
    if line.len() < 30 {
        return false;
    }
    if outside(
        line,
        b"    0.0000    0.0000    0.0000",
        b"  -99.9999  -99.9999  -99.9999",
    ) {
        return false;
    }
    if !has_lead(line, 1) {
        return false;
    }
    if !has_lead(line, 11) {
        return false;
    }
    has_lead(line, 21)
}

// Columns 1 to 30 of an atom line, where all three coordinates are usual.
pub fn usual_position(line: &[u8]) -> Option<Position>
    ensures { Said line.now result }
{
    if is_usual(line) {
        return Some(Position {
            x: coordinate(line, 1),
            y: coordinate(line, 11),
            z: coordinate(line, 21),
        });
    }
    None
}
