// Integer fields of a line: what they hold and how they are written; spaces and digits, column by column.
#![tactic(auto)]

ghost use Rattle.std.specs.Prelude.{◌≡◌, ◌+◌, ◌-◌, ◌≤◌, ◌<◌, length};
ghost use Rattle.text.specs.Columns.{columns_for};
ghost use Rattle.field_numbers.specs.Read.{after_spaces, signed};
ghost use Rattle.field_numbers.specs.SignSize.{size_in};

// Why columns hold no number of a range.
#[derive(Clone, Copy, PartialEq, Eq, Debug)]
pub enum NumberFault {
    Malformed,
    Outside,
}

// A number before its range is asked: whether a `-` stands before its digits, and what they stand for.
#[derive(Clone, Copy)]
pub struct SignedSize {
    pub minus: bool,
    pub size: u32,
}

// The first column from i on that is no space, or e: columns i to e - 1 are looked at.
#[tactic(auto, using(crate::proofs::Fields::passing_laws))]
pub fn spaces_end(line: &[u8], i: usize, e: usize) -> usize
    requires { (1 ≤ i) × (i ≤ e) }
    ensures i_value { after_spaces (columns_for line.now i (e - i)) ≡ columns_for line.now result (e - result) }
    ensures lower_bound { (i ≤ result) × (result ≤ e) }
{
    for a in i..e {
        if text::column(line, a) != 32 {
            return a;
        }
    }
    e
}

// The same in columns that the line has.
#[tactic(auto, using(crate::proofs::Fields::passing_laws))]
pub fn inner_spaces_end(line: &[u8], i: usize, e: usize) -> usize
    requires { (1 ≤ i) × (i ≤ e) × (e ≤ length line.now + 1) }
    ensures i_value { after_spaces (columns_for line.now i (e - i)) ≡ columns_for line.now result (e - result) }
    ensures lower_bound { (i ≤ result) × (result ≤ e) }
{
    for a in i..e {
        if text::inner_column(line, a) != 32 {
            return a;
        }
    }
    e
}

// The digits in columns i to e - 1, all of which the line has.
#[tactic(auto, using(crate::proofs::Fields::counting_laws))]
pub fn inner_digits(line: &[u8], i: usize, e: usize) -> Option<u32>
    requires { (1 ≤ i) × (i ≤ e) × (e ≤ i + 9) × (e ≤ length line.now + 1) }
    ensures { result ≡ size_in (columns_for line.now i (e - i)) }
{
    if e <= i {
        return None;
    }
    let mut k: u32 = 0;
    for a in i..e {
        let d = text::inner_column(line, a);
        if d < 48 {
            return None;
        }
        if 57 < d {
            return None;
        }
        k = k * 10 + ((d - 48) as u32);
    }
    Some(k)
}

// A number with a sign.
pub fn with_sign(minus: bool, k: u32) -> i32
    requires { k < 1000000000 }
    ensures { result ≡ signed minus k }
{
    if minus { 0 - (k as i32) } else { k as i32 }
}
