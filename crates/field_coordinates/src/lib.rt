// Coordinate fields of a line, as signed counts of ten-thousandths.
#![tactic(auto)]

ghost use Rattle.std.specs.Prelude.{◌≡◌, ◌+◌, ◌-◌, ◌≤◌, length};
ghost use Rattle.text.specs.Columns.{columns, columns_for};
ghost use Rattle.field_coordinates.specs.Read.{point_read, inked, coordinate_in};

// The digits from column a up to the point in column p, the four after it, and the sign read before them: columns that the line has.
fn digits_at(line: &[u8], a: usize, p: usize, minus: bool) -> Option<i32>
    requires { (1 ≤ a) × (a ≤ p) × (p ≤ a + 5) × (p ≤ 2000) × (p + 4 ≤ length line.now) }
    ensures { result ≡ point_read minus (columns_for line.now a (p - a)) (columns_for line.now (p + 1) 4) }
{
    let whole = field_numbers::inner_digits(line, a, p)?;
    let part = field_numbers::inner_digits(line, p + 1, p + 5)?;
    Some(field_numbers::with_sign(minus, whole * 10000 + part))
}

// Ten columns that are no coordinate unless they are blank.
fn blank_only(line: &[u8], i: usize) -> Option<i32>
    requires { (1 ≤ i) × (i ≤ 1000) × (inked (columns line.now i (i + 9)) ≡ None) }
    ensures { result ≡ coordinate_in (columns line.now i (i + 9)) }
{
    let e = i + 10;
    let b = field_numbers::spaces_end(line, i, e);
    if e <= b {
        return Some(0);
    }
    None
}

// Ten columns that the line has.
fn whole_field(line: &[u8], i: usize) -> Option<i32>
    requires { (1 ≤ i) × (i ≤ 1000) × (i + 9 ≤ length line.now) }
    ensures { result ≡ coordinate_in (columns line.now i (i + 9)) }
{
    let p = i + 5;
    let a = field_numbers::inner_spaces_end(line, i, p);
    if p <= a {
        return blank_only(line, i);
    }
    if text::inner_column(line, p) != 46 {
        return None;
    }
    if text::inner_column(line, a) == 45 {
        return digits_at(line, a + 1, p, true);
    }
    digits_at(line, a, p, false)
}

// The coordinate in the ten columns from column i. A line that ends before the last of them leaves a space for a digit.
pub fn coordinate(line: &[u8], i: usize) -> Option<i32>
    requires { (1 ≤ i) × (i ≤ 1000) }
    ensures { result ≡ coordinate_in (columns line.now i (i + 9)) }
{
    if line.len() < i + 9 {
        return blank_only(line, i);
    }
    whole_field(line, i)
}
