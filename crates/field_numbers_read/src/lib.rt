// Integer fields of a line, read by columns.
#![tactic(auto)]

ghost use Rattle.std.specs.Prelude.{◌≡◌, true, ◌+◌, ◌-◌, ◌≤◌, ◌<◌, pos, length};
ghost use Rattle.text.specs.Columns.{columns, columns_for};
ghost use Rattle.field_numbers.specs.Read.{before_spaces, is, signed, ranged, number_in, signed_ranged, signed_in};
ghost use Rattle.field_numbers.specs.SignSize.{size_in, with_sign, sized_from, sized_in, LineEnd, ShortNumber};

use field_numbers::{NumberFault, SignedSize};

// Column e, or the column after the line's last if that comes before.
fn line_end(line: &[u8], e: usize) -> usize
    requires { 1 ≤ e }
    ensures line_end { LineEnd line.now e result }
    ensures upper_bound { (result ≤ e) × (result ≤ length line.now + 1) }
{
    let last = e - 1;
    if line.len() < last {
        return line.len() + 1;
    }
    e
}

// The column after the last one that is no space, or i: columns i to e - 1 are looked at, all of which the line has.
#[tactic(auto, using(field_numbers::proofs::Fields::shedding_laws))]
fn inner_ink_end(line: &[u8], i: usize, e: usize) -> usize
    requires { (1 ≤ i) × (e ≤ length line.now + 1) }
    ensures i_value { before_spaces (columns_for line.now i (e - i)) ≡ columns_for line.now i (result - i) }
    ensures lower_bound { (i ≤ result) × (result - i ≤ e - i) }
{
    for z in (i..e).rev() {
        if text::inner_column(line, z) != 32 {
            return z + 1;
        }
    }
    i
}

// The digits in columns i to e - 1, all of which the line has, with the sign that stands before them.
fn sized_digits(line: &[u8], i: usize, e: usize, minus: bool) -> Option<SignedSize>
    requires { (1 ≤ i) × (i ≤ e) × (e ≤ i + 9) × (e ≤ length line.now + 1) }
    ensures { result ≡ with_sign minus (size_in (columns_for line.now i (e - i))) }
{
    let size = field_numbers::inner_digits(line, i, e)?;
    Some(SignedSize { minus, size })
}

// The same where a sign may stand in column i.
fn signed_digits(line: &[u8], i: usize, e: usize) -> Option<SignedSize>
    requires { (1 ≤ i) × (i < e) × (e ≤ i + 9) × (e ≤ length line.now + 1) }
    ensures { result ≡ sized_from true (columns_for line.now i (e - i)) }
{
    let b = text::inner_column(line, i);
    if b == 45 {
        return sized_digits(line, i + 1, e, true);
    }
    if b == 43 {
        return sized_digits(line, i + 1, e, false);
    }
    sized_digits(line, i, e, false)
}

// The integer field in columns i to j, without the spaces on both sides.
fn sized(line: &[u8], i: usize, j: usize, negatives: bool) -> Option<SignedSize>
    requires { (1 ≤ i) × (i ≤ j + 1) × (j ≤ 1000) × (j + 1 ≤ i + 9) }
    ensures { result ≡ sized_in negatives (columns line.now i j) }
{
    let e = line_end(line, j + 1);
    let z = inner_ink_end(line, i, e);
    if z <= i {
        return Some(SignedSize {
            minus: false,
            size: 0,
        });
    }
    let a = field_numbers::inner_spaces_end(line, i, z);
    if negatives {
        return signed_digits(line, a, z);
    }
    sized_digits(line, a, z, false)
}

fn within(k: u32, least: u32, most: u32) -> Result<u32, NumberFault>
    ensures { result ≡ ranged least most (is (pos k)) }
{
    if k < least {
        return Err(NumberFault::Outside);
    }
    if most < k {
        return Err(NumberFault::Outside);
    }
    Ok(k)
}

// The number of the usual field, spaces and then one digit or two in columns i to i + 2; 100 for any other.
fn short_number(line: &[u8], i: usize) -> u32
    requires { (1 ≤ i) × (i ≤ 1000) }
    ensures { ShortNumber line.now i result }
{
    if line.len() < i + 2 {
        return 100;
    }
    if line[i - 1] != 32 {
        return 100;
    }
    let c = line[i + 1];
    if c < 48 {
        return 100;
    }
    if 57 < c {
        return 100;
    }
    let b = line[i];
    if b == 32 {
        return (c - 48) as u32;
    }
    if b < 48 {
        return 100;
    }
    if 57 < b {
        return 100;
    }
    (b - 48) as u32 * 10 + (c - 48) as u32
}

// The number in columns i to j, of a range without negatives. Any other field than the usual is asked for at two places, so that the
// compiler leaves its reading out of line and puts this function in place at each field of a line.
pub fn number(line: &[u8], i: usize, j: usize, least: u32, most: u32) -> Result<u32, NumberFault>
    requires { (1 ≤ i) × (i ≤ j + 1) × (j ≤ 1000) × (j + 1 ≤ i + 9) }
    ensures { result ≡ number_in least most (columns line.now i j) }
{
    if j == i + 2 {
        let k = short_number(line, i);
        if k <= 99 {
            return within(k, least, most);
        }
        return any_number(line, i, j, least, most);
    }
    any_number(line, i, j, least, most)
}

fn any_number(line: &[u8], i: usize, j: usize, least: u32, most: u32) -> Result<u32, NumberFault>
    requires { (1 ≤ i) × (i ≤ j + 1) × (j ≤ 1000) × (j + 1 ≤ i + 9) }
    ensures { result ≡ number_in least most (columns line.now i j) }
{
    match sized(line, i, j, false) {
        Some(found) => within(found.size, least, most),
        None => Err(NumberFault::Malformed),
    }
}

fn between(minus: bool, k: u32, below: u32, above: u32) -> Result<i32, NumberFault>
    requires { k < 1000000000 }
    ensures { result ≡ signed_ranged below above (is (signed minus k)) }
{
    if minus {
        if below < k {
            return Err(NumberFault::Outside);
        }
        return Ok(field_numbers::with_sign(true, k));
    }
    if above < k {
        return Err(NumberFault::Outside);
    }
    Ok(field_numbers::with_sign(false, k))
}

// The number in columns i to j, of a range with negatives.
pub fn signed_number(
    line: &[u8],
    i: usize,
    j: usize,
    below: u32,
    above: u32,
) -> Result<i32, NumberFault>
    requires { (1 ≤ i) × (i ≤ j + 1) × (j ≤ 1000) × (j + 1 ≤ i + 9) }
    ensures { result ≡ signed_in below above (columns line.now i j) }
{
    if j == i + 2 {
        let k = short_number(line, i);
        if k <= 99 {
            return between(false, k, below, above);
        }
    }
    any_signed(line, i, j, below, above)
}

fn any_signed(line: &[u8], i: usize, j: usize, below: u32, above: u32) -> Result<i32, NumberFault>
    requires { (1 ≤ i) × (i ≤ j + 1) × (j ≤ 1000) × (j + 1 ≤ i + 9) }
    ensures { result ≡ signed_in below above (columns line.now i j) }
{
    match sized(line, i, j, true) {
        Some(found) => between(found.minus, found.size, below, above),
        None => Err(NumberFault::Malformed),
    }
}
