// Integer fields of a line, written right-aligned.
#![tactic(auto)]

ghost use Rattle.std.specs.Prelude.{◌≡◌, true, ◌+◌, ◌-◌, ◌≤◌, ◌<◌, length};
ghost use Rattle.std.proofs.lemmas.List.Edits.{sets};
ghost use Rattle.field_numbers.specs.Write.{sized_text, number_text, signed_text, first_digit};

// A number right-aligned in `width` columns from position `at` on, with a `-` or without.
#[tactic(auto, using(crate::proofs::Texts::writing_laws))]
pub fn put_sized(out: &mut [u8], at: usize, width: usize, minus: bool, k: u32)
    requires { at + width ≤ length out.old }
    ensures { out.new ≡ sets out.old at (sized_text width minus k) }
{
    let mut q = k;
    let mut more = true;
    let mut sign = minus;
    for i in (at..at + width).rev() {
        if more {
            out[i] = 48 + (q % 10) as u8;
            more = 9 < q;
            q = q / 10;
        } else {
            if sign {
                out[i] = 45;
                sign = false;
            } else {
                out[i] = 32;
            }
        }
    }
}

// Two spaces and a digit.
fn put_digit(out: &mut [u8], at: usize, k: u32)
    requires { (at + 3 ≤ length out.old) × (k ≤ 9) }
    ensures { out.new ≡ sets out.old at (number_text 3 k) }
{
    let digit = 48 + k as u8;
    out[at] = 32;
    out[at + 1] = 32;
    out[at + 2] = digit;
}

// A first digit: a space for zero.
fn first_digit(k: u32) -> u8
    requires { k ≤ 9 }
    ensures { result ≡ first_digit k }
{
    if k < 1 {
        return 32;
    }
    48 + k as u8
}

// Two digits or three in three columns.
fn put_digits(out: &mut [u8], at: usize, k: u32)
    requires { (at + 3 ≤ length out.old) × ((9 < k) × (k ≤ 999)) }
    ensures { out.new ≡ sets out.old at (number_text 3 k) }
{
    let hundreds = k / 100;
    let tens = k / 10;
    let first = first_digit(hundreds);
    let second = 48 + (tens - 10 * hundreds) as u8;
    let third = 48 + (k - 10 * tens) as u8;
    out[at] = first;
    out[at + 1] = second;
    out[at + 2] = third;
}

// A number without negatives, right-aligned in `width` columns from position `at` on: most often a short one in three.
pub fn put_number(out: &mut [u8], at: usize, width: usize, k: u32)
    requires { at + width ≤ length out.old }
    ensures { out.new ≡ sets out.old at (number_text width k) }
{
    if width == 3 {
        if k <= 9 {
            put_digit(out, at, k);
            return;
        }
        if k <= 999 {
            put_digits(out, at, k);
            return;
        }
    }
    put_sized(out, at, width, false, k);
}

// A number with its sign. `-1 - v` is one less than the size of a negative v, so the lowest number is written too.
pub fn put_signed(out: &mut [u8], at: usize, width: usize, v: i32)
    requires { at + width ≤ length out.old }
    ensures { out.new ≡ sets out.old at (signed_text width v) }
{
    if v < 0 {
        put_sized(out, at, width, true, (-1 - v) as u32 + 1);
    } else {
        put_sized(out, at, width, false, v as u32);
    }
}
