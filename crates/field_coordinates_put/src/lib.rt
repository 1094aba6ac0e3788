// Coordinates, written in their columns.
#![tactic(auto)]

ghost use Rattle.std.specs.Prelude.{◌≡◌, ◌+◌, ◌-◌, ◌≤◌, length};
ghost use Rattle.std.proofs.lemmas.List.Edits.{sets};
ghost use Rattle.field_numbers.specs.Write.{sized_text};
ghost use Rattle.field_coordinates.specs.Write.{sign_column, after_point, point_text, coordinate_text};

// The point and the last four digits of k. Two digits are made one number, the first below the second, so that they are stored at once.
fn put_after(out: &mut [u8], at: usize, k: u32)
    requires { at + 5 ≤ length out.old }
    ensures { out.new ≡ sets out.old at (after_point k) }
{
    let part = k % 10000;
    let high = part / 100;
    let low = part % 100;
    let first = 12336 + 256 * high - 2559 * (high / 10);
    let last = 12336 + 256 * low - 2559 * (low / 10);
    out[at] = 46;
    out[at + 1] = (first % 256) as u8;
    out[at + 2] = (first / 256) as u8;
    out[at + 3] = (last % 256) as u8;
    out[at + 4] = (last / 256) as u8;
}

fn sign_column(minus: bool) -> u8
    ensures { result ≡ sign_column minus }
{
    if minus { 45 } else { 32 }
}

// One digit in five columns, with a `-` or without.
fn put_digit(out: &mut [u8], at: usize, minus: bool, k: u32)
    requires { (at + 5 ≤ length out.old) × (k ≤ 9) }
    ensures { out.new ≡ sets out.old at (sized_text 5 minus k) }
{
    let sign = sign_column(minus);
    let digit = 48 + k as u8;
    out[at] = 32;
    out[at + 1] = 32;
    out[at + 2] = 32;
    out[at + 3] = sign;
    out[at + 4] = digit;
}

// The digits before the point: most often one.
fn put_before(out: &mut [u8], at: usize, minus: bool, k: u32)
    requires { at + 5 ≤ length out.old }
    ensures { out.new ≡ sets out.old at (sized_text 5 minus k) }
{
    if k <= 9 {
        put_digit(out, at, minus, k);
        return;
    }
    field_numbers_put::put_sized(out, at, 5, minus, k);
}

// k ten-thousandths in ten columns from position `at` on, with a `-` or without.
fn put_point(out: &mut [u8], at: usize, minus: bool, k: u32)
    requires { at + 10 ≤ length out.old }
    ensures { out.new ≡ sets out.old at (point_text minus k) }
{
    put_before(out, at, minus, k / 10000);
    put_after(out, at + 5, k);
}

// The coordinate v in ten columns from position `at` on.
pub fn put_coordinate(out: &mut [u8], at: usize, v: i32)
    requires { at + 10 ≤ length out.old }
    ensures { out.new ≡ sets out.old at (coordinate_text v) }
{
    if v < 0 {
        put_point(out, at, true, (-1 - v) as u32 + 1);
    } else {
        put_point(out, at, false, v as u32);
    }
}
