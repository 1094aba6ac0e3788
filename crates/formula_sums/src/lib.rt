// The counts of a formula, multiplied out into a lent table with a place for each element. A count stays at 10,000 once it is there: that is too many anyway.
#![tactic(auto)]

ghost use Rattle.std.specs.Prelude.{◌≡◌, true, ◌+◌, ◌-◌, ◌*◌, ◌≤◌, ◌<◌, length, get_or, set};
ghost use Rattle.formula_rules.specs.Parse.{units_of, group_of, element_at};
ghost use Rattle.formula_rules.specs.Sums.{sat, Below, read_units, read_unit, added_units, added_unit};
ghost use Rattle.formula_rules.specs.Judged.{empty, crowded, verdict_of, shallow_of, counts_of, number_of};
ghost use Rattle.formula_sums.specs.Values.{count_value, symbol_count};

// Places for elements 1 to 118, and place 0.
pub const PLACES: usize = 119;

// Groups may nest so deep.
const DEEPEST: usize = 8;

// An element may be named so often.
const MOST: u32 = 9999;

// At most 10,000.
fn capped(n: u32) -> u32
    ensures { result ≡ sat n }
{
    if n <= 10000 {
        return n;
    }
    10000
}

// A number so many times.
fn times_count(times: u32, count: u32) -> u32
    requires { (times ≤ 10000) × (count ≤ 999) }
    ensures { result ≡ sat (times * count) }
{
    capped(times * count)
}

// So many more of one element.
pub fn add_at(counts: &mut [u32; PLACES], at: usize, n: u32)
    requires { (at < 119) × (n ≤ 10000) × (get_or counts.old at 0 ≤ 10000) }
    ensures { counts.new ≡ set counts.old at (sat (get_or counts.old at 0 + n)) }
{
    let sum = capped(counts[at] + n);
    counts[at] = sum;
}

// What a digit stands for.
fn digit(b: u8) -> u32
    requires { (48 ≤ b) × (b ≤ 57) }
    ensures { result ≡ b - 48 }
{
    (b - 48) as u32
}

// The place of the element whose symbol starts here.
fn place(s: &[u8], at: usize) -> usize
    requires { at < length s.now }
    ensures { result ≡ element_at s.now at }
{
    formula_text::element_at(s, at) as usize
}

// The count that stands here, where one may stand.
fn count_value(s: &[u8], at: usize) -> u32
    requires { at ≤ length s.now }
    ensures { result ≡ count_value s.now at }
{
    let a = formula_text::byte_at(s, at);
    if formula_text::in_range(a, 48, 57) {
        let b = formula_text::byte_at(s, at + 1);
        if formula_text::in_range(b, 48, 57) {
            let c = formula_text::byte_at(s, at + 2);
            if formula_text::in_range(c, 48, 57) {
                return 100 * digit(a) + 10 * digit(b) + digit(c);
            }
            return 10 * digit(a) + digit(b);
        }
        return digit(a);
    }
    1
}

// The count of the symbol that starts here.
fn symbol_count(s: &[u8], at: usize) -> u32
    requires { at < length s.now }
    ensures { result ≡ symbol_count s.now at }
{
    let e = formula_text::symbol_end(s, at);
    count_value(s, e)
}

// Units that were read, so many times.
#[cycle(add_group_add_units)]
fn add_units(s: &[u8], at: usize, depth: usize, times: u32, counts: &mut [u32; PLACES])
    requires { (at ≤ length s.now) × (read_units (units_of s.now depth at) ≡ true) × (times ≤ 10000) × Below counts.old }
    ensures { counts.new ≡ added_units times (units_of s.now depth at) counts.old }
{
    let b = formula_text::byte_at(s, at);
    if b == 40 {
        let g = formula_text::group(s, at + 1, depth);
        let Some(n) = g else {
            return;
        };
        add_group(s, at + 1, depth, times, counts);
        add_units(s, n, depth, times, counts);
        return;
    }
    if formula_text::in_range(b, 65, 90) {
        let y = formula_text::symbol_at(s, at);
        let Some(n) = y else {
            return;
        };
        let c = symbol_count(s, at);
        add_at(counts, place(s, at), times_count(times, c));
        add_units(s, n, depth, times, counts);
        return;
    }
}

// A group that was read, so many times.
#[cycle(add_group_add_units)]
fn add_group(s: &[u8], at: usize, depth: usize, times: u32, counts: &mut [u32; PLACES])
    requires { (at ≤ length s.now) × (read_unit (group_of s.now depth at) ≡ true) × (times ≤ 10000) × Below counts.old }
    ensures { counts.new ≡ added_unit times (group_of s.now depth at) counts.old }
{
    if depth == 0 {
        return;
    }
    let u = formula_text::units(s, at, depth - 1);
    let Some(e) = u else {
        return;
    };
    let c = count_value(s, e + 1);
    add_units(s, at, depth - 1, times_count(times, c), counts);
}

// Whether some element is named too often.
fn too_many(counts: &[u32; PLACES]) -> bool
    ensures { result ≡ crowded counts.now 1 118 }
{
    counts[1..].iter().any(|count| *count > MOST)
}

// A formula whose depth is not judged yet.
fn count_shallow(line: &[u8], counts: &mut [u32; PLACES]) -> u8
    requires { counts.old ≡ empty }
    ensures value { result ≡ number_of (shallow_of line.now) }
    ensures counts_after { counts.new ≡ counts_of line.now }
{
    if formula_text::is_formula(line, DEEPEST) {
        add_units(line, 0, DEEPEST, 1, counts);
        if too_many(counts) {
            return 33;
        }
        return 0;
    }
    32
}

// What a line is worth: 0, or the number of its refusal. The table then has the counts of a formula that nests deep enough to be counted, and zeros after 31 and 32.
pub fn count_formula(line: &[u8], counts: &mut [u32; PLACES]) -> u8
    ensures value { result ≡ number_of (verdict_of line.now) }
    ensures counts_after { counts.new ≡ counts_of line.now }
{
    *counts = [0u32; PLACES];
    if formula_text::is_formula(line, line.len()) {
        return count_shallow(line, counts);
    }
    31
}
