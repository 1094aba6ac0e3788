// Formulas recognised in a text: units call groups, and groups call units.
#![tactic(auto)]

ghost use Rattle.std.specs.Prelude.{◌≡◌, ◌≤◌, ◌<◌, length};
ghost use Rattle.formula_rules.specs.Formula.{byte_at, between};
ghost use Rattle.formula_rules.specs.Element.{element_of};
ghost use Rattle.formula_rules.specs.Parse.{count_at, symbol_end, element_at, symbol_at, group_of, units_of, formula_of};
ghost use Rattle.formula_text.specs.Told.{told_count, told_unit, told_units};

// The symbols that are elements are the first of all symbols.
pub const ELEMENTS: u32 = 118;

// The byte at a position; 0 past the end.
pub fn byte_at(s: &[u8], i: usize) -> u8
    ensures { result ≡ byte_at s.now i }
{
    if i < s.len() {
        return s[i];
    }
    0
}

pub fn in_range(b: u8, low: u8, high: u8) -> bool
    ensures { result ≡ between low high b }
{
    if b < low {
        return false;
    }
    b <= high
}

// A count from 2 to 999 without leading zeros, or none.
fn count_at(s: &[u8], at: usize) -> Option<usize>
    requires { at ≤ length s.now }
    ensures { result ≡ told_count (count_at s.now at) }
{
    let a = byte_at(s, at);
    if in_range(a, 48, 57) {
        if a == 48 {
            return None;
        }
        let b = byte_at(s, at + 1);
        if in_range(b, 48, 57) {
            let c = byte_at(s, at + 2);
            if in_range(c, 48, 57) {
                let d = byte_at(s, at + 3);
                if in_range(d, 48, 57) {
                    return None;
                }
                return Some(at + 3);
            }
            return Some(at + 2);
        }
        if a == 49 {
            return None;
        }
        return Some(at + 1);
    }
    Some(at)
}

// The element that two letters name, a space for the second where there is one; 0 is none.
fn element_of(first: u8, second: u8) -> u32
    ensures { result ≡ element_of first second }
{
    let letters = [first, second, b' '];
    let Some(k) = field_symbols::symbol(&letters, 1) else {
        return 0;
    };
    if k <= ELEMENTS {
        return k;
    }
    0
}

// The element whose symbol starts here.
pub fn element_at(s: &[u8], at: usize) -> u32
    requires { at < length s.now }
    ensures { result ≡ element_at s.now at }
{
    let b = byte_at(s, at + 1);
    if in_range(b, 97, 122) {
        return element_of(byte_at(s, at), b);
    }
    element_of(byte_at(s, at), b' ')
}

// Where the symbol ends that starts here.
pub fn symbol_end(s: &[u8], at: usize) -> usize
    requires { at < length s.now }
    ensures { result ≡ symbol_end s.now at }
{
    let b = byte_at(s, at + 1);
    if in_range(b, 97, 122) {
        return at + 2;
    }
    at + 1
}

// A symbol and its count, where a capital letter stands.
pub fn symbol_at(s: &[u8], at: usize) -> Option<usize>
    requires { at < length s.now }
    ensures { result ≡ told_unit (symbol_at s.now at) }
{
    let k = element_at(s, at);
    if k == 0 {
        return None;
    }
    let e = symbol_end(s, at);
    count_at(s, e)
}

// Units, as many as stand from here on, with groups nested to `depth` at most.
#[cycle(group_units)]
pub fn units(s: &[u8], at: usize, depth: usize) -> Option<usize>
    requires { at ≤ length s.now }
    ensures { result ≡ told_units (units_of s.now depth at) }
{
    let b = byte_at(s, at);
    if b == 40 {
        let g = group(s, at + 1, depth);
        let Some(n) = g else {
            return None;
        };
        return units(s, n, depth);
    }
    if in_range(b, 65, 90) {
        let y = symbol_at(s, at);
        let Some(n) = y else {
            return None;
        };
        return units(s, n, depth);
    }
    Some(at)
}

// A group after its opening parenthesis: one or more units, the closing parenthesis, its count.
#[cycle(group_units)]
pub fn group(s: &[u8], at: usize, depth: usize) -> Option<usize>
    requires { at ≤ length s.now }
    ensures { result ≡ told_unit (group_of s.now depth at) }
{
    if depth == 0 {
        return None;
    }
    let u = units(s, at, depth - 1);
    let Some(e) = u else {
        return None;
    };
    if e <= at {
        return None;
    }
    if byte_at(s, e) != 41 {
        return None;
    }
    count_at(s, e + 1)
}

// Whether the whole text is a formula nested to `depth` at most.
pub fn is_formula(s: &[u8], depth: usize) -> bool
    ensures { result ≡ formula_of s.now depth }
{
    let u = units(s, 0, depth);
    let Some(e) = u else {
        return false;
    };
    if e == 0 {
        return false;
    }
    e == s.len()
}
