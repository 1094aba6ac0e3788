// A pair of atoms as one number, and the search for it among the pairs before.
#![tactic(auto)]

ghost use Rattle.std.specs.Prelude.{◌≡◌, ◌+◌, ◌≤◌, length};
ghost use Rattle.rules.specs.Record.{limit};
ghost use Rattle.reader_pairs.specs.Keys.{pair_key, Searching, Missed};

// Keys of pairs: one for each bond.
pub const KEYS: usize = rules::LIMIT;

// A pair of atoms as one number, the lower one first: 1-2 is the pair 2-1.
pub fn pair_key(first: u32, second: u32) -> u32
    requires { (first ≤ 999) × (second ≤ 999) }
    ensures { result ≡ pair_key first second }
{
    if first < second {
        return 1024 * first + second;
    }
    1024 * second + first
}

// Not 0 where one of the eight keys from `at` on is this one. A block is never left early: so it compiles to one vector test.
fn key_in_block(keys: &[u32; KEYS], at: usize, key: u32) -> usize
    requires { (at + 8 ≤ limit) × (length keys.now ≡ limit) }
    ensures { result ≡ 0 → Missed keys.now key at (at + 8) }
{
    let mut w: usize = 0;
    for k in 0..8 {
        if keys[at + k] == key {
            w = 1;
        }
    }
    w
}

// The same of thirty-two keys.
fn key_in_wide(keys: &[u32; KEYS], at: usize, key: u32) -> usize
    requires { (at + 32 ≤ limit) × (length keys.now ≡ limit) }
    ensures { result ≡ 0 → Missed keys.now key at (at + 32) }
{
    let mut w: usize = 0;
    for k in 0..32 {
        if keys[at + k] == key {
            w = 1;
        }
    }
    w
}

// A place before which the key is none of the first `count`: wide blocks without it are passed.
fn far_key(keys: &[u32; KEYS], count: usize, key: u32) -> usize
    requires { (count ≤ limit) × (length keys.now ≡ limit) }
    ensures { Searching keys.now key count result }
{
    let mut i: usize = 0;
    // A `for` over blocks costs 0.2 instructions a byte of `records canon`: it makes out each place from a number.
    while count - i >= 32 {
        if key_in_wide(keys, i, key) != 0 {
            return i;
        }
        i += 32;
    }
    i
}

// A place before which the key is none of the first `count`: wide blocks and then blocks without it are passed.
pub fn near_key(keys: &[u32; KEYS], count: usize, key: u32) -> usize
    requires { (count ≤ limit) × (length keys.now ≡ limit) }
    ensures { Searching keys.now key count result }
{
    let mut i = far_key(keys, count, key);
    // A `for` over blocks costs 0.2 instructions a byte of `records canon`: it makes out each place from a number.
    while count - i >= 8 {
        if key_in_block(keys, i, key) != 0 {
            return i;
        }
        i += 8;
    }
    i
}
