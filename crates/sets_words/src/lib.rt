// A set of numbers as words of 64 bits.
#![tactic(auto)]

ghost use Rattle.std.specs.Prelude.{◌≡◌, ◌*◌, ◌^◌, ◌≤◌, ◌<◌, length};
ghost use Rattle.std.specs.Int.Count.{ones};
ghost use Rattle.sets_words.specs.Bits.{has_bit, word_with, with_bit, in_row};
ghost use Rattle.sets_words.specs.HowMany.{how_many};

// Words of one set: room for the numbers below 1024.
pub const WORDS: usize = 16;

// A word with bit k. A bit that is 0 is set by a sum.
fn with_bit(w: u64, k: usize) -> u64
    requires { k < 64 }
    ensures { result ≡ word_with w k }
{
    if (w >> k) % 2 == 1 {
        return w;
    }
    w + (1u64 << k)
}

// Whether the set has the number i.
pub fn has(words: &[u64; WORDS], i: usize) -> bool
    requires { i < 1024 }
    ensures { result ≡ has_bit words.now i }
{
    let w = words[i / 64];
    let k = i % 64;
    (w >> k) % 2 == 1
}

// Puts the number i into the set.
pub fn put(words: &mut [u64; WORDS], i: usize)
    requires { i < 1024 }
    ensures { words.new ≡ with_bit words.old i }
{
    let at = i / 64;
    let w = words[at];
    words[at] = with_bit(w, i % 64);
}

// The ones of a word.
fn ones_of(w: u64) -> u32
    ensures { (result ≡ ones w) × (w < 2 ^ 64) }
{
    u64::count_ones(w)
}

// How many numbers the set has: the ones of its words.
#[tactic(auto, using(crate::proofs::Words::sizing_laws))]
pub fn size(words: &[u64; WORDS]) -> u32
    ensures { result ≡ how_many (has_bit words.now) 1024 }
{
    let mut n: u32 = 0;
    for w in words {
        n += ones_of(*w);
    }
    n
}

// Whether the row of a has the number b; rows and their numbers count from 1.
pub fn has_in_row(rows: &[u64], a: usize, b: usize) -> bool
    requires { (1 ≤ a) × (1 ≤ b) × (b ≤ 1024) × (16 * a ≤ length rows.now) }
    ensures { result ≡ has_bit rows.now (in_row a b) }
{
    let w = rows[16 * (a - 1) + (b - 1) / 64];
    let k = (b - 1) % 64;
    (w >> k) % 2 == 1
}

// Puts the number b into the row of a.
pub fn put_in_row(rows: &mut [u64], a: usize, b: usize)
    requires { (1 ≤ a) × (1 ≤ b) × (b ≤ 1024) × (16 * a ≤ length rows.old) }
    ensures { rows.new ≡ with_bit rows.old (in_row a b) }
{
    let at = 16 * (a - 1) + (b - 1) / 64;
    let w = rows[at];
    rows[at] = with_bit(w, (b - 1) % 64);
}
