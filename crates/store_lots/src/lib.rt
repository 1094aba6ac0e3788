// The lots in lent memory: the search for a key, a lot's paper, a new key.
#![tactic(auto)]

ghost use Rattle.std.specs.Prelude.{◌≡◌, false, ◌+◌, ◌-◌, ◌≤◌, ◌<◌};
ghost use Rattle.store_lots.specs.Memory.{same_key_at, place_from, paper_at, put_key};
ghost use Rattle.store_lots.specs.Looking.{Missed};

use store_event::Key;

pub const LOTS: usize = 512;

// Three words a lot: suppliers, then the first halves of the lots' bytes, then the second.
pub const KEYS: usize = 1536;

// The lot at this place has this key.
fn is_lot(keys: &[u32; KEYS], i: usize, key: Key) -> bool
    requires { i < 512 }
    ensures { result ≡ same_key_at keys.now key i }
{
    if keys[1024 + i] != key.second {
        return false;
    }
    if keys[512 + i] != key.first {
        return false;
    }
    keys[i] == key.supplier
}

// The first place of this key from `from` on; `to` where it is none of those.
#[tactic(auto, using(crate::specs::Looking::looking_laws))]
fn find_in(keys: &[u32; KEYS], from: usize, to: usize, key: Key) -> usize
    requires { (from ≤ to) × (to ≤ 512) }
    ensures { result ≡ place_from keys.now key from (to - from) }
{
    for i in from..to {
        if is_lot(keys, i, key) {
            return i;
        }
    }
    to
}

// Whether one of the sixteen words from `i` on is this one. A block is never left early: so it compiles to one vector
// test.
fn word_in_block(keys: &[u32; KEYS], i: usize, word: u32) -> bool
    requires { i + 16 ≤ 1536 }
    ensures { result ≡ false → Missed keys.now word i (i + 16) }
{
    let mut any = false;
    for k in 0..16 {
        any |= keys[i + k] == word;
    }
    any
}

// The first place of this key among sixteen; the place after them where it is none of those.
fn find_block(keys: &[u32; KEYS], i: usize, key: Key) -> usize
    requires { i + 16 ≤ 512 }
    ensures { result ≡ place_from keys.now key i 16 }
{
    if !word_in_block(keys, 1024 + i, key.second) {
        return i + 16;
    }
    if !word_in_block(keys, 512 + i, key.first) {
        return i + 16;
    }
    find_in(keys, i, i + 16, key)
}

// The place of this key, by blocks; `lots` where no lot has it.
pub fn find_lot(keys: &[u32; KEYS], lots: usize, key: Key) -> usize
    requires { lots ≤ 512 }
    ensures { result ≡ place_from keys.now key 0 lots }
{
    let blocks = lots / 16;
    for b in 0..blocks {
        let i = 16 * b;
        let lot = find_block(keys, i, key);
        if lot < i + 16 {
            return lot;
        }
    }
    find_in(keys, 16 * blocks, lots, key)
}

// 0 for a lot never received.
pub fn paper_at(papers: &[u32; LOTS], lot: usize, lots: usize) -> u32
    requires { lots ≤ 512 }
    ensures { result ≡ paper_at papers.now lot lots }
{
    if lot < lots {
        return papers[lot];
    }
    0
}

// A key at a lot's place.
pub fn put_key(keys: &mut [u32; KEYS], i: usize, key: Key)
    requires { i < 512 }
    ensures { keys.new ≡ put_key keys.old i key }
{
    keys[i] = key.supplier;
    keys[512 + i] = key.first;
    keys[1024 + i] = key.second;
}
