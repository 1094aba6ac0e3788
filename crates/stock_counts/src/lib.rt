// The last count of each lot, kept in lent memory.
#![tactic(auto)]

ghost use Rattle.std.specs.Prelude.{◌≡◌, ◌+◌, ◌<◌};
ghost use Rattle.stock_counts.specs.Promise.{Promise};

use store_event::Key;
use store_lots::{KEYS, LOTS};

// Two numbers a lot: the shelf's figure and one, 0 where there was no count; and the paper figure at that count.
pub const COUNTS: usize = 1024;

fn wide(shelf: u16) -> u32
    ensures value { result ≡ shelf }
    ensures upper_bound { result < 65536 }
{
    shelf as u32
}

// A count of a key, noted where the store has it among so many lots.
pub fn note(
    key: Key,
    paper: u32,
    shelf: u16,
    keys: &[u32; KEYS],
    lots: usize,
    counts: &mut [u32; COUNTS],
)
    ensures { Promise key paper shelf keys.now lots counts.old counts.new }
{
    if LOTS < lots {
        return;
    }
    let lot = store_lots::find_lot(keys, lots, key);
    if lots <= lot {
        return;
    }
    counts[lot] = wide(shelf) + 1;
    counts[512 + lot] = paper;
}
