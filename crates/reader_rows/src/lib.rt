// Rows of bits that say which atoms are bonded, lent to the record reader. Rows of no words are none: then the list is searched.
#![tactic(auto)]

ghost use Rattle.std.specs.Prelude.{◌≡◌, ◌≤◌, length};
ghost use Rattle.reader_pairs.specs.Keys.{Searching};
ghost use Rattle.reader_rows.specs.Says.{row_places, emptied};
ghost use Rattle.reader_rows.specs.Marked.{with_key};
ghost use Rattle.reader_rows.specs.Rowed.{Fitting, Asking, new_in};

use reader_pairs::KEYS;

// Words of as many rows as a record may have atoms.
pub const ROWS: usize = 16 * rules::LIMIT;

// Rows that say nothing.
pub fn clear(rows: &mut [u64])
    requires { row_places ≤ length rows.old }
    ensures { rows.new ≡ emptied rows.old }
{
    rows[..ROWS].fill(0);
}

// Whether there are rows that don't say the pair.
fn new_in(rows: &[u64], key: u32) -> bool
    requires { Fitting rows.now key }
    ensures { result ≡ new_in rows.now key }
{
    if rows.len() == 0 {
        return false;
    }
    let a = (key / 1024) as usize;
    let b = (key % 1024) as usize;
    if sets_words::has_in_row(rows, a, b) {
        return false;
    }
    true
}

// A place before which the key is none of the first `count`: all of them where the rows don't say the pair.
pub fn first_key(rows: &[u64], keys: &[u32; KEYS], count: usize, key: u32) -> usize
    requires { Asking rows.now keys.now count key }
    ensures { Searching keys.now key count result }
{
    if new_in(rows, key) {
        return count;
    }
    reader_pairs::near_key(keys, count, key)
}

// Enters a pair in the rows of both its atoms.
pub fn mark(rows: &mut [u64], key: u32)
    requires { Fitting rows.old key }
    ensures { rows.new ≡ with_key rows.old key }
{
    if rows.len() == 0 {
        return;
    }
    let a = (key / 1024) as usize;
    let b = (key % 1024) as usize;
    sets_words::put_in_row(rows, a, b);
    sets_words::put_in_row(rows, b, a);
}
