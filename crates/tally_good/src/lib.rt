// Whether a list of tallies can be added to: few enough, names that fit and rise, counts that add up to the total.
#![tactic(auto)]

ghost use Rattle.std.specs.Prelude.{◌≡◌, ◌+◌, ◌≤◌, ◌<◌, eqb, length};
ghost use Rattle.tally_rules.specs.Tally.{order};
ghost use Rattle.tally_flat.specs.Flat.{memory, Sized, name_at, names_from, Looked};
ghost use Rattle.tally_good.specs.Judge.{book_of, short_from, rising_names, sum_from, names_good, good_book};

use tally_rules::{Order, RECORDS, SUPPLIER, SUPPLIERS, Totals};

// Each of the lengths in use is that of a name that fits its place.
#[tactic(auto, using(crate::specs::Steps::short_laws))]
fn short_names(lengths: &[u32], used: usize) -> bool
    requires { used ≤ length lengths.now }
    ensures { result ≡ short_from lengths.now 0 used }
{
    for i in 0..used {
        if (SUPPLIER as u32) < lengths[i] {
            return false;
        }
    }
    true
}

// How the name of a tally stands to that of the next.
fn order_at(names: &[u8], lengths: &[u32], used: usize, i: usize) -> Order
    requires { Looked names.now lengths.now used × (i + 1 < used) }
    ensures { result ≡ order (name_at names.now lengths.now i) (name_at names.now lengths.now (i + 1)) }
{
    let from = SUPPLIER * i;
    let to = from + lengths[i] as usize;
    let next = SUPPLIER * (i + 1);
    let end = next + lengths[i + 1] as usize;
    tally_flat::order_of(&names[from..to], &names[next..end])
}

// Each name comes before the next.
#[tactic(auto, using(crate::specs::Steps::rising_laws))]
fn rising_names(names: &[u8], lengths: &[u32], used: usize) -> bool
    requires { Looked names.now lengths.now used }
    ensures { result ≡ rising_names (names_from names.now lengths.now 0 used) }
{
    for i in 0..used.saturating_sub(1) {
        match order_at(names, lengths, used, i) {
            Order::Before => {}
            Order::Same => {
                return false;
            }
            Order::After => {
                return false;
            }
        }
    }
    true
}

// The counts in use and the missing records make the total.
#[tactic(auto, using(crate::specs::Steps::adding_laws))]
fn adds_up(counts: &[u32], used: usize, missing: u32, total: u32) -> bool
    requires { used ≤ length counts.now }
    ensures { result ≡ eqb (sum_from counts.now 0 used + missing) total }
{
    if total < missing {
        return false;
    }
    let mut left = total - missing;
    for i in 0..used {
        let k = counts[i];
        if left < k {
            return false;
        }
        left -= k;
    }
    left == 0
}

// The names, and then the sum, of a list whose lengths fit.
fn good_names(names: &[u8], lengths: &[u32], counts: &[u32], totals: Totals) -> bool
    requires { Sized (memory names.now lengths.now counts.now) × Looked names.now lengths.now totals.entries }
    ensures { result ≡ names_good (memory names.now lengths.now counts.now) totals }
{
    if rising_names(names, lengths, totals.entries as usize) {
        return adds_up(
            counts,
            totals.entries as usize,
            totals.missing,
            totals.total,
        );
    }
    false
}

// The whole list.
pub fn good_list(names: &[u8], lengths: &[u32], counts: &[u32], totals: Totals) -> bool
    requires { Sized (memory names.now lengths.now counts.now) }
    ensures { result ≡ good_book (book_of (memory names.now lengths.now counts.now) totals) }
{
    if RECORDS < totals.total {
        return false;
    }
    if (SUPPLIERS as u32) < totals.entries {
        return false;
    }
    if short_names(lengths, totals.entries as usize) {
        return good_names(names, lengths, counts, totals);
    }
    false
}
