// A lent list of tally records: a name found, a tally inserted, a record added. Each says of the list what the flat layer says of its arrays.
#![tactic(auto)]

ghost use Rattle.std.specs.Prelude.{◌≡◌, ◌-◌, ◌<◌, ◌≤◌, length, set, take, not, position};
ghost use Rattle.tally_rules.specs.Tally.{order, fresh, one_more, added, longest, most_records};
ghost use Rattle.tally_flat.specs.Flat.{now_of, laid_by};
ghost use Rattle.tally_good.specs.Judge.{is_before as comesBefore};
ghost use Rattle.tally_list.specs.Tallies.{is_before, place_from, shifted};
ghost use Rattle.tally_list.specs.Change.{same_as, within, is_here, change_of, Ready, ListReady};

use tally_flat::Added;
use tally_rules::{Order, SUPPLIER, SUPPLIERS, Tally};

// How a list is to change at a place: the tallies from there up to `end` move one place up, then this tally stands there.
#[derive(Drop)]
pub struct Change {
    pub end: usize,
    pub tally: Tally,
    pub now: Added,
}

// The first n of these bytes against a name, in byte order: all of them where they are fewer.
fn order_front(bytes: &[u8], n: usize, name: &[u8]) -> Order
    ensures { result ≡ order (take n bytes.now) name.now }
{
    if bytes.len() <= n {
        return tally_flat::order_of(bytes, name);
    }
    tally_flat::order_of(&bytes[..n], name)
}

fn is_before(o: Order) -> bool
    ensures { result ≡ comesBefore o }
{
    match o {
        Order::Before => true,
        Order::Same => false,
        Order::After => false,
    }
}

// Whether a tally's name comes before this one, in byte order.
pub fn before(t: Tally, name: &[u8]) -> bool
    ensures { result ≡ is_before t name.now }
{
    let bytes = t.name;
    is_before(order_front(&bytes, t.length as usize, name))
}

// The first of these tallies whose name does not come before this one.
fn first_not_before(list: &[Tally], name: &[u8]) -> Option<usize>
    ensures { result ≡ position (λ t. not (is_before t name.now)) list.now }
{
    list.iter().position(|t| !before(*t, name))
}

// The first of the first `used` tallies whose name does not come before this one; `used` if all do.
pub fn find(list: &[Tally], used: usize, name: &[u8]) -> usize
    requires { used ≤ length list.now }
    ensures { result ≡ place_from name.now 0 (take used list.now) }
{
    first_not_before(&list[..used], name).unwrap_or(used)
}

// A new tally at its place: those from there on move one place up first.
pub fn insert_tally(list: &mut [Tally], from: usize, used: usize, t: Tally)
    requires { (from ≤ used) × (used < length list.old) }
    ensures { list.new ≡ set (shifted (used - from) from list.old) from t }
{
    for k in (from..used).rev() {
        list[k + 1] = list[k];
    }
    list[from] = t;
}

// The place, or the last that a list has.
fn place_within(at: usize) -> usize
    ensures { result ≡ within at }
{
    if at < SUPPLIERS {
        return at;
    }
    SUPPLIERS - 1
}

fn is_same(o: Order) -> bool
    ensures { result ≡ same_as o }
{
    match o {
        Order::Before => false,
        Order::Same => true,
        Order::After => false,
    }
}

// Whether the tally at the place found is in use and has this name.
fn is_here(t: Tally, at: usize, used: usize, name: &[u8]) -> bool
    ensures { result ≡ is_here t at used name.now }
{
    if used <= at {
        return false;
    }
    let bytes = t.name;
    is_same(order_front(&bytes, t.length as usize, name))
}

// One record more.
fn one_more(t: Tally) -> Tally
    requires { t.count ≤ most_records }
    ensures { result ≡ one_more t }
{
    let bytes = t.name;
    Tally {
        name: bytes,
        length: t.length,
        count: t.count + 1,
    }
}

// The first record of a supplier: zeros behind its name.
fn new_tally(name: &[u8]) -> Tally
    requires { length name.now ≤ longest }
    ensures { result ≡ fresh name.now }
{
    let mut bytes: [u8; SUPPLIER] = [0; SUPPLIER];
    bytes[..name.len()].copy_from_slice(name);
    Tally {
        name: bytes,
        length: name.len() as u32,
        count: 1,
    }
}

// What is to change where a search has ended, and a tally stands there or at the last place.
fn change_at(t: Tally, at: usize, used: usize, name: &[u8]) -> Change
    requires { Ready t at used name.now }
    ensures { result ≡ change_of t at used name.now }
{
    if is_here(t, at, used, name) {
        return Change {
            end: at,
            tally: one_more(t),
            now: Added::Now(used),
        };
    }
    if SUPPLIERS <= used {
        return Change {
            end: place_within(at),
            tally: t,
            now: Added::Full,
        };
    }
    Change {
        end: used,
        tally: new_tally(name),
        now: Added::Now(used + 1),
    }
}

// One record more of this supplier.
pub fn add(list: &mut [Tally], used: usize, name: &[u8]) -> Added
    requires { ListReady list.old used name.now }
    ensures { (result ≡ now_of (added name.now (take used list.old))) × (list.new ≡ laid_by (added name.now (take used list.old)) list.old) }
{
    let at = find(list, used, name);
    let place = place_within(at);
    let t = list[place];
    let c = change_at(t, at, used, name);
    insert_tally(list, place, c.end, c.tally);
    c.now
}
