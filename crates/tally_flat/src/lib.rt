// Tallies in three flat arrays: tally i has its name at byte 24 i of the names, its length and its count at place i of the others.
#![tactic(auto)]

ghost use Rattle.std.specs.Prelude.{◌≡◌, ◌+◌, ◌*◌, ◌-◌, ◌≤◌, ◌<◌, length, get_or, set};
ghost use Rattle.tally_rules.specs.Tally.{order, longest, most_suppliers, most_records};
ghost use Rattle.tally_flat.specs.Flat.{memory, Looked, names_from, slot_from, shifted, put_from, inserted, Near, Placed, new_of, after_new, AddReady, added_of, AddedTo};

use std::cmp::Ordering;
use tally_rules::{Order, SUPPLIER, SUPPLIERS};

// The bytes of the names.
pub const NAMES: usize = SUPPLIERS * SUPPLIER;

// Where a name stands, or where it belongs.
#[derive(Drop)]
pub enum Slot {
    Here(usize),
    New(usize),
}

// How many tallies are in use now; or there is no place for one more.
#[derive(Drop)]
pub enum Added {
    Now(usize),
    Full,
}

// How two names stand in byte order.
pub fn order_of(a: &[u8], b: &[u8]) -> Order
    ensures { result ≡ order a.now b.now }
{
    match a.cmp(&b) {
        Ordering::Less => Order::Before,
        Ordering::Equal => Order::Same,
        Ordering::Greater => Order::After,
    }
}

// The first of the tallies in use whose name does not come before this one: it has the name, or the name belongs there.
pub fn find_in(names: &[u8], lengths: &[u32], used: usize, name: &[u8]) -> Slot
    requires { Looked names.now lengths.now used }
    ensures { result ≡ slot_from name.now 0 (names_from names.now lengths.now 0 used) }
{
    for i in 0..used {
        let from = SUPPLIER * i;
        let to = from + lengths[i] as usize;
        match order_of(&names[from..to], name) {
            Order::Before => {}
            Order::Same => {
                return Slot::Here(i);
            }
            Order::After => {
                return Slot::New(i);
            }
        }
    }
    Slot::New(used)
}

// So many bytes from here on move up by a name's room, the last first.
fn move_names(names: &mut [u8; NAMES], from: usize, k: usize)
    requires { (from + k + longest ≤ length names.old) × (length names.old ≡ 1536) }
    ensures { names.new ≡ shifted longest k from names.old }
{
    for j in (0..k).rev() {
        names[from + j + SUPPLIER] = names[from + j];
    }
}

// So many numbers from here on move up by one place, the last first.
fn move_numbers(numbers: &mut [u32; SUPPLIERS], from: usize, k: usize)
    requires { (from + k + 1 ≤ length numbers.old) × (length numbers.old ≡ most_suppliers) }
    ensures { numbers.new ≡ shifted 1 k from numbers.old }
{
    for j in (0..k).rev() {
        numbers[from + j + 1] = numbers[from + j];
    }
}

// A byte of a name, zero past its end.
fn byte_or_zero(name: &[u8], j: usize) -> u8
    ensures { result ≡ get_or name.now j 0 }
{
    if j < name.len() {
        return name[j];
    }
    0
}

// A name with zeros behind it, over a whole room.
fn put_name(names: &mut [u8; NAMES], at: usize, name: &[u8])
    requires { (at + longest ≤ length names.old) × (length names.old ≡ 1536) }
    ensures { names.new ≡ put_from longest at 0 name.now names.old }
{
    for j in 0..SUPPLIER {
        names[at + j] = byte_or_zero(name, j);
    }
}

// A new tally at its place: those from there on move up by one.
fn insert(
    names: &mut [u8; NAMES],
    lengths: &mut [u32; SUPPLIERS],
    counts: &mut [u32; SUPPLIERS],
    place: usize,
    used: usize,
    name: &[u8],
)
    requires { Placed (memory names.old lengths.old counts.old) place used name.now }
    ensures { memory names.new lengths.new counts.new ≡ inserted place used name.now (memory names.old lengths.old counts.old) }
{
    let k = used - place;
    move_names(names, SUPPLIER * place, SUPPLIER * k);
    put_name(names, SUPPLIER * place, name);
    move_numbers(lengths, place, k);
    lengths[place] = name.len() as u32;
    move_numbers(counts, place, k);
    counts[place] = 1;
}

// One record more of the supplier at this place, which the list has.
fn add_here(counts: &mut [u32; SUPPLIERS], place: usize)
    requires { (place < length counts.old) × (length counts.old ≡ most_suppliers) × (get_or counts.old place 0 ≤ most_records) }
    ensures { counts.new ≡ set counts.old place (get_or counts.old place 0 + 1) }
{
    counts[place] = counts[place] + 1;
}

// The first record of a supplier that belongs at this place.
fn add_new(
    names: &mut [u8; NAMES],
    lengths: &mut [u32; SUPPLIERS],
    counts: &mut [u32; SUPPLIERS],
    place: usize,
    used: usize,
    name: &[u8],
) -> Added
    requires { Near (memory names.old lengths.old counts.old) place used name.now }
    ensures { (result ≡ new_of used) × (memory names.new lengths.new counts.new ≡ after_new place used name.now (memory names.old lengths.old counts.old)) }
{
    if SUPPLIERS <= used {
        return Added::Full;
    }
    insert(names, lengths, counts, place, used, name);
    Added::Now(used + 1)
}

// One record more of this supplier.
pub fn add_in(
    names: &mut [u8; NAMES],
    lengths: &mut [u32; SUPPLIERS],
    counts: &mut [u32; SUPPLIERS],
    used: usize,
    name: &[u8],
) -> Added
    requires { AddReady (memory names.old lengths.old counts.old) used name.now }
    ensures value { result ≡ added_of (memory names.old lengths.old counts.old) used name.now }
    ensures added_to { AddedTo (memory names.old lengths.old counts.old) used name.now (memory names.new lengths.new counts.new) }
{
    match find_in(names, lengths, used, name) {
        Slot::Here(i) => {
            add_here(counts, i);
            Added::Now(used)
        }
        Slot::New(i) => add_new(names, lengths, counts, i, used, name),
    }
}
