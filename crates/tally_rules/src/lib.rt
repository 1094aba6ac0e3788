// Bottles per supplier: definitions and theorems, all in specs/. What runs is in the crates above; here are the sizes and the types that they share.
#![tactic(auto)]

// The most suppliers of a list, the most bytes of a supplier, the most records of a report.
pub const SUPPLIERS: usize = 64;

pub const SUPPLIER: usize = 24;

pub const RECORDS: u32 = 999999;

// How two names stand in byte order.
#[derive(Drop)]
pub enum Order {
    Before,
    Same,
    After,
}

// A supplier and how many records it sent. Only the first `length` bytes are its name.
#[derive(Clone, Copy)]
pub struct Tally {
    pub name: [u8; SUPPLIER],
    pub length: u32,
    pub count: u32,
}

// Beside a list: how many of its tallies are in use, records without a supplier, all records.
#[derive(Clone, Copy)]
pub struct Totals {
    pub entries: u32,
    pub missing: u32,
    pub total: u32,
}
