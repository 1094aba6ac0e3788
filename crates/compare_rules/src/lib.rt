// Two SDfiles compared, record by record: definitions and theorems, all in specs/. Nothing runs here; the code above shares these forms.
#![tactic(auto)]

// Where two files differ: the record's number, the part of it, the place in that part, the field. Numbers count from 1; 0 where there is none.
#[derive(Clone, Copy)]
pub struct Place {
    pub position: usize,
    pub part: u8,
    pub index: usize,
    pub field: usize,
}

// While differences are listed: so many are passed over yet, and so many were counted after those.
#[derive(Drop)]
pub struct Count {
    pub skip: usize,
    pub seen: usize,
}
