// What copying a record and writing a catalogue answer. What they promise is said in specs/.
#![tactic(auto)]

// A record copied: the bytes and lines that the record takes and the length of its text, or the first refusal.
#[derive(Drop)]
pub enum Copied {
    Done {
        taken: usize,
        lines: usize,
        length: usize,
    },
    Refused {
        no: u8,
        line: usize,
        column: usize,
    },
}

// A catalogue written: the length of the text and the number of its records, or the first refusal.
#[derive(Drop)]
pub enum Catalogue {
    Done { length: usize, records: usize },
    Refused { no: u8, line: usize, column: usize },
}
