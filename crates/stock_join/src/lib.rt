// The join of the store and the catalogue, one step a record, over memory that the caller lends.
#![tactic(auto)]

ghost use Rattle.std.specs.Prelude.{◌≡◌, ◌<◌};
ghost use Rattle.stock_join.specs.Step.{up_to, marked, place_in, fresh, next_file, after, under_at};
ghost use Rattle.stock_join.specs.Promise.{FatePromise, Promise};

use stock_key::KeyRead;
use store_event::Key;
use store_lots::{KEYS, LOTS};

// Three numbers a lot: how many records have its key, the file of the first of them, and its number there.
pub const MARKS: usize = 1536;

// What becomes of a record: counted under the lot at a place of the store, never received, or without a key; and none of
// these where the record is refused, or no store has so many lots.
#[derive(Clone, Copy)]
pub enum Fate {
    Under { lot: usize },
    Never,
    Keyless,
    Nowhere,
}

// So many files and records of the last one are taken, and so many records had each fate. Numbers stop at 2^64 - 1.
#[derive(Clone, Copy)]
pub struct Join {
    pub file: u64,
    pub number: u64,
    pub received: u64,
    pub never: u64,
    pub keyless: u64,
}

fn up(n: u64) -> u64
    ensures { result ≡ up_to n }
{
    if n == u64::MAX {
        return n;
    }
    n + 1
}

// A lot's place among those of the store.
fn place_in(key: Key, keys: &[u32; KEYS], lots: usize) -> Fate
    ensures { result ≡ place_in key keys.now lots }
{
    if LOTS < lots {
        return Fate::Nowhere;
    }
    let lot = store_lots::find_lot(keys, lots, key);
    if lot < lots {
        return Fate::Under { lot };
    }
    Fate::Never
}

// What becomes of a record with this key.
pub fn fate_of(read: KeyRead, keys: &[u32; KEYS], lots: usize) -> Fate
    ensures { FatePromise read keys.now lots result }
{
    match read {
        KeyRead::Key { key } => place_in(key, keys, lots),
        KeyRead::NoSupplier { why: _ } => Fate::Keyless,
        KeyRead::NoLot { why: _ } => Fate::Keyless,
        KeyRead::Refused {
            no: _,
            line: _,
            column: _,
        } => Fate::Nowhere,
    }
}

// One record more under a lot; the first one's place is kept.
fn mark(marks: &mut [u64; MARKS], lot: usize, file: u64, number: u64)
    requires { lot < 512 }
    ensures { marks.new ≡ marked marks.old lot file number }
{
    let count = marks[lot];
    if count == 0 {
        marks[512 + lot] = file;
        marks[1024 + lot] = number;
        marks[lot] = 1;
        return;
    }
    marks[lot] = up(count);
}

impl Join {
    // Before the first file.
    pub fn new() -> Join
        ensures { result ≡ fresh }
    {
        Join {
            file: 0,
            number: 0,
            received: 0,
            never: 0,
            keyless: 0,
        }
    }

    // Before the first record of the next file.
    pub fn file(self) -> Join
        ensures { result ≡ next_file self }
    {
        Join {
            file: up(self.file),
            number: 0,
            received: self.received,
            never: self.never,
            keyless: self.keyless,
        }
    }

    // A record under the lot at a place.
    fn under(self, lot: usize, marks: &mut [u64; MARKS]) -> Join
        ensures { after result marks.new ≡ under_at self lot marks.old }
    {
        if LOTS <= lot {
            return self;
        }
        let number = up(self.number);
        mark(marks, lot, self.file, number);
        Join {
            file: self.file,
            number,
            received: up(self.received),
            never: self.never,
            keyless: self.keyless,
        }
    }

    // One record more, with its fate.
    pub fn next(self, fate: Fate, marks: &mut [u64; MARKS]) -> Join
        ensures { Promise self fate marks.old (after result marks.new) }
    {
        match fate {
            Fate::Under { lot } => self.under(lot, marks),
            Fate::Never => Join {
                file: self.file,
                number: up(self.number),
                received: self.received,
                never: up(self.never),
                keyless: self.keyless,
            },
            Fate::Keyless => Join {
                file: self.file,
                number: up(self.number),
                received: self.received,
                never: self.never,
                keyless: up(self.keyless),
            },
            Fate::Nowhere => self,
        }
    }
}
