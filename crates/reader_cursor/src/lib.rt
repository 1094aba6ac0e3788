// The walk over an SDfile's records: where it stands, and its end. Each record is read from the tail where it starts.
#![tactic(auto)]

ghost use Rattle.std.specs.Prelude.{◌≡◌, ◌+◌, ◌*◌, ◌^◌, ◌≤◌, ◌<◌, length};
ghost use Rattle.rules.specs.Record.{limit, atom_places, bond_places};
ghost use Rattle.line_property.specs.Listed.{places};
ghost use Rattle.reader_cursor.specs.Walk.{fresh, past, Countable, stop_at, ended_by, file_walk};

use reader_pairs::KEYS;
use reader_walk::Walked;
use rules::{ATOMS, BONDS, LISTED};

// So many bytes, lines and records of the file stand before it.
#[derive(Clone, Copy)]
pub struct Cursor {
    pub at: usize,
    pub lines: usize,
    pub records: usize,
}

// What ends a walk. Lines count from the file's start.
#[derive(Drop)]
pub enum Ended {
    // Nothing is left after the last record.
    Over { cursor: Cursor },
    // The file ends within the record at the cursor, before this line.
    Short { cursor: Cursor, line: usize },
    // The record after the last good one is refused.
    Refused { no: u8, line: usize, column: usize },
}

impl Cursor {
    // At the start of a file.
    pub fn new() -> Cursor
        ensures { result ≡ fresh }
    {
        Cursor {
            at: 0,
            lines: 0,
            records: 0,
        }
    }

    // After a record of so many bytes and lines.
    pub fn past(self, bytes: usize, lines: usize) -> Cursor
        requires { Countable self bytes lines }
        ensures { result ≡ past self bytes lines }
    {
        Cursor {
            at: self.at + bytes,
            lines: self.lines + lines,
            records: self.records + 1,
        }
    }

    // The line of the file that is line `k` of the record at the cursor.
    pub fn line_of(self, k: usize) -> usize
        requires { self.lines + k < 2 ^ 64 }
        ensures { result ≡ self.lines + k }
    {
        self.lines + k
    }

    // The record at the cursor is refused: number 19 where the file ends within it.
    fn stop(self, no: u8, k: usize, column: usize) -> Ended
        requires { self.lines + k < 2 ^ 64 }
        ensures { result ≡ stop_at self no k column }
    {
        let line = self.line_of(k);
        if no == 19 {
            return Ended::Short { cursor: self, line };
        }
        Ended::Refused { no, line, column }
    }
}

// The records of a file, one after the other, with lent tables.
fn walk_records(
    s: &[u8],
    atoms: &mut [i32],
    bonds: &mut [i32],
    listed: &mut [u32; LISTED],
    keys: &mut [u32; KEYS],
) -> Ended
    requires { (atom_places ≤ length atoms.old) × (bond_places ≤ length bonds.old) × (length listed.old ≡ 3 * places) × (length keys.old ≡ limit) }
    ensures { result ≡ ended_by (file_walk s.now) }
{
    let mut cursor = Cursor::new();
    // The cursor jumps by records of any length: a `for` would need an iterator over them, with a proof of its own.
    while cursor.at < s.len() {
        let at = cursor.at;
        match reader_walk::walk_keyed(true, &s[at..], atoms, bonds, listed, keys) {
            Walked::Whole {
                counts: _,
                length,
                lines,
                header_end: _,
                items_start: _,
                items_end: _,
            } => {
                cursor = cursor.past(length, lines);
            }
            Walked::Refused { no, line, column } => {
                return cursor.stop(no, line, column);
            }
        }
    }
    Ended::Over { cursor }
}

// A file's records, up to its end or to the first that is refused.
pub fn walk_file(s: &[u8]) -> Ended
    ensures { result ≡ ended_by (file_walk s.now) }
{
    let mut atoms = [0i32; ATOMS];
    let mut bonds = [0i32; BONDS];
    let mut listed = [0u32; LISTED];
    let mut keys = [0u32; KEYS];
    walk_records(s, &mut atoms, &mut bonds, &mut listed, &mut keys)
}
