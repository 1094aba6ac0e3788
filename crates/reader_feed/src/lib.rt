// The records of an SDfile that comes in parts, counted with one buffer of fixed size.
#![tactic(auto)]

ghost use Rattle.std.specs.Prelude.{◌≡◌};
ghost use Rattle.reader_feed.specs.Fed.{plus_of, begun, counted, wait_of, short_of, end_of, fed_of};

use reader_cursor::{Cursor, Ended};

// So many records and lines are done with.
#[derive(Clone, Copy)]
pub struct Counter {
    pub records: usize,
    pub lines: usize,
}

// What the counter says after a part.
#[derive(Drop)]
pub enum Fed {
    // So many bytes of the part are whole records and done with; the rest stands before the next bytes.
    More { counter: Counter, used: usize },
    // The input has ended after a whole record.
    Accepted { records: usize },
    // The line counts from the input's start.
    Refused { no: u8, line: usize, column: usize },
    // The record does not end within the room, and more input follows.
    TooLong { record: usize },
}

// Counts stop here and never wrap.
const MOST: usize = 18446744073709551615;

pub fn plus(a: usize, b: usize) -> usize
    ensures { result ≡ plus_of a b }
{
    if MOST - a < b {
        return MOST;
    }
    a + b
}

impl Counter {
    pub fn new() -> Counter
        ensures { result ≡ begun }
    {
        Counter {
            records: 0,
            lines: 0,
        }
    }

    // After the records that a cursor has passed.
    fn counted(self, cursor: Cursor) -> Counter
        ensures { result ≡ counted self cursor }
    {
        Counter {
            records: plus(self.records, cursor.records),
            lines: plus(self.lines, cursor.lines),
        }
    }

    // More input follows. A record that begins later than the part does can still fit once it stands at the front.
    fn wait(self, used: usize, len: usize, room: usize) -> Fed
        ensures { result ≡ wait_of self used len room }
    {
        if 0 < used {
            return Fed::More {
                counter: self,
                used,
            };
        }
        if len < room {
            return Fed::More {
                counter: self,
                used,
            };
        }
        Fed::TooLong {
            record: plus(self.records, 1),
        }
    }

    // The part ends within the record at the cursor, before this line of it.
    fn short(self, cursor: Cursor, line: usize, len: usize, ended: bool, room: usize) -> Fed
        ensures { result ≡ short_of ended room len self cursor line }
    {
        if ended {
            return Fed::Refused {
                no: 19,
                line: plus(self.lines, line),
                column: 1,
            };
        }
        self.counted(cursor).wait(cursor.at, len, room)
    }

    // The part is used up.
    fn end(self, used: usize, len: usize, ended: bool, room: usize) -> Fed
        ensures { result ≡ end_of ended room len self used }
    {
        if ended {
            return Fed::Accepted {
                records: self.records,
            };
        }
        self.wait(used, len, room)
    }

    // The next part of the input, from where a record begins. `ended`: nothing follows it. `room`: no part is ever longer.
    pub fn take(self, part: &[u8], ended: bool, room: usize) -> Fed
        ensures { result ≡ fed_of self part.now ended room }
    {
        match reader_cursor::walk_file(part) {
            Ended::Over { cursor } => {
                self.counted(cursor).end(cursor.at, part.len(), ended, room)
            }
            Ended::Short { cursor, line } => self.short(cursor, line, part.len(), ended, room),
            Ended::Refused { no, line, column } => Fed::Refused {
                no,
                line: plus(self.lines, line),
                column,
            },
        }
    }
}
