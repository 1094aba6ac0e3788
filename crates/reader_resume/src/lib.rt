// An SDfile judged record by record, in parts: behind a refused record judging goes on after the next line that begins `$$$$`.
#![tactic(auto)]

ghost use Rattle.std.specs.Prelude.{◌≡◌, ◌*◌, ◌≤◌, length};
ghost use Rattle.rules.specs.Record.{limit, atom_places, bond_places};
ghost use Rattle.line_property.specs.Listed.{places};
ghost use Rattle.resume_rules.specs.Passed.{marked};
ghost use Rattle.reader_resume.specs.Heard.{line_end, byte_of, pass_of, not_whole, heard_of};

use reader_feed::Counter;
use reader_pairs::KEYS;
use reader_walk::Walked;
use rules::LISTED;

// Where a record begins, and what is known of the part that begins there: whether nothing follows it, and that no part is ever longer than the room.
// The file is an SDfile, or else a molfile, which is one record.
#[derive(Drop)]
pub struct Asked {
    pub counter: Counter,
    pub sd: bool,
    pub ended: bool,
    pub room: usize,
}

// In a refused record, which the counter counts. Lines are passed by, and the `left`th is the first that is looked at;
// `seen` dollars stand at the front of the line so far, and 5 where it begins otherwise.
#[derive(Drop)]
pub struct Passing {
    pub counter: Counter,
    pub left: usize,
    pub seen: usize,
}

// What is said of the record at the front of a part. Lines count from the file's start.
#[derive(Drop)]
pub enum Heard {
    // It is whole and has so many bytes, with its items between two of them.
    Good {
        counter: Counter,
        length: usize,
        items_start: usize,
        items_end: usize,
    },
    Bad {
        passing: Passing,
        no: u8,
        line: usize,
        column: usize,
    },
    // The room holds neither its end nor a refused line, and more input follows.
    TooLong {
        passing: Passing,
    },
    // More bytes are to stand behind the part first.
    More,
}

// What is said of a part behind a refused line.
#[derive(Drop)]
pub enum Passed {
    // The line that begins `$$$$` ends before this byte.
    Behind { counter: Counter, used: usize },
    // There is none yet.
    On(Passing),
}

// After one byte.
#[derive(Drop)]
enum Mark {
    End(Counter),
    On(Passing),
}

fn dollars(seen: usize, b: u8) -> usize
    ensures { result ≡ marked seen b }
{
    if 4 <= seen {
        return seen;
    }
    if b == b'$' {
        return seen + 1;
    }
    5
}

impl Passing {
    fn line_end(self) -> Mark
        ensures { result ≡ line_end self }
    {
        let before = self.counter;
        let counter = Counter {
            records: before.records,
            lines: reader_feed::plus(before.lines, 1),
        };
        if 1 < self.left {
            let left = self.left - 1;
            return Mark::On(Passing {
                counter,
                left,
                seen: 0,
            });
        }
        if self.seen == 4 {
            return Mark::End(counter);
        }
        Mark::On(Passing {
            counter,
            left: 0,
            seen: 0,
        })
    }

    fn byte(self, b: u8) -> Mark
        ensures { result ≡ byte_of self b }
    {
        if b == b'\n' {
            return self.line_end();
        }
        let counter = self.counter;
        let left = self.left;
        let seen = dollars(self.seen, b);
        Mark::On(Passing {
            counter,
            left,
            seen,
        })
    }

    // The bytes of a part, up to and with the line that is looked for.
    pub fn pass(self, part: &[u8]) -> Passed
        ensures { result ≡ pass_of self part.now }
    {
        let mut passing = self;
        for (i, b) in part.iter().enumerate() {
            match passing.byte(*b) {
                Mark::End(counter) => {
                    return Passed::Behind {
                        counter,
                        used: i + 1,
                    };
                }
                Mark::On(p) => {
                    passing = p;
                }
            }
        }
        Passed::On(passing)
    }
}

impl Asked {
    // The record is refused at its line k; 19 is no refusal while more input may follow.
    fn not_whole(self, len: usize, no: u8, k: usize, column: usize) -> Heard
        ensures { result ≡ not_whole self len no k column }
    {
        let before = self.counter;
        let counter = Counter {
            records: reader_feed::plus(before.records, 1),
            lines: before.lines,
        };
        let passing = Passing {
            counter,
            left: k,
            seen: 0,
        };
        let line = reader_feed::plus(before.lines, k);
        if no != 19 {
            return Heard::Bad {
                passing,
                no,
                line,
                column,
            };
        }
        if self.ended {
            return Heard::Bad {
                passing,
                no,
                line,
                column,
            };
        }
        if len < self.room {
            return Heard::More;
        }
        Heard::TooLong { passing }
    }

    // The record at the front of the part, which is not empty unless it is a molfile; with lent tables.
    pub fn next(
        self,
        part: &[u8],
        atoms: &mut [i32],
        bonds: &mut [i32],
        listed: &mut [u32; LISTED],
        keys: &mut [u32; KEYS],
    ) -> Heard
        requires { (atom_places ≤ length atoms.old) × (bond_places ≤ length bonds.old) × (length listed.old ≡ 3 * places) × (length keys.old ≡ limit) }
        ensures value { result ≡ heard_of self part.now }
        ensures atoms_len_unchanged { length atoms.new ≡ length atoms.old }
        ensures bonds_len_unchanged { length bonds.new ≡ length bonds.old }
        ensures listed_len { length listed.new ≡ 3 * places }
        ensures keys_len { length keys.new ≡ limit }
    {
        let before = self.counter;
        match reader_walk::walk_keyed(self.sd, part, atoms, bonds, listed, keys) {
            Walked::Whole {
                counts: _,
                length,
                lines,
                header_end: _,
                items_start,
                items_end,
            } => {
                let counter = Counter {
                    records: reader_feed::plus(before.records, 1),
                    lines: reader_feed::plus(before.lines, lines),
                };
                Heard::Good {
                    counter,
                    length,
                    items_start,
                    items_end,
                }
            }
            Walked::Refused { no, line, column } => { self.not_whole(part.len(), no, line, column) }
        }
    }
}
