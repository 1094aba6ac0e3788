// Bottles per supplier over many SDfiles of any length. Each is judged and counted in one reading, into a copy of the list that is kept if nothing is refused.
#![tactic(auto)]

mod lines;

use program_io::{Input, System};
use program_verdict::Verdict;
use reader_feed::{Counter, Fed};
use std::fs::File;
use std::ops::ControlFlow;
use tally_file::Tallied;
use tally_flat::NAMES;
use tally_rules::{SUPPLIERS, Totals};

// The list. Its arrays are those that C lends, too (`tally_file::tally_flat`).
#[derive(Clone, Copy)]
pub struct Book {
    pub names: [u8; NAMES],
    pub lengths: [u32; SUPPLIERS],
    pub counts: [u32; SUPPLIERS],
    pub totals: Totals,
}

// The place in a file: records and lines so far, bytes kept at the front of the buffer; the first refusal that a record
// met, with the record in the place of the line.
#[derive(Clone, Copy)]
struct Place {
    counter: Counter,
    kept: usize,
    wrong: Option<Verdict>,
}

// The files so far, and how many of them were not accepted.
#[derive(Drop)]
pub struct Month {
    pub files: usize,
    pub refused: usize,
    pub book: Book,
}

// A record may take so many bytes; one byte more tells whether input follows a full buffer.
const ROOM: usize = 1048576;

const BUFFER: usize = ROOM + 1;

fn empty() -> Book {
    Book {
        names: [0u8; NAMES],
        lengths: [0u32; SUPPLIERS],
        counts: [0u32; SUPPLIERS],
        totals: Totals {
            entries: 0,
            missing: 0,
            total: 0,
        },
    }
}

// Whole records, which stand after so many of the file: counted, unless one before was refused.
fn count_part(s: &[u8], before: usize, place: Place, book: &mut Book) -> Place {
    if place.wrong.is_some() {
        return place;
    }
    match tally_file::tally_flat(
        s,
        &mut book.names,
        &mut book.lengths,
        &mut book.counts,
        book.totals,
    ) {
        Tallied::Done { records: _, totals } => {
            book.totals = totals;
            place
        }
        Tallied::Refused {
            no,
            line: _,
            column: _,
            record,
        } => {
            let wrong = Verdict::Refused {
                no,
                line: before.saturating_add(record),
                column: 0,
            };
            Place {
                wrong: Some(wrong),
                ..place
            }
        }
    }
}

// The buffer holds n bytes: its whole records are judged and counted.
fn take_part(
    buf: &mut [u8],
    n: usize,
    place: Place,
    book: &mut Book,
) -> ControlFlow<(Verdict, Place), Place> {
    let part = program_io::front(buf, n.min(ROOM));
    let before = place.counter;
    match before.take(part, n <= ROOM, ROOM) {
        Fed::More { counter, used } => {
            let whole = program_io::front(part, used);
            let counted = count_part(whole, before.records, place, book);
            ControlFlow::Continue(Place {
                counter,
                kept: program_io::keep(buf, used, n),
                ..counted
            })
        }
        Fed::Accepted { records } => {
            let counted = count_part(part, before.records, place, book);
            ControlFlow::Break((Verdict::Accepted { records }, counted))
        }
        Fed::Refused { no, line, column } => {
            ControlFlow::Break((Verdict::Refused { no, line, column }, place))
        }
        Fed::TooLong { record } => ControlFlow::Break((Verdict::TooLong { record }, place)),
    }
}

fn take_turn(
    file: &File,
    buf: &mut [u8],
    place: Place,
    book: &mut Book,
) -> ControlFlow<(Verdict, Place), Place> {
    match program_io::fill(Input::Opened(file), buf, place.kept) {
        Ok(n) => take_part(buf, n, place, book),
        Err(why) => ControlFlow::Break((Verdict::Unreadable(why), place)),
    }
}

// An accepted file of which a record was refused has that refusal as its verdict.
fn settled(verdict: Verdict, place: Place) -> Verdict {
    match verdict {
        Verdict::Accepted { .. } => place.wrong.unwrap_or(verdict),
        _ => verdict,
    }
}

fn is_accepted(verdict: Verdict) -> bool {
    matches!(verdict, Verdict::Accepted { .. })
}

// An open file, counted into a copy of the list that is kept if nothing is refused. Turns are counted so that the loop
// ends, and no run uses them up.
fn count_within(file: &File, buf: &mut [u8], book: &mut Book) -> Verdict {
    let mut copy = *book;
    let mut place = Place {
        counter: Counter::new(),
        kept: 0,
        wrong: None,
    };
    for _ in 0..u64::MAX {
        match take_turn(file, buf, place, &mut copy) {
            ControlFlow::Continue(next) => place = next,
            ControlFlow::Break((said, last)) => {
                let verdict = settled(said, last);
                if is_accepted(verdict) {
                    *book = copy;
                }
                return verdict;
            }
        }
    }
    Verdict::Endless
}

fn count_lent(file: &File, buf: &mut [u8; BUFFER], book: &mut Book) -> Verdict {
    count_within(file, buf, book)
}

fn count_open(file: &File, book: &mut Book) -> Verdict {
    let mut buf = [0u8; BUFFER];
    count_lent(file, &mut buf, book)
}

impl Month {
    // One file more, of this verdict.
    fn note(&mut self, verdict: Verdict) {
        self.files = self.files.saturating_add(1);
        if !is_accepted(verdict) {
            self.refused = self.refused.saturating_add(1);
        }
    }

    // A file by its name; its verdict is announced.
    fn count_file(&mut self, system: &System, name: &[u8]) {
        let verdict = match system.open_read(name) {
            Ok(file) => count_open(&file, &mut self.book),
            Err(why) => Verdict::Unreadable(why),
        };
        program_verdict::tell(system, name, verdict);
        self.note(verdict);
    }

    fn count_argument(&mut self, system: &System, i: usize) {
        let mut name = io::buffer();
        match system.argument(i, &mut name) {
            Ok(n) => self.count_file(system, program_io::front(&name, n)),
            Err(why) => {
                let verdict = Verdict::Unreadable(why);
                program_verdict::tell(system, b"file name", verdict);
                self.note(verdict);
            }
        }
    }
}

fn count_arguments(system: &System, from: usize) -> Month {
    let count = system.argument_count();
    let mut month = Month {
        files: 0,
        refused: 0,
        book: empty(),
    };
    for i in from..count {
        month.count_argument(system, i);
    }
    month
}

// The files that the arguments from `from` on name, perhaps after `--json`; then the report.
pub fn run(system: &System, from: usize) {
    if program_io::is_argument(system, from, b"--json") {
        let month = count_arguments(system, from.saturating_add(1));
        lines::write_json(system, &month);
    } else {
        let month = count_arguments(system, from);
        lines::write_report(system, &month);
    }
}
