// A delivery judged: every refused record told if asked for, and what is worth a warning. What is written are facts, one a line, of which sentences are made.
#![tactic(auto)]

mod facts;
mod items;

ghost use Rattle.std.specs.Prelude.{◌≡◌, ◌*◌, length};
ghost use Rattle.rules.specs.Record.{limit, atom_places, bond_places};
ghost use Rattle.line_property.specs.Listed.{places};

use items::{Looked, Names};
use program_io::{Input, Out, Reason, System, Text};
use program_verdict::Verdict;
use reader_feed::Counter;
use reader_pairs::KEYS;
use reader_resume::{Asked, Heard, Passed, Passing};
use rules::{ATOMS, BONDS, LISTED};
use std::ops::ControlFlow;

// How files are judged: up to the first refused record, or to the end.
#[derive(Clone, Copy)]
pub struct Way {
    pub sd: bool,
    pub progress: bool,
    pub all: bool,
}

// What is left of a refused record, as in `Passing`.
#[derive(Clone, Copy)]
struct Rest {
    left: usize,
    seen: usize,
}

// The bytes from `at` to before `filled` stand in the buffer, after `done` bytes and what is counted; so many records
// were refused, and what was wrong first.
#[derive(Clone, Copy)]
struct Place {
    way: Way,
    at: usize,
    filled: usize,
    done: u64,
    counter: Counter,
    // Said in a refused record.
    rest: Option<Rest>,
    refused: usize,
    wrong: Option<Verdict>,
    out: Out,
}

// What is met at the place.
#[derive(Drop)]
enum Met {
    Record(Heard),
    Behind(Passed),
    Nothing,
}

fn begin(way: Way, out: Out) -> Place {
    Place {
        way,
        at: 0,
        filled: 0,
        done: 0,
        counter: Counter::new(),
        rest: None,
        refused: 0,
        wrong: None,
        out,
    }
}

impl Place {
    // The last byte of the buffer stands beside what is judged: it only tells that input follows.
    fn ended(self, room: usize) -> bool {
        self.filled <= room
    }

    // Behind so many bytes.
    fn past(self, used: usize) -> Place {
        Place {
            at: self.at.saturating_add(used),
            ..self
        }
    }

    // With so many bytes in the buffer.
    fn refilled(self, done: u64, n: usize) -> Place {
        Place {
            at: 0,
            filled: n,
            done,
            ..self
        }
    }

    // What is wrong first is the verdict on the file.
    fn judged(self, verdict: Verdict) -> Place {
        Place {
            refused: self.refused.saturating_add(1),
            wrong: self.wrong.or(Some(verdict)),
            ..self
        }
    }

    // In a refused record.
    fn within(self, passing: Passing) -> Place {
        Place {
            counter: passing.counter,
            rest: Some(Rest {
                left: passing.left,
                seen: passing.seen,
            }),
            ..self
        }
    }

    // At a record's start.
    fn before(self, counter: Counter) -> Place {
        Place {
            counter,
            rest: None,
            ..self
        }
    }

    // Behind an accepted record of so many bytes. A molfile ends with it.
    fn accepted(self, length: usize, room: usize) -> ControlFlow<Place, Place> {
        if self.way.sd {
            return ControlFlow::Continue(self.past(length));
        }
        if self.ended(room) {
            return ControlFlow::Break(self);
        }
        ControlFlow::Break(self.judged(Verdict::TooLong { record: 1 }))
    }

    // Judging goes on behind a refused record if that is asked for, and if more than one record may stand in the file.
    fn on(self) -> ControlFlow<Place, Place> {
        if self.way.all && self.way.sd {
            return ControlFlow::Continue(self);
        }
        ControlFlow::Break(self)
    }
}

// What stands in the buffer from the place on, and is judged.
fn part(place: Place, buf: &[u8]) -> &[u8] {
    let room = place.filled.min(buf.len().saturating_sub(1));
    program_io::tail(program_io::front(buf, room), place.at)
}

fn look(
    place: Place,
    buf: &[u8],
    atoms: &mut [i32; ATOMS],
    bonds: &mut [i32; BONDS],
    listed: &mut [u32; LISTED],
    keys: &mut [u32; KEYS],
) -> Met
    requires { (length atoms.old ≡ atom_places) × (length bonds.old ≡ bond_places) × (length listed.old ≡ 3 * places) × (length keys.old ≡ limit) }
    ensures { (length atoms.new ≡ atom_places) × (length bonds.new ≡ bond_places) × (length listed.new ≡ 3 * places) × (length keys.new ≡ limit) }
{
    let s = part(place, buf);
    let counter = place.counter;
    if let Some(rest) = place.rest {
        let passing = Passing {
            counter,
            left: rest.left,
            seen: rest.seen,
        };
        return Met::Behind(passing.pass(s));
    }
    // An SDfile may end where a record may begin.
    if place.way.sd && s.is_empty() {
        return Met::Nothing;
    }
    let room = buf.len().saturating_sub(1);
    let asked = Asked {
        counter,
        sd: place.way.sd,
        ended: place.ended(room),
        room,
    };
    Met::Record(asked.next(s, atoms, bonds, listed, keys))
}

// The rest moved to the front, and more read behind it.
fn refill(
    system: &System,
    place: Place,
    input: Input<'_>,
    buf: &mut [u8],
) -> ControlFlow<Place, Place> {
    let kept = program_io::keep(buf, place.at, place.filled);
    let done = place.done.saturating_add(place.at.min(place.filled) as u64);
    match program_io::fill(input, buf, kept) {
        Ok(n) => {
            let before = done.saturating_add(kept as u64);
            let after = done.saturating_add(n as u64);
            program_verdict::note_passed(system, place.way.progress, before, after);
            ControlFlow::Continue(place.refilled(done, n))
        }
        Err(why) => ControlFlow::Break(place.judged(Verdict::Unreadable(why))),
    }
}

// More is read where there is more.
fn read_on(
    system: &System,
    place: Place,
    input: Input<'_>,
    buf: &mut [u8],
) -> ControlFlow<Place, Place> {
    if place.ended(buf.len().saturating_sub(1)) {
        return ControlFlow::Break(place);
    }
    refill(system, place, input, buf)
}

fn after_behind(
    system: &System,
    place: Place,
    p: Passed,
    input: Input<'_>,
    buf: &mut [u8],
) -> ControlFlow<Place, Place> {
    match p {
        Passed::Behind { counter, used } => ControlFlow::Continue(place.past(used).before(counter)),
        Passed::On(passing) => {
            let all = place.past(part(place, buf).len());
            read_on(system, all.within(passing), input, buf)
        }
    }
}

// An accepted record: its items are looked over.
fn accept(
    place: Place,
    s: &[u8],
    counter: Counter,
    from: usize,
    names: &mut Names,
    room: &mut [u8],
) -> Place {
    let looked = Looked {
        record: counter.records,
        lines: place.counter.lines,
        out: place.out,
    };
    let done = items::look_over(looked, s, from, names, room);
    Place {
        out: done.out,
        ..place.before(counter)
    }
}

// A refused record: its numbers, and its lines up to the refused one.
fn refuse(place: Place, s: &[u8], passing: Passing, numbers: Text, room: &mut [u8]) -> Place {
    let counter = passing.counter;
    let text = facts::begin("record ", counter.records, counter.lines.saturating_add(1));
    let first = place.out.text(room, text).text(room, numbers.byte(b'\n'));
    let out = facts::put_lines(first, room, s, passing.left);
    Place {
        out,
        ..place.within(passing)
    }
}

fn numbers(no: u8, line: usize, column: usize) -> Text {
    Text::new().print(format_args!("refused {no} {line} {column}"))
}

fn after_record(
    system: &System,
    place: Place,
    heard: Heard,
    input: Input<'_>,
    buf: &mut [u8],
    names: &mut Names,
    room: &mut [u8],
) -> ControlFlow<Place, Place> {
    match heard {
        Heard::Good {
            counter,
            length,
            items_start,
            items_end,
        } => {
            let s = program_io::front(part(place, buf), items_end);
            let next = accept(place, s, counter, items_start, names, room);
            next.accepted(length, buf.len().saturating_sub(1))
        }
        Heard::Bad {
            passing,
            no,
            line,
            column,
        } => {
            let s = part(place, buf);
            let told = refuse(place, s, passing, numbers(no, line, column), room);
            told.judged(Verdict::Refused { no, line, column }).on()
        }
        Heard::TooLong { passing } => {
            let counter = passing.counter;
            let s = program_io::front(part(place, buf), 1000);
            let told = refuse(place, s, passing, Text::new().word(b"long"), room);
            let record = counter.records;
            told.judged(Verdict::TooLong { record }).on()
        }
        Heard::More => read_on(system, place, input, buf),
    }
}

fn act(
    system: &System,
    place: Place,
    met: Met,
    input: Input<'_>,
    buf: &mut [u8],
    names: &mut Names,
    room: &mut [u8],
) -> ControlFlow<Place, Place> {
    match met {
        Met::Record(heard) => after_record(system, place, heard, input, buf, names, room),
        Met::Behind(p) => after_behind(system, place, p, input, buf),
        Met::Nothing => read_on(system, place, input, buf),
    }
}

// The records of a file, to its end or to the first refused one. Turns are counted so that the loop ends, and no run uses them up.
fn judge_records(
    system: &System,
    begun: Place,
    input: Input<'_>,
    buf: &mut [u8],
    names: &mut Names,
    room: &mut [u8],
) -> Place {
    let mut atoms = [0i32; ATOMS];
    let mut bonds = [0i32; BONDS];
    let mut listed = [0u32; LISTED];
    let mut keys = [0u32; KEYS];
    let mut place = begun;
    for _ in 0..u64::MAX {
        let met = look(place, buf, &mut atoms, &mut bonds, &mut listed, &mut keys);
        match act(system, place, met, input, buf, names, room) {
            ControlFlow::Continue(next) => {
                if next.out.is_cut() {
                    return next;
                }
                place = next;
            }
            ControlFlow::Break(last) => return last,
        }
    }
    place
}

fn judge_open(
    system: &System,
    begun: Place,
    input: Input<'_>,
    buf: &mut [u8],
    names: &mut Names,
    room: &mut [u8],
) -> Place {
    match refill(system, begun, input, buf) {
        ControlFlow::Continue(p) => judge_records(system, p, input, buf, names, room),
        ControlFlow::Break(p) => p,
    }
}

fn verdict_of(place: Place) -> Verdict {
    let records = place.counter.records;
    place.wrong.unwrap_or(Verdict::Accepted { records })
}

// How many records were accepted and refused; of a file that was not read to a verdict, that alone.
fn ending(place: Place) -> Text {
    if let Some(Verdict::Unreadable(_)) = place.wrong {
        return Text::new().word(b"unread");
    }
    let accepted = place.counter.records.saturating_sub(place.refused);
    facts::begin("end ", accepted, place.refused)
}

// The names of the items, and the end. What cannot be written is the verdict then.
fn finish(place: Place, names: &Names, room: &mut [u8]) -> Verdict {
    let named = items::put_names(place.out, room, names);
    match named.text(room, ending(place).byte(b'\n')).flush(room).done {
        Ok(()) => verdict_of(place),
        Err(why) => Verdict::Unwritten(why),
    }
}

// The buffer's last byte stands beside it: it tells whether input follows a full one.
pub const BUFFER: usize = 1048577;

fn judge_within(
    system: &System,
    name: &[u8],
    input: Input<'_>,
    way: Way,
    buf: &mut [u8],
    room: &mut [u8],
) -> Verdict {
    let mut names = Names::new();
    let out = Out::new(system).text(room, Text::new().word(b"file "));
    let begun = begin(way, facts::put_quoted(out, room, name));
    let place = judge_open(system, begun, input, buf, &mut names, room);
    finish(place, &names, room)
}

// An open file: facts on standard output, the verdict on its channel.
pub fn judge(system: &System, name: &[u8], input: Input<'_>, way: Way, buf: &mut [u8; BUFFER]) {
    let mut room = io::large_buffer();
    let verdict = judge_within(system, name, input, way, buf, &mut room);
    program_verdict::tell(system, name, verdict);
}

// A file that cannot be opened.
pub fn cannot_open(system: &System, name: &[u8], why: Reason) {
    program_verdict::tell(system, name, Verdict::Unreadable(why));
    let mut room = io::large_buffer();
    let out = Out::new(system).text(&mut room, Text::new().word(b"file "));
    let named = facts::put_quoted(out, &mut room, name);
    let told = named.text(&mut room, Text::new().word(b"unread\n"));
    if let Err(why) = told.flush(&room).done {
        system.note(why);
    }
}
