// The records of a file that was accepted, read from its start, each with its fate.
use crate::lines;
use crate::lines::{ROOM, Way};
use program_io::{Input, Out, Reason, System, Window};
use program_json::End;
use program_verdict::Verdict;
use std::fs::File;
use stock_join::{Fate, Join, MARKS};
use stock_key::KeyRead;
use store_lots::KEYS;

// The last byte of the buffer stands beside it: it tells whether input follows a full one.
pub const BUFFER: usize = 1048577;

// The arguments that are the names of the two items, of which no good one has so many bytes.
const SUPPLIER: usize = 3;

const LOT: usize = 4;

const NAME: usize = 128;

// What is done with the records: all are counted, or those of one fate listed.
#[derive(Clone, Copy)]
pub enum Task {
    Count,
    Never,
    Keyless,
}

// A walk goes on; the next record is not wholly in the buffer; every record is done; or what went wrong.
#[derive(Clone, Copy)]
pub enum State {
    On,
    Short,
    Done,
    Changed,
    Unwritten(Reason),
    Unreadable(Reason),
}

// The join so far, the lots of the store, and the output; and whether the walk goes on, or how it ended.
#[derive(Clone, Copy)]
pub struct Pass {
    pub way: Way,
    pub task: Task,
    pub lots: usize,
    pub join: Join,
    pub out: Out,
    pub window: Window,
    pub state: State,
}

impl Pass {
    fn in_state(self, state: State) -> Pass {
        Pass { state, ..self }
    }

    // The verdict on a file that was accepted with so many records, which it has at the second reading, too.
    pub fn verdict(self, records: usize) -> Verdict {
        match self.state {
            State::On => Verdict::Endless,
            State::Unwritten(why) => Verdict::Unwritten(why),
            State::Unreadable(why) => Verdict::Unreadable(why),
            State::Done | State::Short if self.join.number as usize == records => {
                Verdict::Accepted { records }
            }
            _ => Verdict::Changed,
        }
    }
}

// Whether a record of this fate is listed.
fn is_listed(task: Task, fate: Fate) -> bool {
    matches!(
        (task, fate),
        (Task::Never, Fate::Never) | (Task::Keyless, Fate::Keyless)
    )
}

// The length of a name from the arguments, by what was answered: one that is too long keeps its first bytes, and no item has so long a name.
fn name_length(got: Result<usize, Reason>) -> usize {
    got.unwrap_or(NAME)
}

fn read_key(system: &System, pad: u8, record: &[u8]) -> KeyRead {
    let mut supplier = [0u8; NAME];
    let mut lot = [0u8; NAME];
    let n = name_length(system.argument(SUPPLIER, &mut supplier));
    let m = name_length(system.argument(LOT, &mut lot));
    let of_supplier = program_io::front(&supplier, n);
    stock_key::key_of(record, of_supplier, program_io::front(&lot, m), pad)
}

// The record at the front of s, if it is wholly there. It was accepted, so it has a key, or a reason why it has none.
fn take_front(
    system: &System,
    pass: Pass,
    s: &[u8],
    keys: &[u32; KEYS],
    marks: &mut [u64; MARKS],
    room: &mut [u8; ROOM],
) -> Pass {
    let Some(End { length, lines: _ }) = program_json::first_end(s) else {
        return pass.in_state(State::Short);
    };
    let read = read_key(system, pass.way.pad, program_io::front(s, length));
    let fate = stock_join::fate_of(read, keys, pass.lots);
    let join = pass.join.next(fate, marks);
    if join.number == pass.join.number {
        return pass.in_state(State::Changed);
    }
    let mut out = pass.out;
    if is_listed(pass.task, fate) {
        out = lines::put_row(system, out, room, pass.way, lines::listed(join, read));
    }
    if let Err(why) = out.done {
        return pass.in_state(State::Unwritten(why));
    }
    Pass {
        window: pass.window.past(length),
        join,
        out,
        ..pass
    }
}

// Where the record is not wholly there, the rest is moved to the front, and more read behind it. One that ends neither in a full buffer nor in the file has
// changed.
fn read_on(file: &File, buf: &mut [u8; BUFFER], pass: Pass) -> Pass {
    let State::Short = pass.state else {
        return pass;
    };
    if pass.window.ended {
        let is_done = pass.window.of(buf).is_empty();
        return pass.in_state(if is_done { State::Done } else { State::Changed });
    }
    if pass.window.is_full(buf) {
        return pass.in_state(State::Changed);
    }
    match pass.window.refill(Input::Opened(file), buf) {
        Ok(window) => Pass {
            window,
            state: State::On,
            ..pass
        },
        Err(why) => pass.in_state(State::Unreadable(why)),
    }
}

// From the file's start. Turns are counted so that the loop ends, and no run uses them up.
pub fn walk(
    system: &System,
    file: &File,
    start: Pass,
    buf: &mut [u8; BUFFER],
    keys: &[u32; KEYS],
    marks: &mut [u64; MARKS],
    room: &mut [u8; ROOM],
) -> Pass {
    let mut pass = Pass {
        window: Window::new(),
        state: State::On,
        ..start
    };
    for _ in 0..u64::MAX {
        let s = pass.window.of(buf);
        pass = take_front(system, pass, s, keys, marks, room);
        pass = read_on(file, buf, pass);
        if !matches!(pass.state, State::On) {
            return pass;
        }
    }
    pass
}
