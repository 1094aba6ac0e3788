// A scanner log of any length, replayed through one buffer: a JSON line for each count and each skipped event, then the lots and the sums.
#![tactic(auto)]

mod lines;
mod reading;

pub use lines::key_of;
use lines::{put_count, put_lots, put_skip, put_sums};
use program_io::{Input, Out, Reason, System};
use program_verdict::Verdict;
pub use reading::{Reading, SIZE};
use store_lots::{KEYS, LOTS};
use store_replay::{Replay, Step};

// The reading, with sums and output so far.
#[derive(Clone, Copy)]
struct Pass {
    reading: Reading,
    received: u64,
    issued: u64,
    out: Out,
}

impl Pass {
    fn past(self, next: Replay, received: u16, issued: u16) -> Pass {
        Pass {
            reading: self.reading.past(next),
            received: self.received.saturating_add(u64::from(received)),
            issued: self.issued.saturating_add(u64::from(issued)),
            ..self
        }
    }

    fn wrote(self, next: Replay, out: Out) -> Pass {
        Pass {
            reading: self.reading.past(next),
            out,
            ..self
        }
    }

    fn at(self, reading: Reading) -> Pass {
        Pass { reading, ..self }
    }
}

// Supplier and lot of the event at this place.
fn key_at(log: &[u8], at: usize) -> &[u8] {
    program_io::tail(program_io::front(program_io::tail(log, at), 13), 1)
}

// One event, and its line where it has one.
fn take_event(
    log: &[u8],
    room: &mut [u8; SIZE],
    keys: &mut [u32; KEYS],
    papers: &mut [u32; LOTS],
    pass: Pass,
) -> Pass {
    let reading = pass.reading;
    let state = reading.state;
    match state.next(log, keys, papers) {
        Step::Received { quantity, next } => pass.past(next, quantity, 0),
        Step::Issued { quantity, next } => pass.past(next, 0, quantity),
        Step::Day { next } => pass.past(next, 0, 0),
        Step::Counted {
            event,
            lot: _,
            paper,
            shelf,
            difference: _,
            next,
        } => {
            let key = key_at(log, state.at);
            pass.wrote(next, put_count(pass.out, room, event, key, paper, shelf))
        }
        Step::Skipped { no, event, next } => {
            let key = key_at(log, state.at);
            pass.wrote(next, put_skip(pass.out, room, event, key, no))
        }
        Step::Refused { no, event } => pass.at(reading.refused(no, event)),
        Step::End => pass.at(reading.done()),
    }
}

// The next event, or more of the log.
fn take_turn(
    input: Input<'_>,
    buf: &mut [u8; SIZE],
    room: &mut [u8; SIZE],
    keys: &mut [u32; KEYS],
    papers: &mut [u32; LOTS],
    pass: Pass,
) -> Pass {
    let reading = pass.reading;
    if reading.has_event() {
        return take_event(reading.log(buf), room, keys, papers, pass);
    }
    pass.at(reading.refill(input, buf))
}

// The end of a replay: lots and sums, and all that is gathered is written; or why not all went well.
fn finish(
    room: &mut [u8; SIZE],
    keys: &[u32; KEYS],
    papers: &[u32; LOTS],
    pass: Pass,
) -> Result<(), Reason> {
    let state = pass.reading.state;
    let listed = put_lots(pass.out, room, keys, papers, state.lots);
    let summed = put_sums(listed, room, papers, state, pass.received, pass.issued);
    summed.flush(room).done
}

// An open log. Turns are counted so that the loop ends, and no run uses them up.
fn replay(
    system: &System,
    input: Input<'_>,
    buf: &mut [u8; SIZE],
    room: &mut [u8; SIZE],
    keys: &mut [u32; KEYS],
    papers: &mut [u32; LOTS],
) -> Verdict {
    let mut pass = Pass {
        reading: Reading::new(),
        received: 0,
        issued: 0,
        out: Out::new(system),
    };
    for _ in 0..u64::MAX {
        pass = take_turn(input, buf, room, keys, papers, pass);
        if let Err(why) = pass.out.done
            && why.is_closed()
        {
            return Verdict::Unwritten(why);
        }
        match pass.reading.over {
            None => {}
            Some(Verdict::Unreadable(why)) => return Verdict::Unreadable(why),
            Some(verdict) => {
                return match finish(room, keys, papers, pass) {
                    Ok(()) => verdict,
                    Err(why) => Verdict::Unwritten(why),
                };
            }
        }
    }
    Verdict::Endless
}

fn replay_open(system: &System, input: Input<'_>) -> Verdict {
    let mut buf = [0u8; SIZE];
    let mut room = [0u8; SIZE];
    let mut keys = [0u32; KEYS];
    let mut papers = [0u32; LOTS];
    replay(system, input, &mut buf, &mut room, &mut keys, &mut papers)
}

fn replay_file(system: &System, name: &[u8]) {
    if name == b"-".as_slice() {
        let verdict = replay_open(system, system.stdin());
        program_verdict::tell(system, name, verdict);
        return;
    }
    let verdict = match system.open_read(name) {
        Ok(file) => replay_open(system, Input::Opened(&file)),
        Err(why) => Verdict::Unreadable(why),
    };
    program_verdict::tell(system, name, verdict);
}

// The log that argument `from` names, `-` for standard input. Of a refusal the verdict's line is the event's number, and its column 0.
pub fn run(system: &System, from: usize) {
    let mut name = io::buffer();
    match system.argument(from, &mut name) {
        Ok(n) => replay_file(system, &name[..n]),
        Err(why) => program_verdict::tell(system, b"file name", Verdict::Unreadable(why)),
    }
}
