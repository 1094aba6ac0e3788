// The log, replayed through one buffer: once for the store at its end, and once more for the last count of each of its lots.
use program_io::Input;
use program_replay::{Reading, SIZE};
use program_verdict::Verdict;
use std::fs::File;
use stock_counts::COUNTS;
use store_event::Scan;
use store_lots::{KEYS, LOTS};
use store_replay::Step;

// How a replay ended, and the lots then.
#[derive(Drop)]
pub struct Replayed {
    pub verdict: Verdict,
    pub lots: usize,
}

// The count that stands there, noted under the lot of the whole store that it is of.
fn note(
    log: &[u8],
    at: usize,
    paper: u32,
    shelf: u16,
    whole: &[u32; KEYS],
    lots: usize,
    counts: &mut [u32; COUNTS],
) {
    if log.len() <= at {
        return;
    }
    match store_event::scan_at(log, at) {
        Scan::Counted { key, quantity: _ } => {
            stock_counts::note(key, paper, shelf, whole, lots, counts);
        }
        _ => {}
    }
}

// The next event, or more of the log.
fn take_turn(
    file: &File,
    buf: &mut [u8; SIZE],
    keys: &mut [u32; KEYS],
    papers: &mut [u32; LOTS],
    whole: &[u32; KEYS],
    lots: usize,
    counts: &mut [u32; COUNTS],
    reading: Reading,
) -> Reading {
    let ready = reading.has_event();
    if !ready {
        return reading.refill(Input::Opened(file), buf);
    }
    let log = reading.log(buf);
    let state = reading.state;
    match state.next(log, keys, papers) {
        Step::Received { quantity: _, next } => reading.past(next),
        Step::Issued { quantity: _, next } => reading.past(next),
        Step::Day { next } => reading.past(next),
        Step::Counted {
            event: _,
            lot: _,
            paper,
            shelf,
            difference: _,
            next,
        } => {
            note(log, state.at, paper, shelf, whole, lots, counts);
            reading.past(next)
        }
        Step::Skipped {
            no: _,
            event: _,
            next,
        } => reading.past(next),
        Step::Refused { no, event } => reading.refused(no, event),
        Step::End => reading.done(),
    }
}

// An open log, from a store that is empty; counts are noted under the lots of the whole store. Turns are counted so that the
// loop ends, and no run uses them up.
fn replay(
    file: &File,
    lots: usize,
    keys: &mut [u32; KEYS],
    papers: &mut [u32; LOTS],
    whole: &[u32; KEYS],
    counts: &mut [u32; COUNTS],
) -> Replayed {
    let mut buf = [0u8; SIZE];
    let mut reading = Reading::new();
    for _ in 0..u64::MAX {
        reading = take_turn(file, &mut buf, keys, papers, whole, lots, counts, reading);
        if reading.over.is_some() {
            return ended(reading);
        }
    }
    ended(reading)
}

fn ended(reading: Reading) -> Replayed {
    Replayed {
        verdict: reading.verdict(),
        lots: reading.state.lots,
    }
}

// The last counts, by a second replay with a store of its own.
fn recount(
    file: &File,
    first: Replayed,
    keys: &[u32; KEYS],
    counts: &mut [u32; COUNTS],
) -> Replayed {
    if !program_io::go_back(file) {
        return Replayed {
            verdict: Verdict::Once,
            lots: first.lots,
        };
    }
    let mut again = [0u32; KEYS];
    let mut papers = [0u32; LOTS];
    let second = replay(file, first.lots, &mut again, &mut papers, keys, counts);
    if second.lots == first.lots {
        return second;
    }
    Replayed {
        verdict: Verdict::Changed,
        lots: first.lots,
    }
}

// The store at the end of an open log, and the last count of each lot. Of a refusal the verdict's line is the event's number.
pub fn read_log(
    file: &File,
    keys: &mut [u32; KEYS],
    papers: &mut [u32; LOTS],
    counts: &mut [u32; COUNTS],
) -> Replayed {
    let none = [0u32; KEYS];
    let first = replay(file, 0, keys, papers, &none, counts);
    if program_verdict::is_judged(first.verdict) {
        return recount(file, first, keys, counts);
    }
    first
}
