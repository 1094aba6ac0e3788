// The scanner log against the catalogue, lot by lot, in constant memory. The log is replayed twice, first for the store and then for the last
// counts of its lots. Each file is judged, and then its records are counted; for each of the two lists all files are read again.
#![tactic(auto)]

mod lines;
mod log;
mod walk;

use lines::{ROOM, Way};
use program_io::{Out, System, Target, Text, Window};
use program_verdict::Verdict;
use std::fs::File;
use stock_counts::COUNTS;
use stock_join::{Join, MARKS};
use store_lots::{KEYS, LOTS};
use walk::{BUFFER, Pass, State, Task};

// The arguments: what is written, the two names, the pad byte as a number, the log; then each file, and its name as it was typed.
const MODE: usize = 2;

const PAD: usize = 5;

const LOG: usize = 6;

// No command line has so many files.
const MANY: u64 = 1048576;

// The argument that is the path of a file, before its name; files count from 1.
fn path_argument(file: u64) -> usize {
    if file < MANY {
        return 5 + 2 * (file as usize);
    }
    0
}

fn begin(way: Way, task: Task, lots: usize, out: Out) -> Pass {
    Pass {
        way,
        task,
        lots,
        join: Join::new(),
        out,
        window: Window::new(),
        state: State::On,
    }
}

// ---- Files

// What is said of a file once: with the reading that counts its records; a later one says what failed.
fn tell(system: &System, task: Task, path: &[u8], verdict: Verdict) {
    if matches!(task, Task::Count) || !program_verdict::is_judged(verdict) {
        program_verdict::tell(system, path, verdict);
    }
}

// An open file: judged, then walked. Of a refused one nothing is counted.
fn walk_open(
    system: &System,
    name: &[u8],
    file: &File,
    pass: Pass,
    buf: &mut [u8; BUFFER],
    keys: &[u32; KEYS],
    marks: &mut [u64; MARKS],
    room: &mut [u8; ROOM],
) -> Pass {
    let task = pass.task;
    let verdict = program_verdict::judge_first(system, file, true, buf, false);
    let Verdict::Accepted { records } = verdict else {
        tell(system, task, name, verdict);
        return pass;
    };
    let walked = walk::walk(system, file, pass, buf, keys, marks, room);
    tell(system, task, name, walked.verdict(records));
    walked
}

// A file by its argument. One that is not counted keeps its number.
fn walk_argument(
    system: &System,
    i: usize,
    before: Pass,
    buf: &mut [u8; BUFFER],
    keys: &[u32; KEYS],
    marks: &mut [u64; MARKS],
    room: &mut [u8; ROOM],
) -> Pass {
    let pass = Pass {
        join: before.join.file(),
        ..before
    };
    let task = pass.task;
    let mut path = io::buffer();
    match system.argument(i, &mut path) {
        Ok(n) => {
            let name = program_io::front(&path, n);
            match system.open_read(name) {
                Ok(file) => walk_open(system, name, &file, pass, buf, keys, marks, room),
                Err(why) => {
                    tell(system, task, name, Verdict::Unreadable(why));
                    pass
                }
            }
        }
        Err(why) => {
            tell(system, task, b"file name", Verdict::Unreadable(why));
            pass
        }
    }
}

fn all_files(
    system: &System,
    start: Pass,
    buf: &mut [u8; BUFFER],
    keys: &[u32; KEYS],
    marks: &mut [u64; MARKS],
    room: &mut [u8; ROOM],
) -> Pass {
    let count = system.argument_count();
    let mut pass = start;
    for file in 1..MANY {
        let i = path_argument(file);
        if count <= i {
            return pass;
        }
        pass = walk_argument(system, i, pass, buf, keys, marks, room);
    }
    pass
}

// ---- What is written

// The output behind the lots, the sum of their papers, and whether one is not as it should be.
#[derive(Drop)]
struct Written {
    out: Out,
    paper: u64,
    apart: bool,
}

// The lots in order of their first receipts.
fn put_lots(
    system: &System,
    pass: Pass,
    keys: &[u32; KEYS],
    papers: &[u32; LOTS],
    counts: &[u32; COUNTS],
    marks: &[u64; MARKS],
    room: &mut [u8; ROOM],
) -> Written {
    let way = pass.way;
    let mut out = lines::put_heading(pass.out, room, way.json);
    let mut paper: u64 = 0;
    let mut apart = false;
    for i in 0..pass.lots.min(LOTS) {
        let row = lines::row_of(i, keys, papers, counts, marks);
        out = lines::put_row(system, out, room, way, row);
        apart |= row.is_apart();
        paper = paper.saturating_add(row.paper());
    }
    Written { out, paper, apart }
}

// The records of one fate, of which there are so many, from all files again.
fn list(
    system: &System,
    pass: Pass,
    task: Task,
    many: u64,
    buf: &mut [u8; BUFFER],
    keys: &[u32; KEYS],
    room: &mut [u8; ROOM],
) -> Pass {
    if many == 0 {
        return pass;
    }
    let mut marks = [0u64; MARKS];
    let way = pass.way;
    let out = pass.out;
    let start = begin(way, task, pass.lots, out);
    all_files(system, start, buf, keys, &mut marks, room)
}

// Lots and their paper, records, those received, never received and without a key.
fn totals_of(lots: usize, paper: u64, join: Join) -> [u64; 6] {
    let listed = join.never.saturating_add(join.keyless);
    [
        lots as u64,
        paper,
        join.received.saturating_add(listed),
        join.received,
        join.never,
        join.keyless,
    ]
}

fn is_settled(apart: bool, join: Join) -> bool {
    !apart && join.never == 0 && join.keyless == 0
}

// The last line on the channel.
fn announce(system: &System, done: Out, settled: bool) {
    if let Err(why) = done.done {
        program_verdict::tell(system, b"standard output", Verdict::Unwritten(why));
        return;
    }
    let line = if settled { "settled\n" } else { "unsettled\n" };
    let _ = Text::new().print(line).write(system, Target::Channel);
}

// The totals last, and all that is gathered is written.
fn finish(
    system: &System,
    out: Out,
    room: &mut [u8; ROOM],
    way: Way,
    totals: [u64; 6],
    settled: bool,
) {
    let told = lines::put_row(system, out, room, way, lines::totals(totals));
    let done = told.flush(room);
    announce(system, done, settled);
}

// The catalogue against the store.
fn join_files(
    system: &System,
    way: Way,
    lots: usize,
    keys: &[u32; KEYS],
    papers: &[u32; LOTS],
    counts: &[u32; COUNTS],
) {
    let mut buf = [0u8; BUFFER];
    let mut room = [0u8; ROOM];
    let mut marks = [0u64; MARKS];
    let start = begin(way, Task::Count, lots, Out::new(system));
    let mut pass = all_files(system, start, &mut buf, keys, &mut marks, &mut room);
    let join = pass.join;
    let written = put_lots(system, pass, keys, papers, counts, &marks, &mut room);
    let put = written.out;
    pass.out = put;
    let never = list(
        system,
        pass,
        Task::Never,
        join.never,
        &mut buf,
        keys,
        &mut room,
    );
    let last = list(
        system,
        never,
        Task::Keyless,
        join.keyless,
        &mut buf,
        keys,
        &mut room,
    );
    let totals = totals_of(lots, written.paper, join);
    let listed = last.out;
    let settled = is_settled(written.apart, join);
    finish(system, listed, &mut room, way, totals, settled);
}

// ---- What is asked

// An open log, then the files.
fn join_log(system: &System, way: Way, file: &File, path: &[u8]) {
    if !program_io::has_place(file) {
        program_verdict::tell(system, path, Verdict::Once);
        return;
    }
    let mut keys = [0u32; KEYS];
    let mut papers = [0u32; LOTS];
    let mut counts = [0u32; COUNTS];
    let replayed = log::read_log(file, &mut keys, &mut papers, &mut counts);
    let verdict = replayed.verdict;
    program_verdict::tell(system, path, verdict);
    if program_verdict::is_judged(verdict) {
        join_files(system, way, replayed.lots, &keys, &papers, &counts);
    }
}

fn join_named(system: &System, way: Way) {
    let mut path = io::buffer();
    match system.argument(LOG, &mut path) {
        Ok(n) => {
            let name = &path[..n];
            match system.open_read(name) {
                Ok(file) => join_log(system, way, &file, name),
                Err(why) => program_verdict::tell(system, name, Verdict::Unreadable(why)),
            }
        }
        Err(why) => program_verdict::tell(system, b"file name", Verdict::Unreadable(why)),
    }
}

// A number below 256, in digits alone.
fn number_of(text: &[u8]) -> Option<u8> {
    if !text.iter().all(|b| b.is_ascii_digit()) {
        return None;
    }
    str::from_utf8(text).ok()?.parse::<u8>().ok()
}

fn pad_asked(system: &System) -> Option<u8> {
    let mut text = [0u8; 64];
    match system.argument(PAD, &mut text) {
        Ok(n) => number_of(&text[..n]),
        Err(_) => None,
    }
}

// `json` or `table`, the names of the two items, the pad byte as a number, the log, and then each file with the name to show for it.
pub fn run(system: &System) {
    let Some(pad) = pad_asked(system) else {
        let _ = system.write(
            Target::Errors,
            b"records: the pad byte is no number from 0 to 255\n",
        );
        return;
    };
    join_named(
        system,
        Way {
            json: program_io::is_argument(system, MODE, b"json"),
            pad,
        },
    );
}
