// The records of an accepted file, written one after the other. The file is read twice and judged first, so nothing of a refused one is written.
#![tactic(auto)]

mod record;

use program_io::{Input, Out, System, Window};
use program_json_rows::{ATOMS, BONDS};
use program_verdict::Verdict;
use std::fs::File;

// Every record as JSON; the item of a name; the canonical text; the pieces; the formula against the atoms. No closure
// says which: the walk would be made once for each, and the reader's step have more than one caller (docs/SPEED.md).
#[derive(Clone, Copy)]
pub enum Task {
    Readings,
    Item,
    Canon,
    Pieces,
    Formula,
}

// How files are written.
#[derive(Clone, Copy)]
struct Way {
    task: Task,
    sd: bool,
    progress: bool,
}

// The second reading, after so many records and lines; the output so far.
#[derive(Clone, Copy)]
struct Pass {
    way: Way,
    window: Window,
    records: usize,
    lines: usize,
    // Records whose formula does not agree.
    apart: usize,
    out: Out,
}

// What a turn came to, where nothing failed.
#[derive(Drop)]
enum Stepped {
    Next(Pass),
    Done,
    // The record at the front of what is not read yet is not wholly in the buffer.
    Short,
}

// The last byte of the buffer stands beside it: it tells whether input follows a full one.
const BUFFER: usize = 1048577;

// The canonical text of any record that fits the buffer fits this room.
const ROOM: usize = 1310720;

// More is read for a record that is not wholly there. One that ends neither in a full buffer nor in the file has
// changed.
fn read_on(file: &File, buf: &mut [u8], pass: Pass) -> Result<Pass, Verdict> {
    if pass.window.ended || pass.window.is_full(buf) {
        return Err(Verdict::Changed);
    }
    let window = pass
        .window
        .refill(Input::Opened(file), buf)
        .map_err(Verdict::Unreadable)?;
    Ok(Pass { window, ..pass })
}

// Of an accepted file; number 0 says how many records do not agree with their formula.
fn agreement(pass: Pass) -> Verdict {
    if pass.apart == 0 {
        return Verdict::Accepted {
            records: pass.records,
        };
    }
    Verdict::Refused {
        no: 0,
        line: pass.apart,
        column: 0,
    }
}

// The end of the second reading: what is gathered is written, and the first reading found as many records.
fn finish(pass: Pass, room: &[u8], records: usize) -> Verdict {
    match pass.out.flush(room).done {
        Ok(()) if pass.records == records => agreement(pass),
        Ok(()) => Verdict::Changed,
        Err(why) => Verdict::Unwritten(why),
    }
}

fn begin(system: &System, way: Way) -> Pass {
    Pass {
        way,
        window: Window::new(),
        records: 0,
        lines: 0,
        apart: 0,
        out: Out::new(system),
    }
}

// The second reading, to the file's end. Turns are counted so that the loop ends, and no run uses them up.
fn write_all(
    system: &System,
    way: Way,
    item: &[u8],
    file: &File,
    buf: &mut [u8],
    room: &mut [u8],
) -> Result<Pass, Verdict> {
    let mut atoms = [0i32; ATOMS];
    let mut bonds = [0i32; BONDS];
    let mut pass = begin(system, way);
    for _ in 0..u64::MAX {
        let s = pass.window.of(buf);
        match record::put_next(pass, item, s, room, &mut atoms, &mut bonds)? {
            Stepped::Next(next) => pass = next,
            Stepped::Done => return Ok(pass),
            Stepped::Short => pass = read_on(file, buf, pass)?,
        }
    }
    Err(Verdict::Endless)
}

fn write_records(
    system: &System,
    way: Way,
    item: &[u8],
    file: &File,
    buf: &mut [u8],
    room: &mut [u8],
    records: usize,
) -> Verdict {
    match write_all(system, way, item, file, buf, room) {
        Ok(pass) => finish(pass, room, records),
        Err(v) => v,
    }
}

// Lines of JSON leave the room in pieces.
fn write_lines(
    system: &System,
    way: Way,
    item: &[u8],
    file: &File,
    buf: &mut [u8; BUFFER],
    records: usize,
) -> Verdict {
    let mut room = io::large_buffer();
    write_records(system, way, item, file, buf, &mut room, records)
}

fn write_within(
    system: &System,
    way: Way,
    file: &File,
    buf: &mut [u8; BUFFER],
    room: &mut [u8; ROOM],
    records: usize,
) -> Verdict {
    write_records(system, way, b"", file, buf, room, records)
}

fn write_canon(
    system: &System,
    way: Way,
    file: &File,
    buf: &mut [u8; BUFFER],
    records: usize,
) -> Verdict {
    let mut room = [0u8; ROOM];
    write_within(system, way, file, buf, &mut room, records)
}

// Both readings.
fn write_judged(
    system: &System,
    way: Way,
    item: &[u8],
    file: &File,
    buf: &mut [u8; BUFFER],
) -> Verdict {
    let v = program_verdict::judge_first(system, file, way.sd, buf, way.progress);
    let Verdict::Accepted { records } = v else {
        return v;
    };
    match way.task {
        Task::Canon => write_canon(system, way, file, buf, records),
        _ => write_lines(system, way, item, file, buf, records),
    }
}

// An open file: judged, then written.
fn write_open(system: &System, way: Way, item: &[u8], file: &File) -> Verdict {
    let mut buf = [0u8; BUFFER];
    write_judged(system, way, item, file, &mut buf)
}

// A file by its name; its verdict is announced, and what failed is said on standard error.
fn write_file(system: &System, way: Way, item: &[u8], name: &[u8]) {
    let verdict = match system.open_read(name) {
        Ok(file) => write_open(system, way, item, &file),
        Err(why) => Verdict::Unreadable(why),
    };
    program_verdict::tell(system, name, verdict);
}

fn write_argument(system: &System, way: Way, item: &[u8], i: usize) {
    let mut name = io::buffer();
    match system.argument(i, &mut name) {
        Ok(n) => write_file(system, way, item, &name[..n]),
        Err(why) => program_verdict::tell(system, b"file name", Verdict::Unreadable(why)),
    }
}

fn write_arguments(system: &System, way: Way, item: &[u8], from: usize) {
    let count = system.argument_count();
    for i in from..count {
        write_argument(system, way, item, i);
    }
}

// The files that the arguments from `from` on name, perhaps after `--progress`.
pub fn run(system: &System, task: Task, sd: bool, item: &[u8], from: usize) {
    let progress = program_io::is_argument(system, from, b"--progress");
    let way = Way { task, sd, progress };
    if progress {
        write_arguments(system, way, item, from.saturating_add(1));
    } else {
        write_arguments(system, way, item, from);
    }
}
