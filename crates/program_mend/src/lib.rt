// An SDfile of any length mended record by record, in constant memory. It is judged whole at a first reading, so nothing is written of a refused one.
#![tactic(auto)]

mod cut;
mod list;

use cut::{LIST, ROOM};
use list::Repair;
use mend_file::Mended;
use program_io::{Input, System, Target, Window};
use program_verdict::Verdict;
use std::fs::File;
use std::ops::ControlFlow;

// Bytes of a record, or of the blank lines at the end of a file.
const BUFFER: usize = 1048577;

// A reading, the first or the one that writes: records, lines of the file and lines of the mended text so far.
#[derive(Clone, Copy)]
struct Pass {
    writing: bool,
    window: Window,
    records: usize,
    lines: u64,
    out_lines: u64,
}

impl Pass {
    fn new(writing: bool) -> Pass {
        Pass {
            writing,
            window: Window::new(),
            records: 0,
            lines: 0,
            out_lines: 0,
        }
    }

    fn count(self) -> usize {
        self.records.saturating_add(1)
    }

    // Behind a record of these bytes and this text.
    fn past(self, came: &[u8], text: &[u8]) -> Pass {
        Pass {
            window: self.window.past(came.len()),
            records: self.count(),
            lines: self.lines.saturating_add(list::lines_in(came)),
            out_lines: self.out_lines.saturating_add(list::ends_in(text)),
            ..self
        }
    }

    // A refusal of the record, its line counted in the whole mended text.
    fn refuse(self, no: u8, line: usize, column: usize) -> Verdict {
        if line == 0 {
            return Verdict::Refused { no, line, column };
        }
        let whole = self.out_lines.saturating_add(line as u64);
        Verdict::Refused {
            no,
            line: whole as usize,
            column,
        }
    }
}

// A mended record: at the second reading its repairs are told and its text is written.
fn emit(
    system: &System,
    name: &[u8],
    pass: Pass,
    came: &[u8],
    text: &[u8],
    repairs: &[u64; LIST],
    count: usize,
) -> ControlFlow<Verdict, Pass> {
    if pass.writing {
        list::say_all(system, name, pass.lines, repairs, count);
        if let Err(why) = system.write(Target::Output, text) {
            return ControlFlow::Break(Verdict::Unwritten(why));
        }
    }
    ControlFlow::Continue(pass.past(came, text))
}

// What mending the record of these bytes came to; its text stands in the room.
fn take_mended(
    system: &System,
    name: &[u8],
    pass: Pass,
    came: &[u8],
    room: &[u8; ROOM],
    repairs: &[u64; LIST],
    mended: Mended,
) -> ControlFlow<Verdict, Pass> {
    match mended {
        Mended::Done {
            length,
            repairs: count,
        } => emit(
            system,
            name,
            pass,
            came,
            program_io::front(room, length),
            repairs,
            count,
        ),
        Mended::Refused { no, line, column } => ControlFlow::Break(pass.refuse(no, line, column)),
    }
}

// More is read behind what there is of the record.
fn refill(file: &File, buf: &mut [u8; BUFFER], pass: Pass) -> ControlFlow<Verdict, Pass> {
    if pass.window.is_full(buf) {
        return ControlFlow::Break(Verdict::TooLong {
            record: pass.count(),
        });
    }
    match pass.window.refill(Input::Opened(file), buf) {
        Ok(window) => ControlFlow::Continue(Pass { window, ..pass }),
        Err(why) => ControlFlow::Break(Verdict::Unreadable(why)),
    }
}

// Whether only blank lines are left, none of them whole perhaps. A line has at least one byte, so the bytes are more turns than are needed.
// A `while`, since it goes by pieces: a `for` would count turns that nothing needs.
#[tactic(auto, using(mend_lines::specs::Deeds::scan_less))]
fn is_blank(s: &[u8]) -> bool {
    let mut at: usize = 0;
    while at < s.len() {
        let p = mend_lines::piece_at(s, at);
        if text::is_blank(program_json::part(s, at, p.end)) {
            at = p.next;
        } else {
            return false;
        }
    }
    true
}

// So many blank lines at the end of the file are dropped.
fn drop_lines(system: &System, name: &[u8], before: u64, count: u64) {
    for k in 0..count {
        list::say(system, name, before.saturating_add(k + 1), Repair::Dropped);
    }
}

// The blank lines after the last record.
fn drop_tail(system: &System, name: &[u8], pass: Pass, s: &[u8]) -> Verdict {
    if pass.writing {
        drop_lines(system, name, pass.lines, list::lines_in(s));
    }
    Verdict::Accepted {
        records: pass.records,
    }
}

// What is left of a file that has ended, with no `$$$$` line that ends a record.
fn take_last(
    system: &System,
    name: &[u8],
    pass: Pass,
    s: &[u8],
    room: &mut [u8; ROOM],
    repairs: &mut [u64; LIST],
) -> ControlFlow<Verdict, Pass> {
    let mended = mend_file::mend_file(s, room, repairs);
    take_mended(system, name, pass, s, room, repairs, mended)
}

fn take_rest(
    system: &System,
    name: &[u8],
    pass: Pass,
    s: &[u8],
    room: &mut [u8; ROOM],
    repairs: &mut [u64; LIST],
) -> ControlFlow<Verdict, Pass> {
    if s.is_empty() {
        return ControlFlow::Break(Verdict::Accepted {
            records: pass.records,
        });
    }
    if pass.records == 0 {
        return take_last(system, name, pass, s, room, repairs);
    }
    if is_blank(s) {
        return ControlFlow::Break(drop_tail(system, name, pass, s));
    }
    take_last(system, name, pass, s, room, repairs)
}

// What the bytes in the buffer come to, where they are not all there is of a record.
fn take_short(
    system: &System,
    name: &[u8],
    file: &File,
    buf: &mut [u8; BUFFER],
    room: &mut [u8; ROOM],
    repairs: &mut [u64; LIST],
    pass: Pass,
) -> ControlFlow<Verdict, Pass> {
    if pass.window.ended {
        let s = pass.window.of(buf);
        return take_rest(system, name, pass, s, room, repairs);
    }
    refill(file, buf, pass)
}

// The next record.
fn take_turn(
    system: &System,
    name: &[u8],
    file: &File,
    buf: &mut [u8; BUFFER],
    room: &mut [u8; ROOM],
    repairs: &mut [u64; LIST],
    pass: Pass,
) -> ControlFlow<Verdict, Pass> {
    let s = pass.window.of(buf);
    match cut::try_record(s, room, repairs) {
        Some((end, mended)) => {
            let came = program_io::front(s, end);
            take_mended(system, name, pass, came, room, repairs, mended)
        }
        None => take_short(system, name, file, buf, room, repairs, pass),
    }
}

// One reading. Turns are counted so that the loop ends, and no run uses them up.
fn read_through(
    system: &System,
    name: &[u8],
    file: &File,
    buf: &mut [u8; BUFFER],
    room: &mut [u8; ROOM],
    repairs: &mut [u64; LIST],
    begun: Pass,
) -> Verdict {
    let mut pass = begun;
    for _ in 0..u64::MAX {
        match take_turn(system, name, file, buf, room, repairs, pass) {
            ControlFlow::Continue(next) => pass = next,
            ControlFlow::Break(v) => return v,
        }
    }
    Verdict::Endless
}

// What was accepted at the first reading and is not at the second has changed.
fn settled(v: Verdict) -> Verdict {
    match v {
        Verdict::Refused { .. } | Verdict::TooLong { .. } => Verdict::Changed,
        _ => v,
    }
}

// A reading from the file's start.
fn read_whole(system: &System, name: &[u8], file: &File, writing: bool) -> Verdict {
    let mut buf = [0u8; BUFFER];
    let mut room = [0u8; ROOM];
    let mut repairs = [0u64; LIST];
    let begun = Pass::new(writing);
    read_through(system, name, file, &mut buf, &mut room, &mut repairs, begun)
}

// Both readings of an open file.
fn mend_open(system: &System, name: &[u8], file: &File) -> Verdict {
    if !program_io::has_place(file) {
        return Verdict::Once;
    }
    let first = read_whole(system, name, file, false);
    if !program_io::go_back(file) {
        return Verdict::Once;
    }
    match first {
        Verdict::Accepted { .. } => settled(read_whole(system, name, file, true)),
        _ => first,
    }
}

fn mend_named(system: &System, path: &[u8], name: &[u8]) {
    let verdict = match system.open_read(path) {
        Ok(file) => mend_open(system, name, &file),
        Err(why) => Verdict::Unreadable(why),
    };
    program_verdict::tell(system, name, verdict);
}

// Argument 2 is the name that is said, where there is one.
fn mend_at(system: &System, path: &[u8]) {
    let mut name = io::buffer();
    match system.argument(2, &mut name) {
        Ok(n) => mend_named(system, path, &name[..n]),
        Err(_) => mend_named(system, path, path),
    }
}

// The file that argument 1 names: its mended text on standard output, its repairs on standard error.
pub fn run(system: &System) {
    let mut path = io::buffer();
    match system.argument(1, &mut path) {
        Ok(n) => mend_at(system, &path[..n]),
        Err(why) => program_verdict::tell(system, b"file name", Verdict::Unreadable(why)),
    }
}
