// A file judged as it is read, and what is said of it.
#![tactic(auto)]

mod say;

ghost use Rattle.std.specs.Prelude.{◌<◌, length};

use judge_file::TextRefusal;
use program_io::{Input, Reason, System, Target, Text};
use reader_feed::{Counter, Fed};
pub use say::{is_judged, report, tell};
use std::fs::File;
use std::ops::ControlFlow;

// Refusals that are told apart, by the numbers that C reads, too: a record is cut short; the room is; an item is not
// there, or something is wrong with its text.
pub const CUT_SHORT: u8 = 19;

pub const SHORT_ROOM: u8 = 20;

pub const NO_SUCH_ITEM: u8 = 22;

#[derive(Clone, Copy)]
pub enum Verdict {
    Accepted { records: usize },
    Refused { no: u8, line: usize, column: usize },
    TooLong { record: usize },
    // It was not opened, or a read failed.
    Unreadable(Reason),
    // More input than turns are counted for.
    Endless,
    // What cannot be read a second time, as a pipe.
    Once,
    // Accepted at the first reading and not at the second.
    Changed,
    // A write failed.
    Unwritten(Reason),
    // The canonical text of a record does not fit the room for it.
    NoRoom,
}

// The place in a file that is judged: records and lines so far, bytes kept at the front of the buffer, bytes done with.
#[derive(Clone, Copy)]
struct Place {
    counter: Counter,
    kept: usize,
    done: u64,
}

// One line of progress for so many bytes.
const STRIDE: u64 = 16777216;

// So many mebibytes are read.
fn write_progress(system: &System, mebibytes: u64) {
    let text = Text::new().print(format_args!("{mebibytes} MiB read\n"));
    let _ = text.write(system, Target::Errors);
}

// A line of progress where a stride is passed between the two counts of bytes.
pub fn note_passed(system: &System, progress: bool, before: u64, after: u64) {
    if progress && before / STRIDE < after / STRIDE {
        write_progress(system, after / STRIDE * 16);
    }
}

// What the counter says of a part: itself and how many bytes it is done with, or the verdict.
fn tell_part(
    counter: Counter,
    part: &[u8],
    ended: bool,
    room: usize,
) -> ControlFlow<Verdict, (Counter, usize)> {
    match counter.take(part, ended, room) {
        Fed::More { counter, used } => ControlFlow::Continue((counter, used)),
        Fed::Accepted { records } => ControlFlow::Break(Verdict::Accepted { records }),
        Fed::Refused { no, line, column } => ControlFlow::Break(Verdict::Refused {
            no,
            line,
            column,
        }),
        Fed::TooLong { record } => ControlFlow::Break(Verdict::TooLong { record }),
    }
}

// The buffer holds n bytes. Its last byte stands beside what is judged: it only tells that input follows.
fn judge_part(buf: &mut [u8], n: usize, place: Place) -> ControlFlow<Verdict, Place>
    requires { 0 < length buf.old }
{
    let room = buf.len() - 1;
    let part = program_io::front(buf, n.min(room));
    let (counter, used) = tell_part(place.counter, part, n <= room, room)?;
    ControlFlow::Continue(Place {
        counter,
        kept: program_io::keep(buf, used, n),
        done: place.done.saturating_add(used as u64),
    })
}

// The buffer filled once, and judged.
fn take_turn(
    system: &System,
    input: Input<'_>,
    buf: &mut [u8],
    progress: bool,
    place: Place,
) -> ControlFlow<Verdict, Place>
    requires { 0 < length buf.old }
{
    let kept = place.kept;
    let done = place.done;
    match program_io::fill(input, buf, kept) {
        Ok(n) => {
            note_passed(
                system,
                progress,
                done.saturating_add(kept as u64),
                done.saturating_add(n as u64),
            );
            judge_part(buf, n, place)
        }
        Err(why) => ControlFlow::Break(Verdict::Unreadable(why)),
    }
}

// An SDfile, with a buffer of one byte less than is lent. Turns are counted so that the loop ends, and no run uses them up.
fn judge_records(system: &System, input: Input<'_>, buf: &mut [u8], progress: bool) -> Verdict
    requires { 0 < length buf.old }
{
    let mut place = Place {
        counter: Counter::new(),
        kept: 0,
        done: 0,
    };
    for _ in 0..u64::MAX {
        match take_turn(system, input, buf, progress, place) {
            ControlFlow::Continue(next) => place = next,
            ControlFlow::Break(v) => return v,
        }
    }
    Verdict::Endless
}

// A molfile that is wholly there.
fn molfile_whole(s: &[u8]) -> Verdict {
    match reader_check::check(0, s) {
        Ok(records) => Verdict::Accepted { records },
        Err(TextRefusal { no, line, column }) => Verdict::Refused { no, line, column },
    }
}

// The beginning of a molfile by what was said of it alone: a refused line is refused whatever follows.
fn begun(v: Verdict) -> Verdict {
    match v {
        Verdict::Refused { no, .. } if no != CUT_SHORT => v,
        _ => Verdict::TooLong { record: 1 },
    }
}

fn judge_molfile(input: Input<'_>, buf: &mut [u8]) -> Verdict
    requires { 0 < length buf.old }
{
    let room = buf.len() - 1;
    match program_io::fill(input, buf, 0) {
        Ok(n) if n <= room => molfile_whole(program_io::front(buf, n)),
        Ok(_) => begun(molfile_whole(program_io::front(buf, room))),
        Err(why) => Verdict::Unreadable(why),
    }
}

// A file of either kind, with a buffer of one byte less than is lent.
pub fn judge(
    system: &System,
    input: Input<'_>,
    sd: bool,
    buf: &mut [u8],
    progress: bool,
) -> Verdict {
    if buf.is_empty() {
        return Verdict::TooLong { record: 1 };
    }
    if sd {
        return judge_records(system, input, buf, progress);
    }
    judge_molfile(input, buf)
}

// The first of two readings of an open file, after which it stands at its start again. What has no place to go back to, as a pipe, is not read at all.
pub fn judge_first(
    system: &System,
    file: &File,
    sd: bool,
    buf: &mut [u8],
    progress: bool,
) -> Verdict {
    if !program_io::has_place(file) {
        return Verdict::Once;
    }
    let v = judge(system, Input::Opened(file), sd, buf, progress);
    if !program_io::go_back(file) {
        return Verdict::Once;
    }
    v
}
