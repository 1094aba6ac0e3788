// Two SDfiles held against each other, record by record, in constant memory: every difference in a line, or the first record that differs. Both are
// judged first, so nothing is said of a refused one.
#![tactic(auto)]

mod source;

ghost use Rattle.std.specs.Prelude.{◌≡◌, true, length, ◌*◌, ◌≤◌, ◌<◌, ◌^◌};
ghost use Rattle.program_compare.specs.Fitting.{Fitting};

use compare_record::Numbers;
use compare_rules::Count;
use program_compare_lines::{Part, ROOM, Row, Side, Spot, Told, Way};
use program_io::{Out, System, Target, Text, Window};
use program_json_rows::{ATOMS, BONDS};
use program_verdict::Verdict;
use source::{BUFFER, Shape};
use std::fs::File;

// So many differences are listed at a time: a pair of records that has more is compared again, and those written are passed over.
const WINDOW: usize = 4096;

const LIST: usize = 7 * WINDOW;

// What is written, the number of differences, and of places where the files differ; how many places there are.
#[derive(Clone, Copy)]
struct Sum {
    out: Out,
    differences: u64,
    places: u64,
    records: u64,
}

impl Sum {
    // One place more, with so many differences.
    fn with(self, out: Out, differences: u64) -> Sum {
        Sum {
            out,
            differences: self.differences.saturating_add(differences),
            places: self.places.saturating_add(u64::from(0 < differences)),
            records: self.records.saturating_add(1),
        }
    }
}

// ---- A pair of records

// Whether a record's numbers are those of a reading, and its rows stand in tables of these lengths.
#[tactic(auto, using(crate::specs::Fitting::not_fitting, crate::specs::Fitting::fitting))]
fn is_fitting(x: Numbers, ta: usize, tb: usize) -> bool
    ensures { result ≡ true → Fitting x ta tb }
{
    if 2147483647 < x.n {
        return false;
    }
    if 2147483647 < x.m {
        return false;
    }
    if 1 < x.chiral {
        return false;
    }
    if ta < 16 * (x.n as usize) {
        return false;
    }
    if tb < 6 * (x.m as usize) {
        return false;
    }
    true
}

// A record as it is held against another: its header lines and items, its numbers, the tables that have its rows.
#[derive(Clone, Copy)]
struct Record<'a> {
    headers: &'a [u8],
    items: &'a [u8],
    numbers: Numbers,
    atoms: &'a [i32],
    bonds: &'a [i32],
}

impl Record<'_> {
    fn is_fitting(self) -> bool
        ensures { result ≡ true → Fitting self.entry.numbers (length self.entry.atoms.now) (length self.entry.bonds.now) }
    {
        is_fitting(self.numbers, self.atoms.len(), self.bonds.len())
    }
}

// What differs between two records, so many passed over.
#[tactic(auto, using(crate::specs::Fitting::fit_laws))]
fn list_apart(list: &mut [i64], skip: usize, position: usize, old: Record, new: Record) -> Count {
    let count = Count { skip, seen: 0 };
    if 9223372036854775807 < position || !old.is_fitting() || !new.is_fitting() {
        return count;
    }
    compare_record::records_apart(
        list,
        count,
        position,
        old.headers,
        old.numbers,
        old.atoms,
        old.bonds,
        old.items,
        new.headers,
        new.numbers,
        new.atoms,
        new.bonds,
        new.items,
    )
}

// How many differences of a pair are told, where there are so many.
fn rows_of(way: Way, seen: usize) -> usize {
    if way.first {
        return seen.min(1);
    }
    seen
}

// A record that one file alone has, and which.
fn put_alone(sum: Sum, room: &mut [u8; ROOM], way: Way, side: Side, headers: &[u8]) -> Sum {
    let row = Row {
        record: sum.records.saturating_add(1),
        part: Part::Record,
        place: 0,
        field: 0,
        side: Some(side),
        left: 0,
        right: 0,
    };
    let begun = sum.out;
    let out = program_compare_lines::put_plain(begun, room, way, row, headers);
    sum.with(out, 1)
}

// The differences of a pair of records, window after window. Turns are counted so that the loop ends, and no run uses
// them up.
fn put_pair(
    sum: Sum,
    room: &mut [u8; ROOM],
    list: &mut [i64; LIST],
    way: Way,
    old: Record,
    new: Record,
) -> Sum {
    let position = sum.records.saturating_add(1) as usize;
    let mut told = Told {
        out: sum.out,
        old: Spot::new(),
        new: Spot::new(),
    };
    let mut skip: usize = 0;
    for _ in 0..u64::MAX {
        let count = list_apart(list, skip, position, old, new);
        let rows = rows_of(way, count.seen);
        told = program_compare_lines::put_rows(
            told,
            room,
            way,
            list,
            rows,
            old.headers,
            old.items,
            new.headers,
            new.items,
        );
        if rows <= WINDOW {
            return sum.with(told.out, skip.saturating_add(rows) as u64);
        }
        skip = skip.saturating_add(WINDOW);
    }
    sum.with(told.out, skip as u64)
}

// ---- Two files

fn record_of<'a>(
    s: &'a [u8],
    shape: Shape,
    atoms: &'a [i32; ATOMS],
    bonds: &'a [i32; BONDS],
) -> Record<'a> {
    Record {
        headers: source::headers_of(s, shape),
        items: source::items_of(s, shape),
        numbers: shape.numbers,
        atoms,
        bonds,
    }
}

// Which file could not be read to its end as it was judged, and why.
#[derive(Drop)]
enum Failed {
    First(Verdict),
    Second(Verdict),
}

// Whether the walk need not go on, after so many places where the files differ.
fn is_enough(way: Way, places: u64) -> bool {
    way.first && places > 0
}

// The second reading of both, from their starts. Turns are counted so that the loop ends, and no run uses them up.
fn hold(
    system: &System,
    first: &File,
    second: &File,
    way: Way,
    left: &mut [u8; BUFFER],
    right: &mut [u8; BUFFER],
    room: &mut [u8; ROOM],
) -> Result<Sum, Failed> {
    let mut list = [0i64; LIST];
    let mut ta = [0i32; ATOMS];
    let mut tb = [0i32; BONDS];
    let mut ua = [0i32; ATOMS];
    let mut ub = [0i32; BONDS];
    let mut a = Window::new();
    let mut b = Window::new();
    let mut sum = Sum {
        out: Out::new(system),
        differences: 0,
        places: 0,
        records: 0,
    };
    for _ in 0..u64::MAX {
        let l = source::next(&mut a, first, left, &mut ta, &mut tb).map_err(Failed::First)?;
        let r = source::next(&mut b, second, right, &mut ua, &mut ub).map_err(Failed::Second)?;
        sum = match (l, r) {
            (None, None) => return Ok(sum),
            (Some(x), None) => {
                let s = source::bytes_of(left, x);
                put_alone(sum, room, way, Side::Old, source::headers_of(s, x))
            }
            (None, Some(y)) => {
                let u = source::bytes_of(right, y);
                put_alone(sum, room, way, Side::New, source::headers_of(u, y))
            }
            (Some(x), Some(y)) => {
                let s = source::bytes_of(left, x);
                let u = source::bytes_of(right, y);
                let old = record_of(s, x, &ta, &tb);
                let new = record_of(u, y, &ua, &ub);
                put_pair(sum, room, &mut list, way, old, new)
            }
        };
        if sum.out.is_cut() || is_enough(way, sum.places) {
            return Ok(sum);
        }
    }
    Err(Failed::First(Verdict::Endless))
}

// ---- What is said in the end

// What people are told besides.
fn summary(sum: Sum) -> Row {
    Row {
        record: sum.records,
        part: if sum.differences == 0 {
            Part::Same
        } else {
            Part::Sums
        },
        place: sum.places,
        field: sum.differences,
        side: None,
        left: 0,
        right: 0,
    }
}

// What programs read of it: the number of differences, or of the first record that differs.
fn announced(sum: Sum, way: Way) -> Text {
    if sum.differences == 0 {
        return Text::new().print("same\n");
    }
    let number = if way.first {
        sum.records
    } else {
        sum.differences
    };
    Text::new().print(format_args!("differ {number}\n"))
}

fn put_summary(sum: Sum, room: &mut [u8; ROOM], way: Way) -> Out {
    let out = sum.out;
    if way.json || way.first {
        return out;
    }
    program_compare_lines::put_plain(out, room, way, summary(sum), b"")
}

fn conclude(system: &System, sum: Sum, room: &mut [u8; ROOM], way: Way) {
    let told = put_summary(sum, room, way);
    match told.flush(room).done {
        Ok(()) => {
            let _ = announced(sum, way).write(system, Target::Channel);
        }
        Err(why) => program_verdict::tell(system, b"", Verdict::Unwritten(why)),
    }
}

// ---- What is asked

// A file's verdict, told; whether it is accepted.
fn is_accepted(system: &System, name: &[u8], v: Verdict) -> bool {
    program_verdict::tell(system, name, v);
    matches!(v, Verdict::Accepted { .. })
}

fn hold_accepted(
    system: &System,
    first: &[u8],
    second: &[u8],
    old: &File,
    new: &File,
    way: Way,
    left: &mut [u8; BUFFER],
    right: &mut [u8; BUFFER],
) {
    let mut room = [0u8; ROOM];
    match hold(system, old, new, way, left, right, &mut room) {
        Ok(sum) => conclude(system, sum, &mut room, way),
        Err(Failed::First(v)) => program_verdict::tell(system, first, v),
        Err(Failed::Second(v)) => program_verdict::tell(system, second, v),
    }
}

fn hold_judged(
    system: &System,
    first: &[u8],
    second: &[u8],
    old: &File,
    new: &File,
    way: Way,
    left: &mut [u8; BUFFER],
    right: &mut [u8; BUFFER],
) {
    let v = program_verdict::judge_first(system, old, true, left, way.progress);
    if is_accepted(system, first, v) {
        let w = program_verdict::judge_first(system, new, true, right, way.progress);
        if is_accepted(system, second, w) {
            hold_accepted(system, first, second, old, new, way, left, right);
        }
    }
}

fn hold_open(system: &System, first: &[u8], second: &[u8], old: &File, new: &File, way: Way) {
    let mut left = [0u8; BUFFER];
    let mut right = [0u8; BUFFER];
    hold_judged(system, first, second, old, new, way, &mut left, &mut right);
}

// The second file behind the first, which is open.
fn hold_second(system: &System, first: &[u8], second: &[u8], old: &File, way: Way) {
    match system.open_read(second) {
        Ok(new) => hold_open(system, first, second, old, &new, way),
        Err(why) => program_verdict::tell(system, second, Verdict::Unreadable(why)),
    }
}

fn hold_files(system: &System, first: &[u8], second: &[u8], way: Way) {
    match system.open_read(first) {
        Ok(old) => hold_second(system, first, second, &old, way),
        Err(why) => program_verdict::tell(system, first, Verdict::Unreadable(why)),
    }
}

fn hold_named(system: &System, i: usize, j: usize, way: Way) {
    let mut first = io::buffer();
    match system.argument(i, &mut first) {
        Ok(n) => {
            let mut second = io::buffer();
            match system.argument(j, &mut second) {
                Ok(m) => {
                    let old = program_io::front(&first, n);
                    hold_files(system, old, program_io::front(&second, m), way);
                }
                Err(why) => {
                    program_verdict::tell(system, b"file name", Verdict::Unreadable(why));
                }
            }
        }
        Err(why) => program_verdict::tell(system, b"file name", Verdict::Unreadable(why)),
    }
}

// Perhaps `--json`, then the names of two files: what differs between them.
pub fn compare(system: &System) {
    let json = program_io::is_argument(system, 2, b"--json");
    let way = Way {
        json,
        first: false,
        progress: false,
    };
    if json {
        hold_named(system, 3, 4, way);
    } else {
        hold_named(system, 2, 3, way);
    }
}

// Perhaps `--progress`, then the names of two files: whether they have the same reading.
pub fn same(system: &System) {
    let progress = program_io::is_argument(system, 2, b"--progress");
    let way = Way {
        json: false,
        first: true,
        progress,
    };
    if progress {
        hold_named(system, 3, 4, way);
    } else {
        hold_named(system, 2, 3, way);
    }
}
