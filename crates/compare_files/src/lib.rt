// Two SDfiles compared record by record: both are judged, the differences are counted, and then listed if the lent list has room for all of them.
#![tactic(auto)]

ghost use Rattle.std.specs.Prelude.{◌≡◌, ◌-◌, ◌^◌, ◌≤◌, ◌<◌, length};
ghost use Rattle.rules.specs.Record.{limit};
ghost use Rattle.judge_file.specs.Place.{sdfile};
ghost use Rattle.judge_file.specs.Verdict.{verdict};
ghost use Rattle.compare_rules.specs.Log.{log, noted, seen};
ghost use Rattle.compare_files.specs.Compare.{work, files_for, answer_by, list_by};
ghost use Rattle.compare_files.specs.Judging.{second_by, judged_by, short_by};
ghost use Rattle.compare_files.specs.Pair.{shape_of, Read, Ready, Paired, Kept};
ghost use Rattle.compare_files.specs.Walking.{GoodFiles, alone_records, Apart};
ghost use Rattle.compare_files.specs.Promise.{Rooms, Promise};

use compare_record::Numbers;
use compare_rules::{Count, Place};
use judge_file::TextRefusal;
use reader_cursor::Cursor;
use reader_record::RecordRead;
use rules::{ATOMS, BONDS};

// Both files, judged: the number of records of either.
#[derive(Drop)]
enum Judged {
    Good { old: usize, new: usize },
    Bad { no: u8, line: usize, column: usize },
}

// The second file, where the first has so many records.
fn judge_second(records: usize, new: &[u8]) -> Judged
    ensures { result ≡ second_by records (verdict sdfile limit new.now) }
{
    match reader_check::check(1, new) {
        Ok(more) => Judged::Good {
            old: records,
            new: more,
        },
        Err(
            TextRefusal {
                no: _,
                line,
                column,
            },
        ) => Judged::Bad {
            no: 37,
            line,
            column,
        },
    }
}

fn judge(old: &[u8], new: &[u8]) -> Judged
    ensures { result ≡ judged_by (verdict sdfile limit old.now) (verdict sdfile limit new.now) }
{
    match reader_check::check(1, old) {
        Ok(records) => judge_second(records, new),
        Err(
            TextRefusal {
                no: _,
                line,
                column,
            },
        ) => Judged::Bad {
            no: 36,
            line,
            column,
        },
    }
}

// The bytes and lines of a record.
#[derive(Drop)]
struct Taken {
    bytes: usize,
    lines: usize,
}

// A record that was read: its numbers, its bytes and lines, where its header lines end, and where its items stand.
#[derive(Drop)]
struct Shape {
    numbers: Numbers,
    taken: Taken,
    headers: usize,
    from: usize,
    to: usize,
}

// A reading as a shape; one that was refused has an empty one.
fn shape_of(x: RecordRead) -> Shape
    ensures { result ≡ shape_of x }
{
    match x {
        RecordRead::Read {
            n,
            m,
            chiral,
            length,
            lines,
            header_end,
            items_start,
            items_end,
        } => Shape {
            numbers: Numbers { n, m, chiral },
            taken: Taken {
                bytes: length,
                lines,
            },
            headers: header_end,
            from: items_start,
            to: items_end,
        },
        RecordRead::Refused {
            no: _,
            line: _,
            column: _,
        } => Shape {
            numbers: Numbers {
                n: 0,
                m: 0,
                chiral: 0,
            },
            taken: Taken { bytes: 0, lines: 0 },
            headers: 0,
            from: 0,
            to: 0,
        },
    }
}

// A record of either file, and the count with what differs between them.
#[derive(Drop)]
struct Pair {
    left: Taken,
    right: Taken,
    count: Count,
}

// Two records that were read from the fronts of two texts.
fn pair_read(
    list: &mut [i64],
    count: Count,
    position: usize,
    x: RecordRead,
    t: &[u8],
    ta: &[i32],
    tb: &[i32],
    y: RecordRead,
    u: &[u8],
    ua: &[i32],
    ub: &[i32],
) -> Pair
    requires { (position < 2 ^ 63) × Read x t.now ta.now tb.now × Read y u.now ua.now ub.now }
    ensures { Paired position t.now u.now (log list.old count) list.new result }
{
    let a = shape_of(x);
    let h = a.headers;
    let i = a.from;
    let j = a.to;
    let numbers = a.numbers;
    let left = a.taken;
    let b = shape_of(y);
    let k = b.headers;
    let l = b.from;
    let m = b.to;
    let others = b.numbers;
    let right = b.taken;
    let c = compare_record::records_apart(
        list,
        count,
        position,
        &t[0..h],
        numbers,
        ta,
        tb,
        &t[i..j],
        &u[0..k],
        others,
        ua,
        ub,
        &u[l..m],
    );
    Pair {
        left,
        right,
        count: c,
    }
}

// The records at the fronts of two texts, read and compared; `position` is their number.
fn pair_apart(
    t: &[u8],
    u: &[u8],
    ta: &mut [i32],
    tb: &mut [i32],
    ua: &mut [i32],
    ub: &mut [i32],
    list: &mut [i64],
    count: Count,
    position: usize,
) -> Pair
    requires { Ready position t.now u.now (work ta.old tb.old ua.old ub.old) }
    ensures paired { Paired position t.now u.now (log list.old count) list.new result }
    ensures kept { Kept (work ta.old tb.old ua.old ub.old) (work ta.new tb.new ua.new ub.new) }
{
    let x = reader_record::read_rows(true, t, ta, tb);
    let y = reader_record::read_rows(true, u, ua, ub);
    pair_read(list, count, position, x, t, ta, tb, y, u, ua, ub)
}

// Records after `from` up to `to`, which one file has alone.
#[tactic(auto, using(crate::specs::Walking::resting_laws))]
fn rest_records(list: &mut [i64], count: Count, from: usize, to: usize, side: u8) -> Count
    requires { (from ≤ to) × (to < 2 ^ 63) }
    ensures { log list.new result ≡ noted (log list.old count) (alone_records side from (to - from)) }
{
    let mut c = count;
    for k in from..to {
        let spot = Place {
            position: k + 1,
            part: 10,
            index: 0,
            field: 0,
        };
        c = compare_tables::put(list, c, spot, side, 0, 0);
    }
    c
}

// Two good files of n and m records.
fn files_apart(
    old: &[u8],
    n: usize,
    new: &[u8],
    m: usize,
    ta: &mut [i32],
    tb: &mut [i32],
    ua: &mut [i32],
    ub: &mut [i32],
    list: &mut [i64],
) -> Count
    requires { GoodFiles old.now n new.now m (work ta.old tb.old ua.old ub.old) }
    ensures apart { Apart old.now new.now (log list.old (seen 0)) (log list.new result) }
    ensures kept { Kept (work ta.old tb.old ua.old ub.old) (work ta.new tb.new ua.new ub.new) }
{
    let both = compare_tables::smaller(n, m);
    let mut a = Cursor::new();
    let mut b = Cursor::new();
    let mut c = Count { skip: 0, seen: 0 };
    // Two cursors jump by records of any length and count them: a `for` would count them a second time.
    while a.records < both {
        let i = a.at;
        let j = b.at;
        let pair = pair_apart(&old[i..], &new[j..], ta, tb, ua, ub, list, c, a.records + 1);
        let left = pair.left;
        let right = pair.right;
        a = a.past(left.bytes, left.lines);
        b = b.past(right.bytes, right.lines);
        c = pair.count;
    }
    let d = rest_records(list, c, both, n, 1);
    rest_records(list, d, both, m, 2)
}

// Two good files: counted first, so that nothing is listed where the list is too short.
fn list_files(
    old: &[u8],
    n: usize,
    new: &[u8],
    m: usize,
    ta: &mut [i32],
    tb: &mut [i32],
    ua: &mut [i32],
    ub: &mut [i32],
    list: &mut [i64],
) -> Result<usize, TextRefusal>
    requires { GoodFiles old.now n new.now m (work ta.old tb.old ua.old ub.old) }
    ensures value { result ≡ answer_by (files_for old.now new.now (length list.old)) }
    ensures list_after { list.new ≡ list_by list.old (files_for old.now new.now (length list.old)) }
    ensures kept { Kept (work ta.old tb.old ua.old ub.old) (work ta.new tb.new ua.new ub.new) }
{
    let mut none = [0i64; 1];
    let counted = files_apart(old, n, new, m, ta, tb, ua, ub, &mut none);
    if list.len() / 7 < counted.seen {
        return Err(TextRefusal {
            no: 39,
            line: 0,
            column: 0,
        });
    }
    let listed = files_apart(old, n, new, m, ta, tb, ua, ub, list);
    Ok(listed.seen)
}

// Two files, with work tables that have room.
fn compare_judged(
    old: &[u8],
    new: &[u8],
    ta: &mut [i32],
    tb: &mut [i32],
    ua: &mut [i32],
    ub: &mut [i32],
    list: &mut [i64],
) -> Result<usize, TextRefusal>
    requires { Rooms (work ta.old tb.old ua.old ub.old) }
    ensures value { result ≡ answer_by (files_for old.now new.now (length list.old)) }
    ensures list_after { list.new ≡ list_by list.old (files_for old.now new.now (length list.old)) }
    ensures kept { Kept (work ta.old tb.old ua.old ub.old) (work ta.new tb.new ua.new ub.new) }
{
    match judge(old, new) {
        Judged::Good { old: n, new: m } => list_files(old, n, new, m, ta, tb, ua, ub, list),
        Judged::Bad { no, line, column } => Err(TextRefusal { no, line, column }),
    }
}

// Whether one of the work tables has no room, by their lengths.
fn is_short(ta: usize, tb: usize, ua: usize, ub: usize) -> bool
    ensures { result ≡ short_by ta tb ua ub }
{
    if ta < ATOMS {
        return true;
    }
    if tb < BONDS {
        return true;
    }
    if ua < ATOMS {
        return true;
    }
    ub < BONDS
}

// What differs between two SDfiles, seven numbers a difference at the front of the list; after a refusal nothing is written to it. The work tables, atoms
// and bonds of either file, are empty in the end.
pub fn compare_files(
    old: &[u8],
    new: &[u8],
    ta: &mut [i32],
    tb: &mut [i32],
    ua: &mut [i32],
    ub: &mut [i32],
    list: &mut [i64],
) -> Result<usize, TextRefusal>
    ensures { Promise old.now new.now (work ta.old tb.old ua.old ub.old) list.old result (work ta.new tb.new ua.new ub.new) list.new }
{
    if is_short(ta.len(), tb.len(), ua.len(), ub.len()) {
        return Err(TextRefusal {
            no: 2,
            line: 0,
            column: 0,
        });
    }
    let answer = compare_judged(old, new, ta, tb, ua, ub, list);
    reader_clear::zero_rows(ta, 0, ATOMS);
    reader_clear::zero_rows(tb, 0, BONDS);
    reader_clear::zero_rows(ua, 0, ATOMS);
    reader_clear::zero_rows(ub, 0, BONDS);
    answer
}
