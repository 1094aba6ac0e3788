// Two records compared: header lines, counts, tables, items.
#![tactic(auto)]

ghost use Rattle.std.specs.Prelude.{◌≡◌, ◌-◌, ◌*◌, ◌≤◌, ◌<◌, ◌^◌, length, take, drop};
ghost use Rattle.rules.specs.Rows.{rows_of};
ghost use Rattle.compare_rules.specs.Along.{along};
ghost use Rattle.compare_rules.specs.Differences.{place, texts, rowwise, headers_apart, records_apart};
ghost use Rattle.compare_rules.specs.Log.{log, noted, Small};
ghost use Rattle.compare_record.specs.Numbers.{SmallNumbers, counts_of};
ghost use Rattle.compare_record.specs.Heads.{HeadAt, headers_of, reading_of};

use compare_rules::{Count, Place};
use text::LineAt;

// The numbers of a counts line.
#[derive(Clone, Copy)]
pub struct Numbers {
    pub n: u32,
    pub m: u32,
    pub chiral: u32,
}

// Counts and chiral.
fn counts_apart(list: &mut [i64], count: Count, position: usize, x: Numbers, y: Numbers) -> Count
    requires { (position < 2 ^ 63) × SmallNumbers x × SmallNumbers y }
    ensures { log list.new result ≡ noted (log list.old count) (counts_of position x y) }
{
    let p = Place {
        position,
        part: 2,
        index: 0,
        field: 0,
    };
    let a = compare_tables::figures(list, count, p, x.n as i32, y.n as i32);
    let q = Place {
        position,
        part: 3,
        index: 0,
        field: 0,
    };
    let b = compare_tables::figures(list, a, q, x.m as i32, y.m as i32);
    let r = Place {
        position,
        part: 4,
        index: 0,
        field: 0,
    };
    compare_tables::figures(list, b, r, x.chiral as i32, y.chiral as i32)
}

// One table of either record, so many numbers a row, up to the smaller count.
fn rows_apart(
    list: &mut [i64],
    count: Count,
    p: Place,
    a: &[i32],
    n: u32,
    b: &[i32],
    m: u32,
    width: usize,
) -> Count
    requires { Small p × (width * n ≤ length a.now) × (width * m ≤ length b.now) }
    ensures { log list.new result ≡ noted (log list.old count) (along (rowwise p.position p.part) 1 (rows_of width n a.now) (rows_of width m b.now)) }
{
    let k = compare_tables::smaller(n as usize, m as usize);
    compare_tables::table_apart(list, count, p, a, b, width, k)
}

// A line, and where the next one starts.
#[derive(Drop)]
struct Head {
    end: usize,
    next: usize,
}

// The line at a position; an empty one where there is none.
fn head_at(s: &[u8], at: usize) -> Head
    requires { at ≤ length s.now }
    ensures { HeadAt s.now at result }
{
    match text::line_at(s, at) {
        LineAt::Line { end, next } => Head { end, next },
        LineAt::Unfinished => Head { end: at, next: at },
    }
}

// Header line `index`: a line of either part.
fn line_apart(
    list: &mut [i64],
    count: Count,
    position: usize,
    index: usize,
    a: &[u8],
    i: usize,
    e: usize,
    b: &[u8],
    j: usize,
    f: usize,
) -> Count
    requires { (position < 2 ^ 63) × (index < 2 ^ 63) × (i ≤ e) × (e ≤ length a.now) × (j ≤ f) × (f ≤ length b.now) }
    ensures { log list.new result ≡ noted (log list.old count) (texts (place position 1 index 0) (take (e - i) (drop i a.now)) (take (f - j) (drop j b.now))) }
{
    let p = Place {
        position,
        part: 1,
        index,
        field: 0,
    };
    compare_items::texts(list, count, p, &a[i..e], &b[j..f])
}

// The three header lines of two records, given as the parts that hold them.
fn headers_apart(list: &mut [i64], count: Count, position: usize, a: &[u8], b: &[u8]) -> Count
    requires { position < 2 ^ 63 }
    ensures { log list.new result ≡ noted (log list.old count) (headers_apart position (headers_of a.now) (headers_of b.now)) }
{
    let x = head_at(a, 0);
    let y = head_at(b, 0);
    let c = line_apart(list, count, position, 1, a, 0, x.end, b, 0, y.end);
    let u = head_at(a, x.next);
    let v = head_at(b, y.next);
    let d = line_apart(list, c, position, 2, a, x.next, u.end, b, y.next, v.end);
    let s = head_at(a, u.next);
    let t = head_at(b, v.next);
    line_apart(list, d, position, 3, a, u.next, s.end, b, v.next, t.end)
}

// Two records: parts that hold their header lines and items, counts, tables of atoms and bonds.
pub fn records_apart(
    list: &mut [i64],
    count: Count,
    position: usize,
    ha: &[u8],
    x: Numbers,
    ta: &[i32],
    tb: &[i32],
    ia: &[u8],
    hb: &[u8],
    y: Numbers,
    ua: &[i32],
    ub: &[i32],
    ib: &[u8],
) -> Count
    requires position_bound { (position < 2 ^ 63) × SmallNumbers x × SmallNumbers y }
    requires n_in_bounds { (16 * x.n ≤ length ta.now) × (6 * x.m ≤ length tb.now) × (16 * y.n ≤ length ua.now) × (6 * y.m ≤ length ub.now) }
    ensures { log list.new result ≡ noted (log list.old count) (records_apart position (reading_of ha.now x ta.now tb.now ia.now) (reading_of hb.now y ua.now ub.now ib.now)) }
{
    let c = headers_apart(list, count, position, ha, hb);
    let d = counts_apart(list, c, position, x, y);
    let p = Place {
        position,
        part: 5,
        index: 0,
        field: 0,
    };
    let e = rows_apart(list, d, p, ta, x.n, ua, y.n, 16);
    let q = Place {
        position,
        part: 6,
        index: 0,
        field: 0,
    };
    let f = rows_apart(list, e, q, tb, x.m, ub, y.m, 6);
    compare_items::items_apart(list, f, position, ia, ib)
}
