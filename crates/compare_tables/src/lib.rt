// What differs, as rows of seven numbers in a lent list: figures, rows and tables compared.
#![tactic(auto)]

ghost use Rattle.std.specs.Prelude.{◌≡◌, [], ◌∷◌, ◌+◌, ◌*◌, ◌≤◌, ◌<◌, ◌^◌, length, set};
ghost use Rattle.rules.specs.Rows.{rows_of};
ghost use Rattle.compare_rules.specs.Along.{along};
ghost use Rattle.compare_rules.specs.Differences.{figures, row};
ghost use Rattle.compare_rules.specs.Log.{log, up, put_at, noted, Small};
ghost use Rattle.compare_tables.specs.SideBySide.{row_of, table_of};
ghost use Rattle.compare_tables.specs.Smaller.{Smaller};

use compare_rules::{Count, Place};

// So many are counted at most. No list has room for as many.
const MOST: usize = 1152921504606846976;

// One more.
fn up(count: usize) -> usize
    ensures { result ≡ up count }
{
    if count < MOST {
        return count + 1;
    }
    count
}

// A number at a place of the list, where it has that place.
fn store(list: &mut [i64], at: usize, v: i64)
    ensures { list.new ≡ set list.old at v }
{
    if at < list.len() {
        list[at] = v;
    }
}

// One difference as row k of the list, where it has room for that.
fn put_row(list: &mut [i64], k: usize, p: Place, side: u8, left: i64, right: i64)
    requires { Small p }
    ensures { list.new ≡ put_at list.old k (row (record { at = p; side = side; left = left; right = right })) }
{
    if list.len() / 7 <= k {
        return;
    }
    let at = 7 * k;
    store(list, at, p.position as i64);
    store(list, at + 1, p.part as i64);
    store(list, at + 2, p.index as i64);
    store(list, at + 3, p.field as i64);
    store(list, at + 4, side as i64);
    store(list, at + 5, left);
    store(list, at + 6, right);
}

// One difference, passed over; or stored where there is room for it, and counted.
pub fn put(list: &mut [i64], count: Count, p: Place, side: u8, left: i64, right: i64) -> Count
    requires { Small p }
    ensures { log list.new result ≡ noted (log list.old count) (record { at = p; side = side; left = left; right = right } ∷ []) }
{
    if 0 < count.skip {
        return Count {
            skip: count.skip - 1,
            seen: count.seen,
        };
    }
    put_row(list, count.seen, p, side, left, right);
    Count {
        skip: 0,
        seen: up(count.seen),
    }
}

// Two figures at one place.
pub fn figures(list: &mut [i64], count: Count, p: Place, x: i32, y: i32) -> Count
    requires { Small p }
    ensures { log list.new result ≡ noted (log list.old count) (figures p x y) }
{
    if x == y {
        return count;
    }
    put(list, count, p, 0, x as i64, y as i64)
}

// Two rows of as many numbers, field by field. The field of p is of no account.
#[tactic(auto, using(crate::specs::SideBySide::row_laws))]
fn row_apart(list: &mut [i64], count: Count, p: Place, a: &[i32], b: &[i32]) -> Count
    requires { Small p × (length a.now ≡ length b.now) }
    ensures { log list.new result ≡ noted (log list.old count) (along (row_of p) 1 a.now b.now) }
{
    let mut c = count;
    for k in 0..a.len() {
        let spot = Place {
            position: p.position,
            part: p.part,
            index: p.index,
            field: k + 1,
        };
        c = figures(list, c, spot, a[k], b[k]);
    }
    c
}

// The smaller of two counts.
pub fn smaller(n: usize, m: usize) -> usize
    ensures { Smaller n m result }
{
    if n < m {
        return n;
    }
    m
}

// The first n rows of two tables, so many numbers each. The place and field of p are of no account.
#[tactic(auto, using(crate::specs::SideBySide::table_laws))]
pub fn table_apart(
    list: &mut [i64],
    count: Count,
    p: Place,
    a: &[i32],
    b: &[i32],
    width: usize,
    n: usize,
) -> Count
    requires { Small p × (width * n ≤ length a.now) × (width * n ≤ length b.now) × (n < 2 ^ 62) }
    ensures { log list.new result ≡ noted (log list.old count) (along (table_of p) 1 (rows_of width n a.now) (rows_of width n b.now)) }
{
    let mut c = count;
    for i in 0..n {
        let spot = Place {
            position: p.position,
            part: p.part,
            index: i + 1,
            field: 0,
        };
        let at = width * i;
        let end = at + width;
        c = row_apart(list, c, spot, &a[at..end], &b[at..end]);
    }
    c
}
