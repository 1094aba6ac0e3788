// The items of two records compared in lock-step: names, value lines, items on one side only.
#![tactic(auto)]

ghost use Rattle.std.specs.Prelude.{◌≡◌, ◌+◌, ◌≤◌, ◌<◌, ◌^◌, length};
ghost use Rattle.text.specs.Find.{same_bytes};
ghost use Rattle.compare_rules.specs.Along.{along};
ghost use Rattle.compare_rules.specs.Differences.{texts, itemwise};
ghost use Rattle.compare_rules.specs.Log.{log, noted, Small};
ghost use Rattle.compare_items.specs.Ahead.{ValueIs};
ghost use Rattle.compare_items.specs.Pairing.{SmallItem, Paired};
ghost use Rattle.compare_items.specs.Resting.{Rested, Passed, Valued};
ghost use Rattle.compare_items.specs.Part.{name_on, items_at};
ghost use Rattle.compare_items.specs.Items.{NameIn, alone_items};

use compare_rules::{Count, Place};
use line_text::ItemLine;
use text::LineAt;

// A value line of an item; or where the line after its blank line starts.
#[derive(Drop)]
enum Value {
    Line { end: usize, next: usize },
    Over { next: usize },
}

// What stands at a place where a value line or the blank line after the values stands.
fn value_at(s: &[u8], at: usize) -> Value
    requires { at ≤ length s.now }
    ensures { ValueIs s.now at result }
{
    let LineAt::Line { end, next } = text::line_at(s, at) else {
        return Value::Over { next: at };
    };
    if text::is_blank(&s[at..end]) {
        return Value::Over { next };
    }
    Value::Line { end, next }
}

// Whether two texts are the same, byte for byte.
fn same_text(a: &[u8], b: &[u8]) -> bool
    ensures { result ≡ same_bytes a.now b.now }
{
    if a.len() != b.len() {
        return false;
    }
    text::has_text(a, 1, b)
}

// Two texts at one place.
pub fn texts(list: &mut [i64], count: Count, p: Place, a: &[u8], b: &[u8]) -> Count
    requires { Small p }
    ensures { log list.new result ≡ noted (log list.old count) (texts p a.now b.now) }
{
    if same_text(a, b) {
        return count;
    }
    compare_tables::put(list, count, p, 0, 0, 0)
}

// Where two parts stand: a position in each, the number of the next place there, and how many differences are counted.
#[derive(Drop)]
struct Both {
    left: usize,
    right: usize,
    next: usize,
    count: Count,
}

// The value lines of two items, from positions i and j, as long as there is one on either side. p says which item.
fn both_values(
    list: &mut [i64],
    count: Count,
    p: Place,
    a: &[u8],
    i: usize,
    b: &[u8],
    j: usize,
) -> Both
    requires { SmallItem p × (i ≤ length a.now) × (j ≤ length b.now) }
    ensures { Paired p a.now i b.now j (log list.old count) list.new result }
{
    let mut x = i;
    let mut y = j;
    let mut k: usize = 1;
    let mut c = count;
    // Two places jump by lines of any length, and k is an answer too: a `for` would need an iterator over both.
    loop {
        let Value::Line { end: e, next: n } = value_at(a, x) else {
            return Both {
                left: x,
                right: y,
                next: k,
                count: c,
            };
        };
        let Value::Line { end: f, next: m } = value_at(b, y) else {
            return Both {
                left: x,
                right: y,
                next: k,
                count: c,
            };
        };
        let spot = Place {
            position: p.position,
            part: 8,
            index: p.index,
            field: k,
        };
        c = texts(list, c, spot, &a[x..e], &b[y..f]);
        x = n;
        y = m;
        k += 1;
    }
}

// Where one part stands, and how many differences are counted.
#[derive(Drop)]
struct Rest {
    next: usize,
    count: Count,
}

// The value lines of an item from position `at` on, which stand on one side only; p says which item, and the number of the first.
fn rest_values(list: &mut [i64], count: Count, p: Place, side: u8, s: &[u8], at: usize) -> Rest
    requires { SmallItem p × (at ≤ length s.now) × (p.field ≤ at + 1) }
    ensures { Rested p side s.now at (log list.old count) list.new result }
{
    let mut x = at;
    let mut k = p.field;
    let mut c = count;
    // The place jumps by lines of any length: a `for` would need an iterator over them, with a proof of its own.
    loop {
        match value_at(s, x) {
            Value::Line { end: _, next } => {
                let spot = Place {
                    position: p.position,
                    part: 8,
                    index: p.index,
                    field: k,
                };
                c = compare_tables::put(list, c, spot, side, 0, 0);
                x = next;
                k += 1;
            }
            Value::Over { next } => {
                return Rest { next, count: c };
            }
        }
    }
}

// Where the next item starts, after value lines from position `at` on.
fn past_item(s: &[u8], at: usize) -> usize
    requires { at ≤ length s.now }
    ensures { Passed s.now at result }
{
    let mut x = at;
    // The place jumps by lines of any length: a `for` would need an iterator over them, with a proof of its own.
    loop {
        match value_at(s, x) {
            Value::Line { end: _, next } => {
                x = next;
            }
            Value::Over { next } => {
                return next;
            }
        }
    }
}

// All value lines of two items.
fn values_apart(
    list: &mut [i64],
    count: Count,
    p: Place,
    a: &[u8],
    i: usize,
    b: &[u8],
    j: usize,
) -> Both
    requires { SmallItem p × (i ≤ length a.now) × (j ≤ length b.now) }
    ensures { Valued p a.now i b.now j (log list.old count) list.new result }
{
    let w = both_values(list, count, p, a, i, b, j);
    let spot = Place {
        position: p.position,
        part: 8,
        index: p.index,
        field: w.next,
    };
    let c = w.count;
    let u = rest_values(list, c, spot, 1, a, w.left);
    let d = u.count;
    let v = rest_values(list, d, spot, 2, b, w.right);
    let e = v.count;
    Both {
        left: u.next,
        right: v.next,
        next: w.next,
        count: e,
    }
}

// A stretch of a line.
#[derive(Drop)]
struct Span {
    from: usize,
    to: usize,
}

// Where the name in a data header stands.
fn name_in(line: &[u8]) -> Span
    ensures { NameIn line.now result }
{
    match line_text::item_line(line) {
        Ok(ItemLine::Title { from, to }) => Span { from, to },
        Ok(ItemLine::Close) => Span { from: 0, to: 0 },
        Err(_) => Span { from: 0, to: 0 },
    }
}

// The names in two data headers.
fn names_apart(list: &mut [i64], count: Count, p: Place, l: &[u8], k: &[u8]) -> Count
    requires { Small p }
    ensures { log list.new result ≡ noted (log list.old count) (texts p (name_on l.now) (name_on k.now)) }
{
    let x = name_in(l);
    let y = name_in(k);
    let from = x.from;
    let to = x.to;
    let start = y.from;
    let end = y.to;
    texts(list, count, p, &l[from..to], &k[start..end])
}

// Items from position `at` on, which stand on one side only; p says in which record, and the number of the first. Each is listed once.
fn rest_items(list: &mut [i64], count: Count, p: Place, side: u8, s: &[u8], at: usize) -> Count
    requires { (p.position < 2 ^ 63) × (at ≤ length s.now) × (p.index ≤ at + 1) }
    ensures { log list.new result ≡ noted (log list.old count) (alone_items side p.position p.index (items_at s.now at)) }
{
    let mut x = at;
    let mut k = p.index;
    let mut c = count;
    // The place jumps by items of any length: a `for` would need an iterator over them, with a proof of its own.
    loop {
        let LineAt::Line { end: _, next } = text::line_at(s, x) else {
            return c;
        };
        let spot = Place {
            position: p.position,
            part: 9,
            index: k,
            field: 0,
        };
        c = compare_tables::put(list, c, spot, side, 0, 0);
        x = past_item(s, next);
        k += 1;
    }
}

// The items of two records, given as the parts that hold them.
pub fn items_apart(list: &mut [i64], count: Count, position: usize, a: &[u8], b: &[u8]) -> Count
    requires { position < 2 ^ 63 }
    ensures { log list.new result ≡ noted (log list.old count) (along (itemwise position) 1 (items_at a.now 0) (items_at b.now 0)) }
{
    let mut x: usize = 0;
    let mut y: usize = 0;
    let mut k: usize = 1;
    let mut c = count;
    // Two places jump by items of any length: a `for` would need an iterator over both, with a proof of its own.
    loop {
        let LineAt::Line { end: e, next: n } = text::line_at(a, x) else {
            let rest = Place {
                position,
                part: 9,
                index: k,
                field: 0,
            };
            return rest_items(list, c, rest, 2, b, y);
        };
        let LineAt::Line { end: f, next: m } = text::line_at(b, y) else {
            let rest = Place {
                position,
                part: 9,
                index: k,
                field: 0,
            };
            return rest_items(list, c, rest, 1, a, x);
        };
        let spot = Place {
            position,
            part: 7,
            index: k,
            field: 0,
        };
        let d = names_apart(list, c, spot, &a[x..e], &b[y..f]);
        let w = values_apart(list, d, spot, a, n, b, m);
        x = w.left;
        y = w.right;
        c = w.count;
        k += 1;
    }
}
