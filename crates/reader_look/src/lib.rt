// A record that was accepted before, looked through for an item: of the lines before its items nothing is judged again.
#![tactic(auto)]

ghost use Rattle.std.specs.Prelude.{◌≡◌, ◌≤◌, length};
ghost use Rattle.reader_look.specs.Look.{begins_item, Reaches, keep, keep_first, looked_by, unlooked, Looks};
ghost use Rattle.reader_look.specs.Promise.{Promised};

use reader_items::ItemAt;
use text::LineAt;

// The values of the first item of the name, from the first value line's start up to the last one's end, both 0 where it has none; and how many bytes and
// lines the record takes. `Beyond`: the text ends before the record does. `Other`: no accepted record is so.
#[derive(Drop)]
pub enum Looked {
    Item {
        from: usize,
        to: usize,
        length: usize,
        lines: usize,
    },
    Missing {
        length: usize,
        lines: usize,
    },
    Beyond,
    Other,
}

// Where items start, and how many lines come before them.
#[derive(Drop)]
enum Reached {
    At { at: usize, lines: usize },
    Beyond,
}

// The values of the first item of the name so far.
#[derive(Drop)]
enum Sought {
    At { from: usize, to: usize },
    Nowhere,
}

// Whether items begin with this line, before which there are so many: the three header lines may hold anything, and of the others up to `M  END` none
// begins so.
fn begins_item(line: &[u8], lines: usize) -> bool
    ensures { result ≡ begins_item line.now lines }
{
    if lines < 3 {
        return false;
    }
    let first = text::column(line, 1);
    if first == b'>' {
        return true;
    }
    first == b'$'
}

fn items_start(s: &[u8]) -> Reached
    ensures { Reaches s.now 0 0 result }
{
    let mut at: usize = 0;
    let mut lines: usize = 0;
    // The place jumps by lines of any length: a `for` would need an iterator over them, with a proof of its own.
    loop {
        let LineAt::Line { end, next } = text::line_at(s, at) else {
            return Reached::Beyond;
        };
        if begins_item(&s[at..end], lines) {
            return Reached::At { at, lines };
        }
        at = next;
        lines += 1;
    }
}

fn keep_first(sought: Sought, from: usize, to: usize) -> Sought
    ensures { result ≡ keep_first sought from to }
{
    match sought {
        Sought::At { from: a, to: b } => Sought::At { from: a, to: b },
        Sought::Nowhere => Sought::At { from, to },
    }
}

// The first item of the name counts.
fn keep(sought: Sought, named: bool, from: usize, to: usize) -> Sought
    ensures { result ≡ keep sought named from to }
{
    if named {
        return keep_first(sought, from, to);
    }
    sought
}

fn told(sought: Sought, length: usize, lines: usize) -> Looked
    ensures { result ≡ looked_by sought length lines }
{
    match sought {
        Sought::At { from, to } => Looked::Item {
            from,
            to,
            length,
            lines,
        },
        Sought::Nowhere => Looked::Missing { length, lines },
    }
}

fn unlooked(no: u8) -> Looked
    ensures { result ≡ unlooked no }
{
    if no == 19 {
        return Looked::Beyond;
    }
    Looked::Other
}

// The items from `start` on, with so many lines before them.
fn hunt(s: &[u8], start: usize, before: usize, name: &[u8]) -> Looked
    requires { (before ≤ start) × (start ≤ length s.now) }
    ensures { Looks s.now name.now start before Sought.Nowhere result }
{
    let mut at = start;
    let mut lines = before;
    let mut sought = Sought::Nowhere;
    // The place jumps by items of any length: a `for` would need an iterator over them, with a proof of its own.
    loop {
        match reader_items::item_at(s, at) {
            ItemAt::Item {
                name_from,
                name_to,
                from,
                to,
                next,
                lines: k,
            } => {
                let named = reader_item::same_name(&s[name_from..name_to], name);
                sought = keep(sought, named, from, to);
                at = next;
                lines += k;
            }
            ItemAt::End { next } => {
                return told(sought, next, lines + 1);
            }
            ItemAt::Refused {
                no,
                line: _,
                column: _,
            } => {
                return unlooked(no);
            }
        }
    }
}

// The first item of a name in the record that the bytes begin with.
pub fn look(s: &[u8], name: &[u8]) -> Looked
    ensures { Promised s.now name.now result }
{
    match items_start(s) {
        Reached::At { at, lines } => hunt(s, at, lines, name),
        Reached::Beyond => Looked::Beyond,
    }
}
