// The lines of a file to be mended, each as it came, and what is to be done with each at its place.
#![tactic(auto)]

ghost use Rattle.std.specs.Prelude.{◌≡◌, ◌-◌, ◌≤◌, ◌<◌, length, take, drop};
ghost use Rattle.text.specs.Find.{line_at};
ghost use Rattle.text.specs.declared.LineAt.{LineAt};
ghost use Rattle.judge_line.specs.Judge.{item_of};
ghost use Rattle.mend_rules.specs.Mend.{found, item_line};
ghost use Rattle.mend_lines.specs.Deeds.{PieceAt, blank_from, deed_at, deed_in, at_header, at_items, at_values};

use mend_judge::Judge;
use reader_places::Place;
use text::LineAt;

// A line as it came: it ends before `end`, and the next one starts at `next`. At the very end of the file its line end may be missing.
#[derive(Drop)]
pub struct Piece {
    pub end: usize,
    pub next: usize,
    pub missing: bool,
}

// What is to be done.
#[derive(Drop)]
pub enum Deed {
    Keep,
    // An empty line before the line, which is then looked at again.
    Put,
    Drop,
    // Only blank lines follow the last record: all of them are to be dropped.
    Tail,
}

// The unfinished line that starts at a position.
fn last_piece(s: &[u8], at: usize) -> Piece
    requires at_in_bounds { at < length s.now }
    requires at_value { line_at s.now at ≡ LineAt.Unfinished }
    ensures { PieceAt s.now at result }
{
    let n = s.len();
    if s[n - 1] == b'\r' {
        return Piece {
            end: n - 1,
            next: n,
            missing: true,
        };
    }
    Piece {
        end: n,
        next: n,
        missing: true,
    }
}

// The line that starts at a position.
pub fn piece_at(s: &[u8], at: usize) -> Piece
    requires { at < length s.now }
    ensures { PieceAt s.now at result }
{
    match text::line_at(s, at) {
        LineAt::Line { end, next } => Piece {
            end,
            next,
            missing: false,
        },
        LineAt::Unfinished => last_piece(s, at),
    }
}

// Whether there are only blank lines from a position on.
fn blank_from(s: &[u8], at: usize) -> bool
    ensures { result ≡ blank_from s.now at }
{
    let mut i = at;
    // The place jumps by lines of any length: a `for` would need an iterator over them, with a proof of its own.
    while i < s.len() {
        let p = piece_at(s, i);
        let end = p.end;
        if text::is_blank(&s[i..end]) {
            i = p.next;
        } else {
            return false;
        }
    }
    true
}

// A data header or a `$$$$` line, in a line of good length and bytes.
fn is_good_item(line: &[u8]) -> bool
    ensures { result ≡ found (item_of line.now) }
{
    line_text::item_line(line).is_ok()
}

// A data header or a `$$$$` line.
fn is_item(line: &[u8]) -> bool
    ensures { result ≡ item_line line.now }
{
    match reader_places::line_judged(line, 80) {
        Ok(()) => is_good_item(line),
        Err(_) => false,
    }
}

// Where a header line may stand, with so many owed, and a record ended before or not.
fn at_header(owed: u32, some: bool, s: &[u8], at: usize) -> Deed
    ensures { result ≡ at_header owed some (blank_from s.now at) }
{
    if owed != 3 {
        return Deed::Keep;
    }
    if some {
        if blank_from(s, at) {
            return Deed::Tail;
        }
        return Deed::Keep;
    }
    Deed::Keep
}

// Where a data header or `$$$$` must stand.
fn at_items(line: &[u8]) -> Deed
    ensures { result ≡ at_items line.now }
{
    if text::is_blank(line) {
        return Deed::Drop;
    }
    Deed::Keep
}

// Where a value line or the blank line after the values must stand.
fn at_values(line: &[u8]) -> Deed
    ensures { result ≡ at_values line.now }
{
    if is_item(line) {
        return Deed::Put;
    }
    Deed::Keep
}

// At a place, the line from `at` to `end`.
fn deed_in(place: Place, some: bool, s: &[u8], at: usize, end: usize) -> Deed
    requires at_le_end { at ≤ end }
    requires end_in_bounds { end ≤ length s.now }
    ensures { result ≡ deed_in place some (blank_from s.now at) (take (end - at) (drop at s.now)) }
{
    match place {
        Place::Header { owed } => at_header(owed, some, s, at),
        Place::Counts => Deed::Keep,
        Place::Atoms { owed: _ } => Deed::Keep,
        Place::Bonds { owed: _ } => Deed::Keep,
        Place::Properties => Deed::Keep,
        Place::Over => Deed::Keep,
        Place::Items => at_items(&s[at..end]),
        Place::Values => at_values(&s[at..end]),
    }
}

// At a state of the judge, or in the tail of blank lines.
pub fn deed_at(judge: Judge, tail: bool, s: &[u8], at: usize, end: usize) -> Deed
    requires at_le_end { at ≤ end }
    requires end_in_bounds { end ≤ length s.now }
    ensures { result ≡ deed_at judge tail (blank_from s.now at) (take (end - at) (drop at s.now)) }
{
    if tail {
        return Deed::Drop;
    }
    let some = judge.some;
    let reader = judge.reader;
    let place = reader.place;
    deed_in(place, some, s, at, end)
}
