// Header lines and items handed to the writer: judged and measured; those of a record that was read, measured alone.
#![tactic(auto)]

ghost use Rattle.std.specs.Prelude.{◌≡◌, ◌≤◌, length};
ghost use Rattle.judge_file.specs.Verdict.{accepted};
ghost use Rattle.judge_parts.specs.Written.{text_of, written_headers, written_items};
ghost use Rattle.writer_parts.specs.Step.{line_as, longest, turn_as, turned, allowed_as, Next, place_of, judged, ends_as, written_from};
ghost use Rattle.writer_parts.specs.NeverRefused.{Taking};

use judge_file::TextRefusal;
use judge_line::Refusal;
use line_text::{ItemLine, ValueKind};
use text::LineAt;

// Where a line of a part stands. `Full` comes after the three header lines.
#[derive(Clone, Copy)]
pub enum Place {
    First,
    Second,
    Third,
    Full,
    Items,
    Values,
}

// What a line leads to: the next place, with the length of the line's canonical text, or a refusal.
#[derive(Drop)]
enum Turn {
    Next { place: Place, size: usize },
    Bad { no: u8, column: usize },
}

// The longest line of a place.
fn longest(place: Place) -> usize
    ensures { result ≡ longest place }
{
    match place {
        Place::First => 80,
        Place::Second => 80,
        Place::Third => 80,
        Place::Full => 80,
        Place::Items => 80,
        Place::Values => 200,
    }
}

// The first header line.
fn first_turn(line: &[u8]) -> Turn
    requires { length line.now ≤ 200 }
    ensures { result ≡ turned (line_as Place.First line.now) }
{
    match line_text::first_header(line) {
        Ok(()) => Turn::Next {
            place: Place::Second,
            size: line.len() + 1,
        },
        Err(Refusal { no, column }) => Turn::Bad { no, column },
    }
}

// A line where a data header must stand: it is written anew, with `>  <` before its name and `>` after it.
fn item_turn(line: &[u8]) -> Turn
    requires { length line.now ≤ 200 }
    ensures { result ≡ turned (line_as Place.Items line.now) }
{
    match line_text::item_line(line) {
        Ok(ItemLine::Title { from, to }) => Turn::Next {
            place: Place::Values,
            size: to - from + 6,
        },
        Ok(ItemLine::Close) => Turn::Bad { no: 16, column: 1 },
        Err(Refusal { no, column }) => Turn::Bad { no, column },
    }
}

// A line where a value line or the blank line after the values must stand.
fn value_turn(line: &[u8]) -> Turn
    requires { length line.now ≤ 200 }
    ensures { result ≡ turned (line_as Place.Values line.now) }
{
    match line_text::value_line(line) {
        Ok(ValueKind::Value) => Turn::Next {
            place: Place::Values,
            size: line.len() + 1,
        },
        Ok(ValueKind::Blank) => Turn::Next {
            place: Place::Items,
            size: 1,
        },
        Err(Refusal { no, column }) => Turn::Bad { no, column },
    }
}

// A line of good length and bytes.
fn good_turn(place: Place, line: &[u8]) -> Turn
    requires { length line.now ≤ 200 }
    ensures { result ≡ turned (line_as place line.now) }
{
    match place {
        Place::First => first_turn(line),
        Place::Second => Turn::Next {
            place: Place::Third,
            size: line.len() + 1,
        },
        Place::Third => Turn::Next {
            place: Place::Full,
            size: line.len() + 1,
        },
        Place::Full => Turn::Bad { no: 18, column: 1 },
        Place::Items => item_turn(line),
        Place::Values => value_turn(line),
    }
}

// A line of good length.
fn allowed_turn(place: Place, line: &[u8]) -> Turn
    requires { length line.now ≤ 200 }
    ensures { result ≡ turned (allowed_as place line.now) }
{
    match text::bad_column(line) {
        Some(column) => Turn::Bad { no: 4, column },
        None => good_turn(place, line),
    }
}

// One line at a place.
fn line_turn(place: Place, line: &[u8]) -> Turn
    ensures { result ≡ turned (turn_as place line.now) }
{
    let most = longest(place);
    if most < line.len() {
        return Turn::Bad {
            no: 3,
            column: most + 1,
        };
    }
    allowed_turn(place, line)
}

// A part that is not whole. The next line would be `line`.
fn cut_short(line: usize) -> Result<usize, TextRefusal>
    ensures { result ≡ Err (record { no = 19; line = line; column = 1 }) }
{
    Err(TextRefusal {
        no: 19,
        line,
        column: 1,
    })
}

// What a part is at its end.
fn part_end(place: Place, line: usize, size: usize) -> Result<usize, TextRefusal>
    ensures { result ≡ ends_as place size line }
{
    match place {
        Place::First => cut_short(line),
        Place::Second => cut_short(line),
        Place::Third => cut_short(line),
        Place::Full => Ok(size),
        Place::Items => Ok(size),
        Place::Values => cut_short(line),
    }
}

// A part from its first place on, line by line.
fn judge_part(s: &[u8], start: Place) -> Result<usize, TextRefusal>
    ensures { result ≡ judged (written_from start s.now) }
{
    let mut place = start;
    let mut at: usize = 0;
    let mut line: usize = 1;
    let mut size: usize = 0;
    // The place jumps by lines of any length: a `for` would need an iterator over them, with a proof of its own.
    while at < s.len() {
        let LineAt::Line { end, next } = text::line_at(s, at) else {
            return cut_short(line);
        };
        match line_turn(place, &s[at..end]) {
            Turn::Next { place: p, size: n } => {
                place = p;
                size += n;
            }
            Turn::Bad { no, column } => {
                return Err(TextRefusal { no, line, column });
            }
        }
        at = next;
        line += 1;
    }
    part_end(place, line, size)
}

// Header lines: exactly three.
pub fn judge_headers(s: &[u8]) -> Result<usize, TextRefusal>
    ensures { result ≡ judged (written_headers s.now) }
{
    judge_part(s, Place::First)
}

// Items: any number of whole ones.
pub fn judge_items(s: &[u8]) -> Result<usize, TextRefusal>
    ensures { result ≡ judged (written_items s.now) }
{
    judge_part(s, Place::Items)
}

// After a line of good items: whether values of an item follow, and the length of the line's canonical text.
#[derive(Drop)]
struct Sized {
    inside: bool,
    size: usize,
}

// A data header.
fn item_size(line: &[u8]) -> Sized
    requires { Taking Place.Items line.now }
    ensures { Next Place.Items line.now (place_of result.inside) result.size }
{
    let name = line_judged::name_of(line);
    Sized {
        inside: true,
        size: name.to - name.from + 6,
    }
}

// A value line or the blank line after the values.
fn value_size(line: &[u8]) -> Sized
    requires { Taking Place.Values line.now }
    ensures { Next Place.Values line.now (place_of result.inside) result.size }
{
    if text::is_blank(line) {
        return Sized {
            inside: false,
            size: 1,
        };
    }
    Sized {
        inside: true,
        size: line.len() + 1,
    }
}

// One line of good items.
fn line_size(inside: bool, line: &[u8]) -> Sized
    requires { Taking (place_of inside) line.now }
    ensures { Next (place_of inside) line.now (place_of result.inside) result.size }
{
    if inside {
        return value_size(line);
    }
    item_size(line)
}

// Good header lines, by the length of their canonical text.
pub fn size_headers(s: &[u8]) -> usize
    requires { written_headers s.now ≡ accepted (text_of (written_headers s.now)) }
    ensures { result ≡ length (text_of (written_headers s.now)) }
{
    let mut at: usize = 0;
    let mut size: usize = 0;
    // The place jumps by lines of any length: a `for` would need an iterator over them, with a proof of its own.
    while at < s.len() {
        let line = line_judged::whole_line(s, at);
        size += line.end - at + 1;
        at = line.next;
    }
    size
}

// Good items, likewise.
pub fn size_items(s: &[u8]) -> usize
    requires { written_items s.now ≡ accepted (text_of (written_items s.now)) }
    ensures { result ≡ length (text_of (written_items s.now)) }
{
    let mut inside = false;
    let mut at: usize = 0;
    let mut size: usize = 0;
    // The place jumps by lines of any length: a `for` would need an iterator over them, with a proof of its own.
    while at < s.len() {
        let line = line_judged::whole_line(s, at);
        let end = line.end;
        let sized = line_size(inside, &s[at..end]);
        inside = sized.inside;
        size += sized.size;
        at = line.next;
    }
    size
}
