// The items of a record, stepped over one after the other, from any position of any text.
#![tactic(auto)]

ghost use Rattle.std.specs.Prelude.{◌≡◌, ◌≤◌, length};
ghost use Rattle.text.specs.Find.{ink_column};
ghost use Rattle.judge_line.specs.Judge.{item_of};
ghost use Rattle.line_text.specs.Answer.{value_got};
ghost use Rattle.reader_items.specs.Step.{name_start, title_by, title_is, title_of, value_is, values_from, with_values};
ghost use Rattle.reader_items.specs.Promise.{Stepped};

use judge_line::Refusal;
use line_text::{ItemLine, ValueKind};
use text::LineAt;

// What stands at a position where a data header or `$$$$` must stand. Places are positions of the whole text; those of the values are both 0 where there
// are none. `lines` and `line` count from the line at that position on.
#[derive(Drop)]
pub enum ItemAt {
    Item {
        name_from: usize,
        name_to: usize,
        from: usize,
        to: usize,
        next: usize,
        lines: usize,
    },
    End {
        next: usize,
    },
    Refused {
        no: u8,
        line: usize,
        column: usize,
    },
}

// The value lines of an item up to its blank line, which is the last of `lines`; the data header is line 1.
#[derive(Drop)]
enum ValuesAt {
    Over {
        from: usize,
        to: usize,
        next: usize,
        lines: usize,
    },
    Refused {
        no: u8,
        line: usize,
        column: usize,
    },
}

// Where the name of a data header starts: behind `<`, the first byte after `>` that is no space.
fn name_start(line: &[u8]) -> usize
    ensures { result ≡ name_start (ink_column line.now 2) }
{
    match text::ink_column(line, 2) {
        Some(k) => k,
        None => 0,
    }
}

// A name of so many bytes.
fn named(line: &[u8], size: usize) -> Result<ItemLine, Refusal>
    requires { size ≤ length line.now }
    ensures { result ≡ title_by (name_start (ink_column line.now 2)) size }
{
    let from = name_start(line);
    Ok(ItemLine::Title {
        from,
        to: from + size,
    })
}

// A line of good length and bytes, where a data header or `$$$$` must stand.
fn good_title(line: &[u8]) -> Result<ItemLine, Refusal>
    ensures { result ≡ title_of line.now (item_of line.now) }
{
    match line_text::item_line(line)? {
        ItemLine::Title { from, to } => named(line, to - from),
        ItemLine::Close => Ok(ItemLine::Close),
    }
}

// A line where a data header or `$$$$` must stand.
fn title_at(line: &[u8]) -> Result<ItemLine, Refusal>
    ensures { result ≡ title_of line.now (title_is line.now) }
{
    reader_places::line_judged(line, 80)?;
    good_title(line)
}

// A line where a value line or the blank line after the values must stand.
fn value_at(line: &[u8]) -> Result<ValueKind, Refusal>
    ensures { value_got result ≡ value_is line.now }
{
    reader_places::line_judged(line, 200)?;
    line_text::value_line(line)
}

// The value lines that start at `at`, and the blank line that ends them.
fn values_at(s: &[u8], at: usize) -> ValuesAt
    ensures { result ≡ values_from s.now at }
{
    let mut from: usize = 0;
    let mut to: usize = 0;
    let mut i = at;
    let mut line: usize = 2;
    // The place jumps by lines of any length: a `for` would need an iterator over them, with a proof of its own.
    loop {
        let LineAt::Line { end, next } = text::line_at(s, i) else {
            return ValuesAt::Refused {
                no: 19,
                line,
                column: 1,
            };
        };
        match value_at(&s[i..end]) {
            Ok(ValueKind::Value) => {
                from = at;
                to = end;
                i = next;
                line += 1;
            }
            Ok(ValueKind::Blank) => {
                return ValuesAt::Over {
                    from,
                    to,
                    next,
                    lines: line,
                };
            }
            Err(Refusal { no, column }) => {
                return ValuesAt::Refused { no, line, column };
            }
        }
    }
}

// An item whose name is known by its place.
fn with_values(start: usize, end: usize, values: ValuesAt) -> ItemAt
    ensures { result ≡ with_values start end values }
{
    match values {
        ValuesAt::Over {
            from,
            to,
            next,
            lines,
        } => ItemAt::Item {
            name_from: start,
            name_to: end,
            from,
            to,
            next,
            lines,
        },
        ValuesAt::Refused { no, line, column } => ItemAt::Refused { no, line, column },
    }
}

// The item whose data header starts at a position of a text, or the `$$$$` line there.
pub fn item_at(s: &[u8], at: usize) -> ItemAt
    ensures { Stepped s.now at result }
{
    let LineAt::Line { end, next } = text::line_at(s, at) else {
        return ItemAt::Refused {
            no: 19,
            line: 1,
            column: 1,
        };
    };
    match title_at(&s[at..end]) {
        Ok(ItemLine::Title { from, to }) => with_values(at + from, at + to, values_at(s, next)),
        Ok(ItemLine::Close) => ItemAt::End { next },
        Err(Refusal { no, column }) => ItemAt::Refused {
            no,
            line: 1,
            column,
        },
    }
}
