// The first value line of a data item, as a stretch of the caller's bytes.
#![tactic(auto)]

ghost use Rattle.std.specs.Prelude.{◌≡◌};
ghost use Rattle.reader_first_line.specs.First.{line_from};
ghost use Rattle.reader_first_line.specs.Promise.{FirstPromise};

use reader_item::Found;
use text::LineAt;

// What is found: the line without its end; an item without value lines; or the refusal of the fetch.
#[derive(Drop)]
pub enum FirstLine {
    Line { from: usize, to: usize },
    Empty,
    Refused { no: u8, line: usize, column: usize },
}

// The line at the start of a stretch of value lines, which ends at 0 where there are none.
fn line_from(s: &[u8], from: usize, to: usize) -> FirstLine
    ensures { result ≡ line_from s.now from to }
{
    if to == 0 {
        return FirstLine::Empty;
    }
    let LineAt::Line { end, next: _ } = text::line_at(s, from) else {
        return FirstLine::Line { from, to: from };
    };
    FirstLine::Line { from, to: end }
}

// The first value line of the first item of a name, in the record that the bytes begin with.
pub fn first_line(s: &[u8], name: &[u8]) -> FirstLine
    ensures { FirstPromise s.now name.now result }
{
    match reader_item::find_item(s, name) {
        Found::Item { from, to } => line_from(s, from, to),
        Found::Refused { no, line, column } => FirstLine::Refused { no, line, column },
    }
}
