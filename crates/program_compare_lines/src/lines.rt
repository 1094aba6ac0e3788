// Lines found by their numbers. Differences come in order, so the walk over a record's items only goes on.
use line_text::ItemLine;
use text::LineAt;

// Line k of a text; an empty one where there is none.
pub fn line_of(s: &[u8], k: u64) -> &[u8] {
    let mut at: usize = 0;
    for before in 0..k {
        let LineAt::Line { end, next } = text::line_at(s, at) else {
            return program_io::front(s, 0);
        };
        if before + 1 == k {
            return program_json::part(s, at, end);
        }
        at = next;
    }
    program_io::front(s, 0)
}

// A line of the items: its item and its number among the value lines of that, 0 for the data header or the blank line; where it stands, and where the
// item's name does.
#[derive(Clone, Copy)]
pub struct Spot {
    item: usize,
    line: usize,
    start: usize,
    end: usize,
    next: usize,
    inside: bool,
    name_from: usize,
    name_to: usize,
}

// Where the name in a data header stands.
#[derive(Drop)]
struct Span {
    from: usize,
    to: usize,
}

fn span_of(line: &[u8]) -> Span {
    match line_text::item_line(line) {
        Ok(ItemLine::Title { from, to }) => Span { from, to },
        _ => Span { from: 0, to: 0 },
    }
}

impl Spot {
    // Before the first item.
    pub fn new() -> Spot {
        Spot {
            item: 0,
            line: 0,
            start: 0,
            end: 0,
            next: 0,
            inside: false,
            name_from: 0,
            name_to: 0,
        }
    }

    // One line on: a data header, a value line, or the blank line after the values; behind the last line, on none.
    fn step(self, s: &[u8]) -> Spot {
        let mut spot = self;
        let LineAt::Line { end, next } = text::line_at(s, self.next) else {
            spot.item = usize::MAX;
            return spot;
        };
        let line = program_json::part(s, self.next, end);
        spot.start = self.next;
        spot.end = end;
        spot.next = next;
        if self.inside {
            if text::is_blank(line) {
                spot.inside = false;
            } else {
                spot.line = self.line.saturating_add(1);
            }
            return spot;
        }
        let name = span_of(line);
        spot.item = self.item.saturating_add(1);
        spot.line = 0;
        spot.inside = true;
        spot.name_from = self.next.saturating_add(name.from);
        spot.name_to = self.next.saturating_add(name.to);
        spot
    }

    // Whether it stands at this line, or behind it.
    fn is_at(self, item: usize, line: usize) -> bool {
        if self.item == item {
            return line <= self.line;
        }
        item < self.item
    }

    // On to a line of an item. A line has at least one byte, so the bytes are more turns than are needed.
    pub fn seek(self, s: &[u8], item: usize, line: usize) -> Spot {
        let mut spot = self;
        for _ in 0..s.len() {
            if spot.is_at(item, line) {
                return spot;
            }
            spot = spot.step(s);
        }
        spot
    }

    pub fn text_in(self, s: &[u8]) -> &[u8] {
        program_json::part(s, self.start, self.end)
    }

    pub fn name_in(self, s: &[u8]) -> &[u8] {
        program_json::part(s, self.name_from, self.name_to)
    }
}
