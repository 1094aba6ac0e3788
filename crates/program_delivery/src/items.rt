// The items of accepted records: which names a file has, and what is worth a warning. No verdict depends on it.

use crate::facts;
use line_text::ItemLine;
use program_io::{Out, Text};
use text::LineAt;

// So many different names are kept.
const NAMES: usize = 256;

// Bytes of a name with at least one zero behind them; no name has more than thirty.
const WIDTH: usize = 32;

// A name: how many records have it, which was the last, and its bytes.
#[derive(Clone, Copy)]
struct Name {
    records: u64,
    last: u64,
    bytes: [u8; WIDTH],
}

// The names so far; the one that is expected next; whether there were more than are kept.
#[derive(Drop)]
pub struct Names {
    list: [Name; NAMES],
    used: usize,
    next: usize,
    full: bool,
}

// The record that is looked over: its number and the lines before it; the facts so far.
#[derive(Clone, Copy)]
pub struct Looked {
    pub record: usize,
    pub lines: usize,
    pub out: Out,
}

// A name with zeros behind it.
fn padded(name: &[u8]) -> [u8; WIDTH] {
    let mut bytes = [0u8; WIDTH];
    // By themselves: with `copy_from_slice` a check of the catalogue takes 10.49 instructions a byte in place of 10.33.
    for (to, b) in bytes.iter_mut().zip(name) {
        *to = *b;
    }
    bytes
}

impl Names {
    pub fn new() -> Names {
        let none = Name {
            records: 0,
            last: 0,
            bytes: [0; WIDTH],
        };
        Names {
            list: [none; NAMES],
            used: 0,
            next: 0,
            full: false,
        }
    }

    // The place of a name, or that behind the last. Most records have the same names in the same order.
    fn place_of(&self, bytes: &[u8; WIDTH]) -> usize {
        // As slices, whose first bytes are held against each other without a call: as arrays a check of 38,050 names that all
        // differ takes 3.2 times the instructions.
        let is_it = |name: &Name| name.bytes[..] == bytes[..];
        if self.list.get(self.next).is_some_and(is_it) {
            return self.next;
        }
        let mut known = self.list.iter().take(self.used);
        known.position(is_it).unwrap_or(self.used)
    }

    // This record has this name; whether it had it before.
    fn note(&mut self, bytes: &[u8; WIDTH], record: u64) -> bool {
        let place = self.place_of(bytes);
        if NAMES <= place {
            self.next = 0;
            self.full = true;
            return false;
        }
        if place == self.used {
            self.list[place].bytes = *bytes;
            self.used = place + 1;
        }
        self.next = place + 1;
        if self.list[place].last == record {
            return true;
        }
        self.list[place].last = record;
        self.list[place].records = self.list[place].records.saturating_add(1);
        false
    }
}

fn lines_of(s: &[u8]) -> usize {
    s.iter().filter(|b| **b == b'\n').count()
}

impl Looked {
    // A warning of the line at byte k of the record.
    fn warn(self, word: &str, s: &[u8], k: usize, what: &[u8], room: &mut [u8]) -> Looked {
        let before = lines_of(program_io::front(s, k));
        let line = self.lines.saturating_add(before).saturating_add(1);
        let text = facts::begin(word, self.record, line);
        Looked {
            out: facts::put_quoted(self.out.text(room, text), room, what),
            ..self
        }
    }

    // The name in the data header at byte k.
    fn note(self, s: &[u8], k: usize, name: &[u8], names: &mut Names, room: &mut [u8]) -> Looked {
        if names.note(&padded(name), self.record as u64) {
            return self.warn("twice ", s, k, name, room);
        }
        self
    }
}

// Whether `<`, and `>` after it, stand in a line.
fn has_brackets(line: &[u8]) -> bool {
    match memchr::memchr(b'<', line) {
        Some(at) => line[at..].contains(&b'>'),
        None => false,
    }
}

// The next `>` from `at` on, or the end.
fn next_arrow(s: &[u8], at: usize) -> usize {
    match memchr::memchr(b'>', program_io::tail(s, at)) {
        Some(n) => at.saturating_add(n),
        None => s.len(),
    }
}

// Whether byte k stands within a line, and does not begin one.
fn is_inside(s: &[u8], k: usize) -> bool {
    0 < k && s.get(k - 1) != Some(&b'\n')
}

// The `>` at byte k, in a line that ends before `end`. Where the line begins with it, it is a data header, or else a value line.
fn look_line(
    looked: Looked,
    s: &[u8],
    k: usize,
    end: usize,
    names: &mut Names,
    room: &mut [u8],
) -> Looked {
    if is_inside(s, k) {
        return looked;
    }
    let line = program_io::tail(program_io::front(s, end), k);
    match line_text::item_line(line) {
        Ok(ItemLine::Title { from, to }) => {
            let name = program_io::tail(program_io::front(line, to), from);
            looked.note(s, k, name, names, room)
        }
        _ => {
            if has_brackets(line) {
                looked.warn("swallowed ", s, k, line, room)
            } else {
                looked
            }
        }
    }
}

// The items of a record from byte `from` to the end of s, which starts where the record does.
pub fn look_over(
    looked: Looked,
    s: &[u8],
    from: usize,
    names: &mut Names,
    room: &mut [u8],
) -> Looked {
    let mut now = looked;
    let mut at = from;
    for _ in 0..s.len() {
        let k = next_arrow(s, at);
        let LineAt::Line { end, next } = text::line_at(s, k) else {
            return now;
        };
        now = look_line(now, s, k, end, names, room);
        at = next;
    }
    now
}

// A name with how many records have it.
fn put_name(out: Out, room: &mut [u8], name: &Name) -> Out {
    let records = name.records;
    let text = Text::new().print(format_args!("item {records} "));
    let length = name.bytes.iter().position(|b| *b == 0).unwrap_or(WIDTH);
    facts::put_quoted(
        out.text(room, text),
        room,
        program_io::front(&name.bytes, length),
    )
}

// Every name with how many records have it; and whether there are more names than are kept.
pub fn put_names(out: Out, room: &mut [u8], names: &Names) -> Out {
    let mut o = out;
    for name in names.list.iter().take(names.used) {
        o = put_name(o, room, name);
    }
    if names.full {
        return o.bytes(room, b"names\n");
    }
    o
}
