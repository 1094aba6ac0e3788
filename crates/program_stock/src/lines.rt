// What is written of the join: JSON, one object a line, or a table for people. Lines are made by patterns, in which a capital letter or a digit stands for
// what is filled in there. All but the names of files is short and made by value, so few functions hold the lent room.
ghost use Rattle.std.specs.Prelude.{◌<◌};

use program_io::{Out, System, Text};
use std::fmt;
use stock_counts::COUNTS;
use stock_join::{Join, MARKS};
use stock_key::{Fault, KeyRead};
use store_lots::{KEYS, LOTS};

// Output is gathered in room of so many bytes.
pub const ROOM: usize = 65536;

// How a line is written.
#[derive(Clone, Copy)]
pub struct Way {
    pub json: bool,
    pub pad: u8,
}

// What a line says. A lot: all is as it should be, it has no record, its last count differs from paper, or both. A
// record: its lot was never received, or what is wrong with the text that makes its key. The totals.
#[derive(Clone, Copy)]
pub enum Line {
    Settled,
    NoRecord,
    Differs,
    DiffersNoRecord,
    Never,
    NoSupplier(Fault),
    NoLot(Fault),
    Totals,
}

// The shelf's figure at a lot's last count, and paper then.
#[derive(Clone, Copy)]
struct Counted {
    shelf: u32,
    paper: u32,
}

// The place of a record: the number of its file, and its own in that.
#[derive(Clone, Copy)]
struct Spot {
    file: u64,
    number: u64,
}

// What a line is made of. A lot: its key, its last count if it has one, its first record if it has one, and as numbers
// its paper and its records. A record: its place, and its key. The totals: six numbers.
#[derive(Clone, Copy)]
pub struct Row {
    pub line: Line,
    key: [u8; 12],
    counted: Option<Counted>,
    spot: Option<Spot>,
    numbers: [u64; 6],
}

// A last count as it was noted: 0 for none, or else one more than the shelf's figure.
fn last_count(noted: u32, paper: u32) -> Option<Counted> {
    let shelf = noted.checked_sub(1)?;
    Some(Counted { shelf, paper })
}

// The place of a file's record; files count from 1, and 0 is none.
fn place_at(file: u64, number: u64) -> Option<Spot> {
    if file == 0 {
        return None;
    }
    Some(Spot { file, number })
}

fn lot_line(counted: Option<Counted>, records: u64) -> Line {
    let differs = counted.is_some_and(|c| c.shelf != c.paper);
    match (differs, records) {
        (false, 0) => Line::NoRecord,
        (false, _) => Line::Settled,
        (true, 0) => Line::DiffersNoRecord,
        (true, _) => Line::Differs,
    }
}

// The tables have their columns one behind the other, as `store_lots`, `stock_counts` and `stock_join` fill them.
pub fn row_of(
    i: usize,
    keys: &[u32; KEYS],
    papers: &[u32; LOTS],
    counts: &[u32; COUNTS],
    marks: &[u64; MARKS],
) -> Row
    requires { i < 512 }
{
    let counted = last_count(counts[i], counts[512 + i]);
    let records = marks[i];
    Row {
        line: lot_line(counted, records),
        key: program_replay::key_of(keys[i], keys[512 + i], keys[1024 + i]),
        counted,
        spot: place_at(marks[512 + i], marks[1024 + i]),
        numbers: [u64::from(papers[i]), records, 0, 0, 0, 0],
    }
}

impl Row {
    pub fn paper(self) -> u64 {
        self.numbers[0]
    }

    // Whether a lot is not as it should be.
    pub fn is_apart(self) -> bool {
        !matches!(self.line, Line::Settled)
    }
}

fn record_at(place: Join, line: Line, key: [u8; 12]) -> Row {
    Row {
        line,
        key,
        counted: None,
        spot: place_at(place.file, place.number),
        numbers: [0; 6],
    }
}

// A record that is listed: its lot was never received, or it has no key.
pub fn listed(place: Join, read: KeyRead) -> Row {
    let none = [0u8; 12];
    match read {
        KeyRead::Key { key } => {
            let bytes = program_replay::key_of(key.supplier, key.first, key.second);
            record_at(place, Line::Never, bytes)
        }
        KeyRead::NoSupplier { why } => record_at(place, Line::NoSupplier(why), none),
        KeyRead::NoLot { why } => record_at(place, Line::NoLot(why), none),
        _ => record_at(place, Line::NoSupplier(Fault::Missing), none),
    }
}

// The last line: lots and their paper, records, those received, never received and without a key.
pub fn totals(numbers: [u64; 6]) -> Row {
    Row {
        line: Line::Totals,
        key: [0; 12],
        counted: None,
        spot: None,
        numbers,
    }
}

// ---- Patterns

fn for_people(line: Line) -> &'static [u8] {
    match line {
        Line::Settled => b"S     LPCDR\n",
        Line::NoRecord => b"S     LPCDR  no record\n",
        Line::Differs => b"S     LPCDR  count differs\n",
        Line::DiffersNoRecord => b"S     LPCDR  count differs, no record\n",
        Line::Never => b"F, record N: S L was never received\n",
        Line::Totals =>
            b"lots: 0; paper: 1; records: 2, received: 3, never received: 4, without a key: 5\n",
        Line::NoSupplier(Fault::Missing) => b"F, record N: no key: supplier missing\n",
        Line::NoSupplier(Fault::TooLong) => b"F, record N: no key: supplier too long\n",
        Line::NoSupplier(Fault::Padded) => b"F, record N: no key: supplier ends in the pad byte\n",
        Line::NoLot(Fault::Missing) => b"F, record N: no key: lot missing\n",
        Line::NoLot(Fault::TooLong) => b"F, record N: no key: lot too long\n",
        Line::NoLot(Fault::Padded) => b"F, record N: no key: lot ends in the pad byte\n",
    }
}

fn for_programs(line: Line) -> &'static [u8] {
    match line {
        Line::Settled | Line::NoRecord | Line::Differs | Line::DiffersNoRecord =>
            b"{\"supplier\":\"S\",\"lot\":\"L\",\"paper\":0,\"counted\":I,\"difference\":J,\"records\":1,\"file\":QFQ,\"record\":N}\n",
        Line::Never =>
            b"{\"file\":QFQ,\"record\":N,\"supplier\":\"S\",\"lot\":\"L\",\"never_received\":true}\n",
        Line::Totals =>
            b"{\"lots\":0,\"paper\":1,\"records\":2,\"received\":3,\"never_received\":4,\"no_key\":5}\n",
        Line::NoSupplier(Fault::Missing) =>
            b"{\"file\":QFQ,\"record\":N,\"no_key\":\"supplier missing\"}\n",
        Line::NoSupplier(Fault::TooLong) =>
            b"{\"file\":QFQ,\"record\":N,\"no_key\":\"supplier too long\"}\n",
        Line::NoSupplier(Fault::Padded) =>
            b"{\"file\":QFQ,\"record\":N,\"no_key\":\"supplier ends in the pad byte\"}\n",
        Line::NoLot(Fault::Missing) => b"{\"file\":QFQ,\"record\":N,\"no_key\":\"lot missing\"}\n",
        Line::NoLot(Fault::TooLong) => b"{\"file\":QFQ,\"record\":N,\"no_key\":\"lot too long\"}\n",
        Line::NoLot(Fault::Padded) =>
            b"{\"file\":QFQ,\"record\":N,\"no_key\":\"lot ends in the pad byte\"}\n",
    }
}

fn is_mark(b: u8) -> bool {
    b.is_ascii_digit() || b.is_ascii_uppercase()
}

// ---- Keys

// A byte that is not printable, by its number.
fn numbered(text: Text, json: bool, b: u8) -> Text {
    if json {
        return text.word(b"\\u00").hex(b);
    }
    text.word(b"\\x").hex(b)
}

// One byte more of a text, in JSON of a string.
fn with_byte(text: Text, json: bool, b: u8) -> Text {
    match b {
        ..=31 | 127.. => numbered(text, json, b),
        b'"' | b'\\' if json => text.byte(b'\\').byte(b),
        _ => text.byte(b),
    }
}

fn shown(json: bool, s: &[u8]) -> Text {
    let mut text = Text::new();
    for b in s {
        text = with_byte(text, json, *b);
    }
    text
}

// How many bytes of a part of a key are its text: those before the pad bytes at its end.
fn text_length(part: &[u8], pad: u8) -> usize {
    match part.iter().rposition(|b| *b != pad) {
        Some(last) => last.saturating_add(1),
        None => 0,
    }
}

// Supplier or lot: of a lot in the store all bytes, of a record the text.
fn key_part(way: Way, line: Line, part: &[u8]) -> Text {
    if let Line::Never = line {
        return shown(
            way.json,
            program_io::front(part, text_length(part, way.pad)),
        );
    }
    shown(way.json, part)
}

// ---- Figures

// A figure that ends in this column.
fn cell(figure: impl fmt::Display + Drop, width: usize) -> Text {
    Text::new().print(format_args!("{figure:>width$}"))
}

// What stands for a figure where there is none: in JSON, where columns have no width, null.
fn no_figure(width: usize) -> Text {
    if width == 0 {
        return Text::new().word(b"null");
    }
    cell("-", width)
}

// The shelf's figure at the last count.
fn count(row: Row, width: usize) -> Text {
    match row.counted {
        Some(counted) => cell(counted.shelf, width),
        None => no_figure(width),
    }
}

// Paper minus shelf at the last count.
fn difference(row: Row, width: usize) -> Text {
    match row.counted {
        Some(counted) => cell(i64::from(counted.paper) - i64::from(counted.shelf), width),
        None => no_figure(width),
    }
}

// One of the six numbers, by its digit.
fn number_at(row: Row, digit: u8) -> u64 {
    let k = (digit % 8) as usize;
    row.numbers.get(k).copied().unwrap_or(0)
}

// A figure, in a column of the table or without one; a digit stands for one of the numbers.
fn figure(b: u8, row: Row) -> Text {
    match b {
        b'P' => cell(row.numbers[0], 9),
        b'R' => cell(row.numbers[1], 8),
        b'C' => count(row, 8),
        b'D' => difference(row, 11),
        b'I' => count(row, 0),
        b'J' => difference(row, 0),
        _ => Text::new().number(number_at(row, b)),
    }
}

// ---- Lines

// The number of a record, or null where there is none.
fn record_number(row: Row) -> Text {
    match row.spot {
        Some(spot) => Text::new().number(spot.number),
        None => Text::new().word(b"null"),
    }
}

// What stands before and behind the name of a file in JSON.
fn quote(row: Row) -> Text {
    match row.spot {
        Some(_) => Text::new().byte(b'"'),
        None => Text::new(),
    }
}

// What stands for a mark: supplier and lot; the number of a record; a quote; a figure.
fn piece(b: u8, way: Way, row: Row) -> Text {
    let key = row.key;
    match b {
        b'S' => key_part(way, row.line, program_io::front(&key, 4)),
        b'L' => key_part(way, row.line, program_io::tail(&key, 4)),
        b'N' => record_number(row),
        b'Q' => quote(row),
        _ => figure(b, row),
    }
}

// A byte of a name: as it was typed, in JSON of a string.
fn named(json: bool, b: u8) -> Text {
    if json {
        return with_byte(Text::new(), true, b);
    }
    Text::new().byte(b)
}

fn put_name(out: Out, room: &mut [u8; ROOM], json: bool, name: &[u8]) -> Out {
    let mut next = out;
    for b in name {
        next = next.text(room, named(json, *b));
    }
    next
}

// The name of a file, or null where there is none.
fn put_file(system: &System, out: Out, room: &mut [u8; ROOM], json: bool, row: Row) -> Out {
    let Some(spot) = row.spot else {
        return out.bytes(room, b"null");
    };
    let mut name = io::buffer();
    let place = crate::path_argument(spot.file).saturating_add(1);
    match system.argument(place, &mut name) {
        Ok(n) => put_name(out, room, json, program_io::front(&name, n)),
        Err(_) => out,
    }
}

// A line by its pattern.
pub fn put_row(system: &System, out: Out, room: &mut [u8; ROOM], way: Way, row: Row) -> Out {
    let pattern = if way.json {
        for_programs(row.line)
    } else {
        for_people(row.line)
    };
    let mut next = out;
    for &b in pattern {
        if b == b'F' {
            next = put_file(system, next, room, way.json, row);
        } else if is_mark(b) {
            next = next.text(room, piece(b, way, row));
        } else {
            next = next.byte(room, b);
        }
    }
    next
}

// The names of the table's columns.
pub fn put_heading(out: Out, room: &mut [u8; ROOM], json: bool) -> Out {
    if json {
        return out;
    }
    out.bytes(
        room,
        b"supplier lot         paper counted difference records\n",
    )
}
