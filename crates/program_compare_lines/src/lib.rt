// The differences of a pair of records, one a line. Lines are made by patterns, in which a capital letter stands for what is filled in there.
#![tactic(auto)]

mod lines;
mod say;

pub use lines::Spot;
use program_io::{Out, Text};
pub use say::{Part, Row, Side};

// Output is gathered in room of so many bytes.
pub const ROOM: usize = 65536;

// What is written so far, and where the walks over both records' items stand.
#[derive(Drop)]
pub struct Told {
    pub out: Out,
    pub old: Spot,
    pub new: Spot,
}

// What is told: every difference, for people or for programs, or the first record that differs; and whether progress is.
#[derive(Clone, Copy)]
pub struct Way {
    pub json: bool,
    pub first: bool,
    pub progress: bool,
}

// ---- Where the texts stand

// On to the line of a difference, where the items have one.
fn sought(spot: Spot, row: Row, other: Side, items: &[u8]) -> Spot {
    let is_of_items = matches!(row.part, Part::Name | Part::Value | Part::Item);
    if !is_of_items || row.side == Some(other) {
        return spot;
    }
    spot.seek(items, row.place as usize, row.field as usize)
}

// The text at the place of a difference.
fn text_of<'a>(row: Row, headers: &'a [u8], items: &'a [u8], spot: Spot) -> &'a [u8] {
    match row.part {
        Part::Header => lines::line_of(headers, row.place),
        Part::Name => spot.name_in(items),
        _ => spot.text_in(items),
    }
}

// ---- Patterns

fn for_people(row: Row) -> &'static [u8] {
    match row.part {
        Part::Header => b"record RT, header line P: O -> W\n",
        Part::Atoms => b"record RT, atoms: O -> W\n",
        Part::Bonds => b"record RT, bonds: O -> W\n",
        Part::Chiral => b"record RT, chiral: O -> W\n",
        Part::Atom => b"record RT, atom P, F: O -> W\n",
        Part::Bond => b"record RT, bond P, F: O -> W\n",
        Part::Name => b"record RT, item P, name: O -> W\n",
        Part::Value if row.side.is_some() =>
            b"record RT, item P N, line L, only in the S file: V\n",
        Part::Value => b"record RT, item P N, line L: O -> W\n",
        Part::Item => b"record RT, item P N: only in the S file\n",
        Part::Record => b"record RT: only in the S file\n",
        Part::Same => b"no difference in R recordX\n",
        Part::Sums => b"L differenceY in P of R recordX\n",
    }
}

// Nothing sums up for programs.
fn for_programs(row: Row) -> &'static [u8] {
    match row.part {
        Part::Header => b"{\"record\":R,\"part\":\"header\",\"line\":P,\"old\":O,\"new\":W}\n",
        Part::Atoms => b"{\"record\":R,\"part\":\"atoms\",\"old\":O,\"new\":W}\n",
        Part::Bonds => b"{\"record\":R,\"part\":\"bonds\",\"old\":O,\"new\":W}\n",
        Part::Chiral => b"{\"record\":R,\"part\":\"chiral\",\"old\":O,\"new\":W}\n",
        Part::Atom =>
            b"{\"record\":R,\"part\":\"atom\",\"number\":P,\"field\":\"F\",\"old\":O,\"new\":W}\n",
        Part::Bond =>
            b"{\"record\":R,\"part\":\"bond\",\"number\":P,\"field\":\"F\",\"old\":O,\"new\":W}\n",
        Part::Name => b"{\"record\":R,\"part\":\"name\",\"item\":P,\"old\":O,\"new\":W}\n",
        Part::Value =>
            b"{\"record\":R,\"part\":\"value\",\"item\":P,\"line\":L,\"old\":O,\"new\":W}\n",
        Part::Item => b"{\"record\":R,\"part\":\"item\",\"item\":P,\"only\":\"S\"}\n",
        Part::Record => b"{\"record\":R,\"part\":\"record\",\"only\":\"S\"}\n",
        Part::Same | Part::Sums => b"\n",
    }
}

fn for_first(row: Row) -> &'static [u8] {
    match row.part {
        Part::Record => b"record RT is in the M file only\n",
        _ => b"record RT differs\n",
    }
}

// A text that ends in LF.
fn pattern_of(way: Way, row: Row) -> &'static [u8] {
    if way.first {
        return for_first(row);
    }
    if way.json {
        return for_programs(row);
    }
    for_people(row)
}

// Names of an atom's numbers and of a bond's.
const ATOM_FIELDS: [&str; 16] = [
    "x",
    "y",
    "z",
    "symbol",
    "mass_difference",
    "charge",
    "radical",
    "isotope",
    "parity",
    "hydrogen_count",
    "care",
    "valence",
    "h0",
    "map",
    "inversion",
    "exact",
];

const BOND_FIELDS: [&str; 6] = ["first", "second", "type", "stereo", "topology", "centre"];

// The title of a record, which is its first header line, behind its number.
fn put_title(out: Out, room: &mut [u8], headers: &[u8]) -> Out {
    let title = lines::line_of(headers, 1);
    if title.is_empty() {
        return out;
    }
    out.byte(room, b' ').bytes(room, title)
}

// What the old file has; where a text stands in the new one only, what that has.
fn put_side(out: Out, room: &mut [u8], side: Option<Side>, old: &[u8], new: &[u8]) -> Out {
    if side == Some(Side::New) {
        return out.bytes(room, new);
    }
    out.bytes(room, old)
}

// Whether no text stands at the place of a difference: figures differ, or for programs the text stands on the other side only.
fn is_short(json: bool, row: Row, other: Side) -> bool {
    match row.part {
        Part::Atoms | Part::Bonds | Part::Chiral | Part::Atom | Part::Bond => true,
        _ => json && row.side == Some(other),
    }
}

// A figure, or a text.
fn put_value(
    out: Out,
    room: &mut [u8],
    json: bool,
    row: Row,
    v: i64,
    other: Side,
    line: &[u8],
) -> Out {
    if is_short(json, row, other) {
        return out.text(room, say::figure(row, json, v));
    }
    if json {
        return program_json::put_string(out, room, line);
    }
    out.bytes(room, line)
}

// The name of a number of an atom or a bond; they count from 1.
fn field_name(row: Row) -> &'static str {
    let names: &[&str] = match row.part {
        Part::Atom => &ATOM_FIELDS,
        _ => &BOND_FIELDS,
    };
    match row.field.checked_sub(1) {
        Some(k) => names.get(k as usize).copied().unwrap_or(""),
        None => "",
    }
}

fn by_side(side: Option<Side>, old: &'static str, new: &'static str) -> &'static str {
    match side {
        Some(Side::Old) => old,
        Some(Side::New) => new,
        None => "",
    }
}

fn plural(n: u64) -> Text {
    if n == 1 {
        return Text::new();
    }
    Text::new().byte(b's')
}

// A number or a name.
fn short(b: u8, row: Row) -> Text {
    match b {
        b'R' => Text::new().number(row.record),
        b'P' => Text::new().number(row.place),
        b'L' => Text::new().number(row.field),
        b'X' => plural(row.record),
        b'Y' => plural(row.field),
        b'F' => Text::new().print(field_name(row)),
        b'S' => Text::new().print(by_side(row.side, "old", "new")),
        _ => Text::new().print(by_side(row.side, "first", "second")),
    }
}

// What stands for a capital letter of a pattern.
fn put_piece(
    out: Out,
    room: &mut [u8],
    b: u8,
    json: bool,
    row: Row,
    headers: &[u8],
    name: &[u8],
    new_name: &[u8],
    old: &[u8],
    new: &[u8],
) -> Out {
    match b {
        b'T' => put_title(out, room, headers),
        b'N' => put_side(out, room, row.side, name, new_name),
        b'V' => put_side(out, room, row.side, old, new),
        b'O' => put_value(out, room, json, row, row.left, Side::New, old),
        b'W' => put_value(out, room, json, row, row.right, Side::Old, new),
        _ => out.text(room, short(b, row)),
    }
}

// A difference by its pattern, with the record's header lines, the names of its item, if it has one, and both texts.
fn put_line(
    out: Out,
    room: &mut [u8; ROOM],
    way: Way,
    row: Row,
    headers: &[u8],
    name: &[u8],
    new_name: &[u8],
    old: &[u8],
    new: &[u8],
) -> Out {
    let mut next = out;
    for &b in pattern_of(way, row) {
        if b.is_ascii_uppercase() {
            next = put_piece(
                next, room, b, way.json, row, headers, name, new_name, old, new,
            );
        } else {
            next = next.byte(room, b);
        }
    }
    next
}

// A line that needs no texts but the record's header lines.
pub fn put_plain(out: Out, room: &mut [u8; ROOM], way: Way, row: Row, headers: &[u8]) -> Out {
    let none = program_io::front(headers, 0);
    put_line(out, room, way, row, headers, none, none, none, none)
}

// ---- Differences

// A difference of a pair of records, by the header lines and the items of both.
fn put_row<'a, 'b>(
    told: Told,
    room: &mut [u8; ROOM],
    way: Way,
    row: Row,
    headers: &'a [u8],
    items: &'a [u8],
    new_headers: &'b [u8],
    new_items: &'b [u8],
) -> Told {
    let out = told.out;
    let old = sought(told.old, row, Side::New, items);
    let new = sought(told.new, row, Side::Old, new_items);
    let left = text_of(row, headers, items, old);
    let right = text_of(row, new_headers, new_items, new);
    Told {
        out: put_line(
            out,
            room,
            way,
            row,
            headers,
            old.name_in(items),
            new.name_in(new_items),
            left,
            right,
        ),
        old,
        new,
    }
}

// The first rows of a list, so many.
pub fn put_rows<'a, 'b>(
    told: Told,
    room: &mut [u8; ROOM],
    way: Way,
    list: &[i64],
    count: usize,
    headers: &'a [u8],
    items: &'a [u8],
    new_headers: &'b [u8],
    new_items: &'b [u8],
) -> Told {
    let mut next = told;
    let (rows, _) = list.as_chunks::<7>();
    for numbers in rows.iter().take(count) {
        next = put_row(
            next,
            room,
            way,
            say::row_of(numbers),
            headers,
            items,
            new_headers,
            new_items,
        );
    }
    next
}
