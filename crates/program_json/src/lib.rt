// The reading of a record as JSON, gathered for a descriptor.
#![tactic(auto)]

mod bounds;
mod listing;
mod strings;

pub use bounds::{End, first_end};
use listing::put_items;
use program_io::{Out, Text};
use program_json_rows::{ATOM, BOND, ROW};
pub use strings::put_string;
use text::LineAt;

// What stands before all but the first of a list.
pub fn put_comma(out: Out, room: &mut [u8], first: bool) -> Out {
    if first {
        return out;
    }
    out.byte(room, b',')
}

// An atom's row. The output fails where the room or the table is too short for one.
fn put_atom(out: Out, room: &mut [u8], atoms: &[i32], i: usize) -> Out {
    let ready = out.clear(room, ROW);
    let at = ready.used;
    if program_io::has_more(room.len(), at, ROW) && program_io::has_more(atoms.len(), i, ATOM) {
        return ready.to(program_json_rows::put_atom(room, at, atoms, i));
    }
    ready.failed()
}

fn put_bond(out: Out, room: &mut [u8], bonds: &[i32], i: usize) -> Out {
    let ready = out.clear(room, ROW);
    let at = ready.used;
    if program_io::has_more(room.len(), at, ROW) && program_io::has_more(bonds.len(), i, BOND) {
        return ready.to(program_json_rows::put_bond(room, at, bonds, i));
    }
    ready.failed()
}

fn put_atoms(out: Out, room: &mut [u8], atoms: &[i32], n: u32) -> Out {
    let mut next = out;
    for i in 0..n {
        next = put_atom(next, room, atoms, ATOM * (i as usize));
    }
    next
}

fn put_bonds(out: Out, room: &mut [u8], bonds: &[i32], m: u32) -> Out {
    let mut next = out;
    for i in 0..m {
        next = put_bond(next, room, bonds, BOND * (i as usize));
    }
    next
}

// The bytes from `from` to before `to`.
pub fn part(s: &[u8], from: usize, to: usize) -> &[u8] {
    program_io::tail(program_io::front(s, to), from)
}

// The lines that begin between `from` and `to`, as strings. A line has at least one byte, so the bytes are more turns than are needed.
pub fn put_lines(out: Out, room: &mut [u8], s: &[u8], from: usize, to: usize) -> Out {
    let mut next = out;
    let mut at = from;
    for _ in 0..s.len() {
        if to <= at {
            return next;
        }
        let LineAt::Line { end, next: after } = text::line_at(s, at) else {
            return next;
        };
        next = put_string(put_comma(next, room, at == from), room, part(s, at, end));
        at = after;
    }
    next
}

// Where a record stands in its file: its number and its first line.
#[derive(Clone, Copy)]
pub struct Place {
    pub record: usize,
    pub line: usize,
}

// Where a record stands in the bytes handed on, and its numbers.
#[derive(Clone, Copy)]
pub struct Reading {
    pub place: Place,
    pub length: usize,
    pub n: u32,
    pub m: u32,
    pub chiral: u32,
    pub header_end: usize,
    pub items_start: usize,
    pub items_end: usize,
}

// What every object begins with. By words and numbers: with formats `records fetch` takes 15.2 instructions a byte in
// place of 14.9, and `read` 34.6 in place of 34.1.
fn opening(place: Place) -> Text {
    let numbered = Text::new()
        .word(b"{\"record\":")
        .number(place.record as u64);
    numbered.word(b",\"line\":").number(place.line as u64)
}

// What stands before the header lines.
fn before_header(place: Place, length: usize) -> Text {
    let sized = opening(place).word(b",\"bytes\":").number(length as u64);
    sized.word(b",\"header\":[")
}

// What stands between the header lines and the atoms.
fn before_atoms(chiral: u32) -> Text {
    let flagged = Text::new().word(b"],\"chiral\":").number(chiral as u64);
    flagged.word(b",\"atoms\":[")
}

// All up to the atoms.
fn put_front(out: Out, room: &mut [u8], s: &[u8], r: Reading) -> Out {
    let opened = out.text(room, before_header(r.place, r.length));
    let headed = put_lines(opened, room, s, 0, r.header_end);
    headed.text(room, before_atoms(r.chiral))
}

fn put_tables(out: Out, room: &mut [u8], atoms: &[i32], n: u32, bonds: &[i32], m: u32) -> Out {
    let with_atoms = put_atoms(out, room, atoms, n);
    put_bonds(with_atoms.bytes(room, b"],\"bonds\":["), room, bonds, m)
}

fn put_tail(out: Out, room: &mut [u8], items: &[u8]) -> Out {
    put_items(out.bytes(room, b"],\"items\":["), room, items).bytes(room, b"]}\n")
}

// A record as one object, in a line of its own; s begins where the record does.
pub fn put_record(
    out: Out,
    room: &mut [u8],
    s: &[u8],
    r: Reading,
    atoms: &[i32],
    bonds: &[i32],
) -> Out {
    let headed = put_front(out, room, s, r);
    let filled = put_tables(headed, room, atoms, r.n, bonds, r.m);
    put_tail(filled, room, part(s, r.items_start, r.items_end))
}

// An item of a record: its value lines stand from `from` to before `to`.
pub fn put_item(out: Out, room: &mut [u8], place: Place, s: &[u8], from: usize, to: usize) -> Out {
    let opened = out.text(room, opening(place).word(b",\"value\":["));
    put_lines(opened, room, s, from, to).bytes(room, b"]}\n")
}

// A record without the item.
pub fn put_missing(out: Out, room: &mut [u8], place: Place) -> Out {
    out.text(room, opening(place).word(b",\"value\":null}\n"))
}
