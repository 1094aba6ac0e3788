// The lines of a replay, as JSON. A line is put at a plain place of the room once the room has enough left for any line;
// the functions that put its parts answer the place behind them.
use crate::SIZE;
use program_io::Out;
use store_lots::{KEYS, LOTS};
use store_replay::Replay;

// No line is longer.
const LINE: usize = 256;

// A byte that stands in a string as it is.
fn is_plain(b: u8) -> bool {
    match b {
        b'"' | b'\\' => false,
        _ => matches!(b, 32..=126),
    }
}

fn put_byte(room: &mut [u8; SIZE], at: usize, b: u8) -> usize {
    put_bytes(room, at, &[b])
}

fn put_bytes(room: &mut [u8; SIZE], at: usize, text: &[u8]) -> usize {
    if !program_io::has_more(SIZE, at, text.len()) {
        return at;
    }
    let end = at + text.len();
    room[at..end].copy_from_slice(text);
    end
}

// A name, and a number after it.
fn put_number(room: &mut [u8; SIZE], at: usize, name: &[u8], n: u64) -> usize {
    let named = put_bytes(room, at, name);
    let mut digits = [0u8; 20];
    let k = io::decimal(n, &mut digits);
    put_bytes(room, named, &digits[..k])
}

// One byte of a string.
fn put_inner(room: &mut [u8; SIZE], at: usize, b: u8) -> usize {
    if is_plain(b) {
        return put_byte(room, at, b);
    }
    let begun = put_bytes(room, at, b"\\u00");
    let mut digits = [0u8; 16];
    let k = io::hex(b as u64, 2, &mut digits);
    put_bytes(room, begun, &digits[..k])
}

// A name, and the bytes of a string after it.
fn put_text(room: &mut [u8; SIZE], at: usize, name: &[u8], text: &[u8]) -> usize {
    let mut a = put_bytes(room, at, name);
    for b in text {
        a = put_inner(room, a, *b);
    }
    a
}

// Supplier and lot from the twelve bytes of a key, after what opens them.
fn put_key(room: &mut [u8; SIZE], at: usize, opening: &[u8], key: &[u8]) -> usize {
    let supplier = put_text(room, at, opening, program_io::front(key, 4));
    let lot = put_text(room, supplier, b"\",\"lot\":\"", program_io::tail(key, 4));
    put_byte(room, lot, b'"')
}

// Paper minus shelf.
fn put_difference(room: &mut [u8; SIZE], at: usize, paper: u32, shelf: u16) -> usize {
    let there = shelf as u32;
    if paper < there {
        return put_number(room, at, b",\"difference\":-", (there - paper) as u64);
    }
    put_number(room, at, b",\"difference\":", (paper - there) as u64)
}

fn put_figures(room: &mut [u8; SIZE], at: usize, paper: u32, shelf: u16) -> usize {
    let papered = put_number(room, at, b",\"paper\":", paper as u64);
    let shelved = put_number(room, papered, b",\"shelf\":", shelf as u64);
    put_difference(room, shelved, paper, shelf)
}

// The output with room for a line; it fails where there is none.
fn ready(out: Out, room: &[u8; SIZE]) -> Out {
    let cleared = out.clear(room, LINE);
    if program_io::has_more(SIZE, cleared.used, LINE) {
        return cleared;
    }
    cleared.failed()
}

pub fn put_count(
    out: Out,
    room: &mut [u8; SIZE],
    event: usize,
    key: &[u8],
    paper: u32,
    shelf: u16,
) -> Out {
    let begun = ready(out, room);
    let numbered = put_number(room, begun.used, b"{\"event\":", event as u64);
    let keyed = put_key(room, numbered, b",\"supplier\":\"", key);
    let told = put_figures(room, keyed, paper, shelf);
    begun.to(put_bytes(room, told, b"}\n"))
}

pub fn put_skip(out: Out, room: &mut [u8; SIZE], event: usize, key: &[u8], no: u8) -> Out {
    let begun = ready(out, room);
    let numbered = put_number(room, begun.used, b"{\"event\":", event as u64);
    let refused = put_number(room, numbered, b",\"refused\":", no as u64);
    let keyed = put_key(room, refused, b",\"supplier\":\"", key);
    begun.to(put_bytes(room, keyed, b"}\n"))
}

// The twelve bytes of a key from its three words, the low one of each first.
pub fn key_of(a: u32, b: u32, c: u32) -> [u8; 12] {
    let mut key = [0u8; 12];
    key[..4].copy_from_slice(&a.to_le_bytes());
    key[4..8].copy_from_slice(&b.to_le_bytes());
    key[8..].copy_from_slice(&c.to_le_bytes());
    key
}

fn put_lot(out: Out, room: &mut [u8; SIZE], key: &[u8; 12], paper: u32) -> Out {
    let begun = ready(out, room);
    let keyed = put_key(room, begun.used, b"{\"supplier\":\"", key);
    let papered = put_number(room, keyed, b",\"paper\":", paper as u64);
    begun.to(put_bytes(room, papered, b"}\n"))
}

// The lots in order of their first receipts. A key stands in three columns, as `store_lots` fills them.
pub fn put_lots(
    out: Out,
    room: &mut [u8; SIZE],
    keys: &[u32; KEYS],
    papers: &[u32; LOTS],
    lots: usize,
) -> Out {
    let mut next = out;
    for i in 0..lots.min(LOTS) {
        let key = key_of(keys[i], keys[512 + i], keys[1024 + i]);
        next = put_lot(next, room, &key, papers[i]);
    }
    next
}

// The papers of so many lots.
fn sum(papers: &[u32; LOTS], lots: usize) -> u64 {
    papers.iter().take(lots).fold(
        0,
        |total: u64, paper| total.saturating_add(u64::from(*paper)),
    )
}

fn put_quantities(
    room: &mut [u8; SIZE],
    at: usize,
    received: u64,
    issued: u64,
    paper: u64,
) -> usize {
    let more = put_number(room, at, b",\"received\":", received);
    let less = put_number(room, more, b",\"issued\":", issued);
    put_number(room, less, b",\"paper\":", paper)
}

// The last line.
pub fn put_sums(
    out: Out,
    room: &mut [u8; SIZE],
    papers: &[u32; LOTS],
    state: Replay,
    received: u64,
    issued: u64,
) -> Out {
    let begun = ready(out, room);
    let events = put_number(room, begun.used, b"{\"events\":", state.events as u64);
    let lots = put_number(room, events, b",\"lots\":", state.lots as u64);
    let paper = sum(papers, state.lots);
    let told = put_quantities(room, lots, received, issued, paper);
    begun.to(put_bytes(room, told, b"}\n"))
}
