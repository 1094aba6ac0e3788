// The key of a record, from its two items.
#![tactic(auto)]

ghost use Rattle.std.specs.Prelude.{◌≡◌, ◌+◌, ◌≤◌, ◌<◌, length};
ghost use Rattle.stock_key.specs.Read.{byte_of, word_of, text_in, absent_by, text_of, lot_of};
ghost use Rattle.stock_key.specs.Promise.{KeyPromise};

use reader_first_line::FirstLine;
use store_event::Key;

// Why a text makes no part of a key.
#[derive(Clone, Copy)]
pub enum Fault {
    Missing,
    TooLong,
    Padded,
}

// The key; or which text makes none, and why; or the record's own refusal.
#[derive(Clone, Copy)]
pub enum KeyRead {
    Key { key: Key },
    NoSupplier { why: Fault },
    NoLot { why: Fault },
    Refused { no: u8, line: usize, column: usize },
}

// A text that makes a part of a key, by where it stands.
#[derive(Drop)]
enum TextAt {
    Good { from: usize, to: usize },
    Wrong { why: Fault },
    Refused { no: u8, line: usize, column: usize },
}

fn wide(b: u8) -> u32
    ensures value { result ≡ b }
    ensures upper_bound { result < 256 }
{
    b as u32
}

// The byte there, or the pad byte past the text's end.
fn byte_of(s: &[u8], at: usize, to: usize, pad: u8) -> u32
    requires { to ≤ length s.now }
    ensures value { result ≡ byte_of s.now at to pad }
    ensures upper_bound { result < 256 }
{
    if at < to {
        return wide(s[at]);
    }
    wide(pad)
}

// Four bytes as one number, the low one first.
fn word_of(s: &[u8], at: usize, to: usize, pad: u8) -> u32
    requires { (to ≤ length s.now) × (at ≤ length s.now + 4) }
    ensures { result ≡ word_of s.now at to pad }
{
    byte_of(s, at, to, pad)
        + 256
            * (byte_of(s, at + 1, to, pad)
                + 256 * (byte_of(s, at + 2, to, pad) + 256 * byte_of(s, at + 3, to, pad)))
}

// A text that is there: it fits its field, and does not end in the pad byte.
fn text_in(s: &[u8], from: usize, to: usize, width: usize, pad: u8) -> TextAt
    requires { (from ≤ to) × (to ≤ length s.now) }
    ensures { result ≡ text_in s.now from to width pad }
{
    if width < to - from {
        return TextAt::Wrong {
            why: Fault::TooLong,
        };
    }
    if to <= from {
        return TextAt::Good { from, to };
    }
    if s[to - 1] == pad {
        return TextAt::Wrong { why: Fault::Padded };
    }
    TextAt::Good { from, to }
}

// Number 22 says that a good record has no such item.
fn absent(no: u8, line: usize, column: usize) -> TextAt
    ensures { result ≡ absent_by no line column }
{
    if no == 22 {
        return TextAt::Wrong {
            why: Fault::Missing,
        };
    }
    TextAt::Refused { no, line, column }
}

// The first value line of the first item of a name.
fn text_of(s: &[u8], name: &[u8], width: usize, pad: u8) -> TextAt
    ensures { result ≡ text_of s.now name.now width pad }
{
    match reader_first_line::first_line(s, name) {
        FirstLine::Line { from, to } => text_in(s, from, to, width, pad),
        FirstLine::Empty => TextAt::Wrong {
            why: Fault::Missing,
        },
        FirstLine::Refused { no, line, column } => absent(no, line, column),
    }
}

// The lot's eight bytes behind the supplier's four.
fn lot_of(s: &[u8], supplier: u32, lot: &[u8], pad: u8) -> KeyRead
    ensures { result ≡ lot_of s.now supplier lot.now pad }
{
    match text_of(s, lot, 8, pad) {
        TextAt::Good { from, to } => KeyRead::Key {
            key: Key {
                supplier,
                first: word_of(s, from, to, pad),
                second: word_of(s, from + 4, to, pad),
            },
        },
        TextAt::Wrong { why } => KeyRead::NoLot { why },
        TextAt::Refused { no, line, column } => KeyRead::Refused { no, line, column },
    }
}

// The key of the record that the bytes begin with, by the names of its two items and the pad byte.
pub fn key_of(s: &[u8], supplier: &[u8], lot: &[u8], pad: u8) -> KeyRead
    ensures { KeyPromise s.now supplier.now lot.now pad result }
{
    match text_of(s, supplier, 4, pad) {
        TextAt::Good { from, to } => lot_of(s, word_of(s, from, to, pad), lot, pad),
        TextAt::Wrong { why } => KeyRead::NoSupplier { why },
        TextAt::Refused { no, line, column } => KeyRead::Refused { no, line, column },
    }
}
