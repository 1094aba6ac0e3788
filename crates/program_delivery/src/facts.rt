// Facts about a file, one a line, of which sentences are made elsewhere. In quoted text a backslash, and a byte that is not printable, is \xHH.
use program_io::{Out, Text};
use text::LineAt;

// Bytes of a line that are quoted; no column that a refusal names lies beyond.
const QUOTED: usize = 250;

fn put_hex(out: Out, room: &mut [u8], b: u8) -> Out {
    out.text(room, Text::new().word(b"\\x").hex(b))
}

pub fn put_byte(out: Out, room: &mut [u8], b: u8) -> Out {
    match b {
        b'\\' | ..=31 | 127.. => put_hex(out, room, b),
        _ => out.byte(room, b),
    }
}

// Quoted text, and the end of the fact.
pub fn put_quoted(out: Out, room: &mut [u8], s: &[u8]) -> Out {
    let mut o = out;
    for b in s {
        o = put_byte(o, room, *b);
    }
    o.byte(room, b'\n')
}

// A line behind its length, cut where it is long.
fn put_line(out: Out, room: &mut [u8], word: &str, line: &[u8]) -> Out {
    let length = line.len();
    let text = Text::new().print(format_args!("{word}{length} "));
    put_quoted(out.text(room, text), room, program_io::front(line, QUOTED))
}

// So many lines from the front of a text; of one that is unfinished what there is.
pub fn put_lines(out: Out, room: &mut [u8], s: &[u8], count: usize) -> Out {
    let mut o = out;
    let mut at: usize = 0;
    for _ in 0..count {
        match text::line_at(s, at) {
            LineAt::Line { end, next } => {
                let line = program_io::tail(program_io::front(s, end), at);
                o = put_line(o, room, "line ", line);
                at = next;
            }
            LineAt::Unfinished => {
                return put_line(o, room, "rest ", program_io::tail(s, at));
            }
        }
    }
    o
}

// A fact of two numbers, before its text.
pub fn begin(word: &str, a: usize, b: usize) -> Text {
    Text::new().print(format_args!("{word}{a} {b} "))
}
