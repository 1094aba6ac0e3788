// Strings of bytes that lines may hold.
ghost use Rattle.std.specs.Prelude.{◌+◌, ◌*◌, ◌≤◌, length};

use program_io::Out;

// A line has no more bytes; each may be written as two, and two quotes stand around them.
const LINE: usize = 200;

const QUOTED: usize = 402;

fn is_special(b: u8) -> bool {
    matches!(b, b'"' | b'\\')
}

// One byte of a string, with room for two.
fn put_inner(room: &mut [u8], at: usize, b: u8) -> usize
    requires { at + 2 ≤ length room.old }
    ensures { result ≤ at + 2 }
{
    if is_special(b) {
        let escaped = program_json_rows::put_byte(room, at, b'\\');
        return program_json_rows::put_byte(room, escaped, b);
    }
    program_json_rows::put_byte(room, at, b)
}

fn put_all_inner(room: &mut [u8], at: usize, s: &[u8]) -> usize
    requires { at + 2 * length s.now ≤ length room.old }
    ensures { result ≤ at + 2 * length s.now }
{
    let mut a = at;
    for b in s {
        a = put_inner(room, a, *b);
    }
    a
}

// A string of at most 200 bytes.
fn put_quoted(room: &mut [u8], at: usize, s: &[u8]) -> usize
    requires { (length s.now ≤ 200) × (at + 402 ≤ length room.old) }
    ensures { result ≤ at + 402 }
{
    let opened = program_json_rows::put_byte(room, at, b'"');
    let behind = put_all_inner(room, opened, s);
    program_json_rows::put_byte(room, behind, b'"')
}

// A string. The output fails where it is longer than a line may be, or the room too short for one.
pub fn put_string(out: Out, room: &mut [u8], s: &[u8]) -> Out {
    let ready = out.clear(room, QUOTED);
    let at = ready.used;
    if program_io::has_more(room.len(), at, QUOTED) && s.len() <= LINE {
        return ready.to(put_quoted(room, at, s));
    }
    ready.failed()
}
