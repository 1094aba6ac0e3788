// Good header lines and items, written into lent room: they were judged before, so none is refused here.
#![tactic(auto)]

ghost use Rattle.std.specs.Prelude.{◌+◌, ◌-◌, ◌≤◌, length, take, drop};
ghost use Rattle.rules.specs.Write.{header_text};
ghost use Rattle.judge_parts.specs.Written.{text_of, written_headers, written_items};
ghost use Rattle.writer_parts.specs.Step.{ended, place_of};
ghost use Rattle.writer_parts.specs.declared.Place.{Place};
ghost use Rattle.writer_lines.specs.Laid.{Laid};
ghost use Rattle.writer_parts_put.specs.Put.{Room, Fitting, PutTo};

// After a line of items is written: whether values of an item follow, and where the next line's text begins.
#[derive(Drop)]
struct Put {
    inside: bool,
    next: usize,
}

// A line and its end.
fn put_line(line: &[u8], room: &mut [u8], at: usize) -> usize
    requires { at + (length line.now + 1) ≤ length room.old }
    ensures { Laid room.old room.new at (ended line.now) result }
{
    let e = writer_lines::put_bytes(room, at, line);
    room[e] = b'\n';
    e + 1
}

// A data header made anew, for the name at these positions of the line.
fn put_title(line: &[u8], from: usize, to: usize, room: &mut [u8], at: usize) -> usize
    requires from_le_to { (from ≤ to) × (to ≤ length line.now) }
    requires from_in_bounds { at + (to - from + 6) ≤ length room.old }
    ensures { Laid room.old room.new at (ended (header_text (take (to - from) (drop from line.now)))) result }
{
    let a = writer_lines::put_bytes(room, at, b">  <");
    let b = writer_lines::put_bytes(room, a, &line[from..to]);
    put_line(b">", room, b)
}

// A data header is made anew.
fn put_item(line: &[u8], room: &mut [u8], at: usize) -> Put
    requires { Fitting Place.Items line.now at (length room.old) }
    ensures { PutTo Place.Items line.now room.old room.new at (place_of result.inside) result.next }
{
    let name = line_judged::name_of(line);
    Put {
        inside: true,
        next: put_title(line, name.from, name.to, room, at),
    }
}

// A value line keeps its bytes, and the blank line after the values is written empty.
fn put_value(line: &[u8], room: &mut [u8], at: usize) -> Put
    requires { Fitting Place.Values line.now at (length room.old) }
    ensures { PutTo Place.Values line.now room.old room.new at (place_of result.inside) result.next }
{
    if text::is_blank(line) {
        return Put {
            inside: false,
            next: put_line(b"", room, at),
        };
    }
    Put {
        inside: true,
        next: put_line(line, room, at),
    }
}

// One line of items.
fn put_next(inside: bool, line: &[u8], room: &mut [u8], at: usize) -> Put
    requires { Fitting (place_of inside) line.now at (length room.old) }
    ensures { PutTo (place_of inside) line.now room.old room.new at (place_of result.inside) result.next }
{
    if inside {
        return put_value(line, room, at);
    }
    put_item(line, room, at)
}

// Good header lines: each keeps its bytes.
pub fn put_headers(s: &[u8], room: &mut [u8], at: usize) -> usize
    requires { Room (written_headers s.now) at (length room.old) }
    ensures { Laid room.old room.new at (text_of (written_headers s.now)) result }
{
    let mut i: usize = 0;
    let mut e = at;
    // The place jumps by lines of any length: a `for` would need an iterator over them, with a proof of its own.
    while i < s.len() {
        let line = line_judged::whole_line(s, i);
        let end = line.end;
        e = put_line(&s[i..end], room, e);
        i = line.next;
    }
    e
}

// Good items: a title, its values up to the blank, and so on.
pub fn put_items(s: &[u8], room: &mut [u8], at: usize) -> usize
    requires { Room (written_items s.now) at (length room.old) }
    ensures { Laid room.old room.new at (text_of (written_items s.now)) result }
{
    let mut inside = false;
    let mut i: usize = 0;
    let mut e = at;
    // The place jumps by lines of any length: a `for` would need an iterator over them, with a proof of its own.
    while i < s.len() {
        let line = line_judged::whole_line(s, i);
        let end = line.end;
        let put = put_next(inside, &s[i..end], room, e);
        inside = put.inside;
        e = put.next;
        i = line.next;
    }
    e
}
