// The next record of a file in a buffer, mended. A record ends with a `$$$$` line, but its second and third header lines may be such lines, too:
// where the bytes up to one of them are cut short, the next one is tried.
use line_text::ItemLine;
use mend_file::Mended;
use program_verdict::CUT_SHORT;
use text::LineAt;

// The mended text of any record that fits the buffer fits this room.
pub const ROOM: usize = 2097408;

// Two numbers for each repair of a record.
pub const LIST: usize = 65536;

fn is_close(line: &[u8]) -> bool {
    match line_text::item_line(line) {
        Ok(ItemLine::Close) => true,
        _ => false,
    }
}

// Where the next `$$$$` line from a line's start on ends. A line has at least one byte, so the bytes are more turns
// than are needed.
fn next_end(s: &[u8], from: usize) -> Option<usize> {
    let mut at = from;
    for _ in 0..s.len() {
        let LineAt::Line { end, next } = text::line_at(s, at) else {
            return None;
        };
        if is_close(program_json::part(s, at, end)) {
            return Some(next);
        }
        at = next;
    }
    None
}

// The record at the front of s: where it ends, and how it is mended or what is wrong with it; none where the bytes end
// within it. Cut short is no refusal here, as the next `$$$$` line may be the record's last.
pub fn try_record(
    s: &[u8],
    room: &mut [u8; ROOM],
    list: &mut [u64; LIST],
) -> Option<(usize, Mended)> {
    let mut from: usize = 0;
    for _ in 0..s.len() {
        let end = next_end(s, from)?;
        match mend_file::mend_file(program_io::front(s, end), room, list) {
            Mended::Refused {
                no: CUT_SHORT,
                line: _,
                column: _,
            } => from = end,
            mended => return Some((end, mended)),
        }
    }
    None
}
