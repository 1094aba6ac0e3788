// Where a record that was accepted ends, told without judging it again.
use line_text::ItemLine;
use text::LineAt;

// Where a record ends: behind so many bytes and lines.
#[derive(Clone, Copy)]
pub struct End {
    pub length: usize,
    pub lines: usize,
}

// Whether so many lines of an accepted record are all: its three header lines may hold anything, no other line but the last is a `$$$$` line.
fn is_last(line: &[u8], lines: usize) -> bool {
    if lines < 4 {
        return false;
    }
    // Most lines are told by their first byte.
    if text::column(line, 1) != b'$' {
        return false;
    }
    match line_text::item_line(line) {
        Ok(ItemLine::Close) => true,
        _ => false,
    }
}

// The end of the first record of the bytes, which was accepted; none where they end before it. A line has at least one
// byte, so the bytes are more turns than are needed.
pub fn first_end(s: &[u8]) -> Option<End> {
    let mut at: usize = 0;
    for before in 0..s.len() {
        let LineAt::Line { end, next } = text::line_at(s, at) else {
            return None;
        };
        let lines = before + 1;
        if is_last(crate::part(s, at, end), lines) {
            return Some(End {
                length: next,
                lines,
            });
        }
        at = next;
    }
    None
}
