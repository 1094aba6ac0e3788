// The pieces of a record as a line of JSON: the pieces first, then each atom's lowest.
#![tactic(auto)]

use program_io::{Out, Text};
use rules::LIMIT;

// What stands before all but the first of a list.
fn comma(i: usize) -> Text {
    if i == 0 {
        return Text::new();
    }
    Text::new().byte(b',')
}

// A piece: its lowest atom and its size.
fn piece(i: usize, head: u32, size: u32) -> Text {
    comma(i).print(format_args!("[{head},{size}]"))
}

fn label(i: usize, lowest: u32) -> Text {
    comma(i).print(lowest)
}

fn opening(record: usize) -> Text {
    Text::new().print(format_args!("{{\"record\":{record},\"pieces\":["))
}

// The line up to its pieces.
pub fn put_pieces(
    out: Out,
    room: &mut [u8],
    record: usize,
    heads: &[u32; LIMIT],
    sizes: &[u32; LIMIT],
    count: usize,
) -> Out {
    let mut next = out.text(room, opening(record));
    for (i, (head, size)) in heads.iter().zip(sizes).take(count).enumerate() {
        next = next.text(room, piece(i, *head, *size));
    }
    next
}

// The rest of it: the labels of n atoms.
pub fn put_labels(out: Out, room: &mut [u8], labels: &[u32; LIMIT], n: u32) -> Out {
    let mut next = out.bytes(room, b"],\"atoms\":[");
    for (i, lowest) in labels.iter().take(n as usize).enumerate() {
        next = next.text(room, label(i, *lowest));
    }
    next.bytes(room, b"]}\n")
}
