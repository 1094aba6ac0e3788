// Items as JSON: name and value lines of each.
use crate::strings::put_string;
use crate::{part, put_comma};
use line_text::{ItemLine, ValueKind};
use program_io::Out;
use text::LineAt;

// Items written so far: whether the values of one are, and whether what comes next is the first of its list.
#[derive(Drop)]
struct Listed {
    out: Out,
    inside: bool,
    first: bool,
}

fn put_name(list: Listed, room: &mut [u8], name: &[u8]) -> Listed {
    let opened = put_comma(list.out, room, list.first).byte(room, b'[');
    Listed {
        out: put_string(opened, room, name)
            .byte(room, b',')
            .byte(room, b'['),
        inside: true,
        first: true,
    }
}

fn put_value(list: Listed, room: &mut [u8], line: &[u8]) -> Listed {
    let parted = put_comma(list.out, room, list.first);
    Listed {
        out: put_string(parted, room, line),
        inside: true,
        first: false,
    }
}

fn close_item(list: Listed, room: &mut [u8]) -> Listed {
    Listed {
        out: list.out.byte(room, b']').byte(room, b']'),
        inside: false,
        first: false,
    }
}

// What a line of the items is; anything else does not stand in an accepted record.
#[derive(Drop)]
enum Line {
    Name { from: usize, to: usize },
    Value,
    Blank,
    Other,
}

fn title_line(line: &[u8]) -> Line {
    match line_text::item_line(line) {
        Ok(ItemLine::Title { from, to }) => Line::Name { from, to },
        Ok(ItemLine::Close) => Line::Other,
        Err(_) => Line::Other,
    }
}

fn inner_line(line: &[u8]) -> Line {
    match line_text::value_line(line) {
        Ok(ValueKind::Value) => Line::Value,
        Ok(ValueKind::Blank) => Line::Blank,
        Err(_) => Line::Other,
    }
}

fn line_as(inside: bool, line: &[u8]) -> Line {
    if inside {
        return inner_line(line);
    }
    title_line(line)
}

fn put_line(list: Listed, room: &mut [u8], line: &[u8]) -> Listed {
    match line_as(list.inside, line) {
        Line::Name { from, to } => put_name(list, room, part(line, from, to)),
        Line::Value => put_value(list, room, line),
        Line::Blank => close_item(list, room),
        Line::Other => list,
    }
}

// The items of an accepted record. A line has at least one byte, so the bytes are more turns than are needed.
fn list_items(list: Listed, room: &mut [u8], s: &[u8]) -> Listed {
    let mut listed = list;
    let mut at: usize = 0;
    for _ in 0..s.len() {
        let LineAt::Line { end, next } = text::line_at(s, at) else {
            return listed;
        };
        listed = put_line(listed, room, part(s, at, end));
        at = next;
    }
    listed
}

pub fn put_items(out: Out, room: &mut [u8], s: &[u8]) -> Out {
    let list = Listed {
        out,
        inside: false,
        first: true,
    };
    list_items(list, room, s).out
}
