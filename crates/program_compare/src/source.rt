// A file at its second reading: its records one after the other, each as it stands in the buffer and in the tables.
use compare_record::Numbers;
use program_io::{Input, Window};
use program_json_rows::{ATOMS, BONDS};
use program_verdict::{CUT_SHORT, Verdict};
use reader_record::RecordRead;
use std::fs::File;

// The last byte of the buffer stands beside it: it tells whether input follows a full one.
pub const BUFFER: usize = 1048577;

// Where a record stands in its buffer, and its numbers.
#[derive(Clone, Copy)]
pub struct Shape {
    at: usize,
    length: usize,
    pub numbers: Numbers,
    header_end: usize,
    items_start: usize,
    items_end: usize,
}

// What was met at the place.
#[derive(Drop)]
enum Met {
    Record(Shape),
    End,
    // The record is not wholly in the buffer.
    Short,
}

// The record at the front of s, which is what stands in the buffer. Once the file has ended and every byte of it is
// used up, there is none. What was accepted at the first reading is only cut short by the buffer.
fn read(
    window: &mut Window,
    s: &[u8],
    atoms: &mut [i32; ATOMS],
    bonds: &mut [i32; BONDS],
) -> Result<Met, Verdict> {
    if window.ended && s.is_empty() {
        return Ok(Met::End);
    }
    match reader_record::read_rows(true, s, atoms, bonds) {
        RecordRead::Read {
            n,
            m,
            chiral,
            length,
            lines: _,
            header_end,
            items_start,
            items_end,
        } => {
            let at = window.at;
            *window = window.past(length);
            Ok(Met::Record(Shape {
                at,
                length,
                numbers: Numbers { n, m, chiral },
                header_end,
                items_start,
                items_end,
            }))
        }
        RecordRead::Refused {
            no: CUT_SHORT,
            line: _,
            column: _,
        } => Ok(Met::Short),
        RecordRead::Refused {
            no: _,
            line: _,
            column: _,
        } => Err(Verdict::Changed),
    }
}

// The next record of a file, if there is one more. Where it is short more is read behind it; what is short in a buffer
// that was just filled has changed.
pub fn next(
    window: &mut Window,
    file: &File,
    buf: &mut [u8; BUFFER],
    atoms: &mut [i32; ATOMS],
    bonds: &mut [i32; BONDS],
) -> Result<Option<Shape>, Verdict> {
    let s = window.of(buf);
    match read(window, s, atoms, bonds)? {
        Met::Record(shape) => return Ok(Some(shape)),
        Met::End => return Ok(None),
        Met::Short => {}
    }
    *window = window
        .refill(Input::Opened(file), buf)
        .map_err(Verdict::Unreadable)?;
    match read(window, window.of(buf), atoms, bonds)? {
        Met::Record(shape) => Ok(Some(shape)),
        Met::End => Ok(None),
        Met::Short => Err(Verdict::Changed),
    }
}

// The bytes of a record in its buffer.
pub fn bytes_of(buf: &[u8], shape: Shape) -> &[u8] {
    program_io::front(program_io::tail(buf, shape.at), shape.length)
}

pub fn items_of(s: &[u8], shape: Shape) -> &[u8] {
    program_json::part(s, shape.items_start, shape.items_end)
}

pub fn headers_of(s: &[u8], shape: Shape) -> &[u8] {
    program_io::front(s, shape.header_end)
}
