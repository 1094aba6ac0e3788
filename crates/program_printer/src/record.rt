// One record of the second reading, written.
use crate::{Pass, Stepped, Task};
use formula_drawn::FOUND;
use piece_record::RecordSplit;
use program_io::Out;
use program_json::{End, Place, Reading};
use program_json_rows::{ATOMS, BONDS};
use program_verdict::{CUT_SHORT, NO_SUCH_ITEM, SHORT_ROOM, Verdict};
use reader_look::Looked;
use reader_record::RecordRead;
use rules::LIMIT;
use writer_copy::Copied;

// The pass behind a record of so many bytes and lines, with its output.
fn behind(pass: Pass, length: usize, lines: usize, out: Out) -> Result<Stepped, Verdict> {
    out.done.map_err(Verdict::Unwritten)?;
    Ok(Stepped::Next(Pass {
        window: pass.window.past(length),
        records: pass.records.saturating_add(1),
        lines: pass.lines.saturating_add(lines),
        out,
        ..pass
    }))
}

// What was accepted at the first reading is only cut short by the buffer.
fn refused(no: u8) -> Result<Stepped, Verdict> {
    if no == CUT_SHORT {
        return Ok(Stepped::Short);
    }
    Err(Verdict::Changed)
}

fn place_of(pass: Pass) -> Place {
    Place {
        record: pass.records.saturating_add(1),
        line: pass.lines.saturating_add(1),
    }
}

// A record that was read, and its lines, or the number of its refusal.
fn front_of(place: Place, got: RecordRead) -> Result<(Reading, usize), u8> {
    match got {
        RecordRead::Read {
            n,
            m,
            chiral,
            length,
            lines,
            header_end,
            items_start,
            items_end,
        } => {
            let reading = Reading {
                place,
                length,
                n,
                m,
                chiral,
                header_end,
                items_start,
                items_end,
            };
            Ok((reading, lines))
        }
        RecordRead::Refused {
            no,
            line: _,
            column: _,
        } => Err(no),
    }
}

// The record at the front of s, read and written as JSON. What is promised of the tables is not asked for here.
fn put_reading(
    pass: Pass,
    s: &[u8],
    room: &mut [u8],
    atoms: &mut [i32; ATOMS],
    bonds: &mut [i32; BONDS],
) -> Result<Stepped, Verdict> {
    let got = reader_record::read_rows(pass.way.sd, s, atoms, bonds);
    match front_of(place_of(pass), got) {
        Ok((r, lines)) => {
            let out = program_json::put_record(pass.out, room, s, r, atoms, bonds);
            behind(pass, r.length, lines, out)
        }
        Err(no) => refused(no),
    }
}

// The item of the record at the front of s. The record was judged at the first reading, so that it is only looked through.
fn put_item(pass: Pass, item: &[u8], s: &[u8], room: &mut [u8]) -> Result<Stepped, Verdict> {
    let place = place_of(pass);
    match reader_look::look(s, item) {
        Looked::Item {
            from,
            to,
            length,
            lines,
        } => {
            let out = program_json::put_item(pass.out, room, place, s, from, to);
            behind(pass, length, lines, out)
        }
        Looked::Missing { length, lines } => {
            let out = program_json::put_missing(pass.out, room, place);
            behind(pass, length, lines, out)
        }
        Looked::Beyond => Ok(Stepped::Short),
        Looked::Other => Err(Verdict::Changed),
    }
}

// Where the record at the front of s ends: a molfile's is all of s.
fn record_end(sd: bool, s: &[u8]) -> Option<End> {
    if sd {
        return program_json::first_end(s);
    }
    Some(End {
        length: s.len(),
        lines: 0,
    })
}

// The record at the front of s, split into its pieces.
fn put_split(
    pass: Pass,
    s: &[u8],
    room: &mut [u8],
    atoms: &mut [i32; ATOMS],
    bonds: &mut [i32; BONDS],
) -> Result<Stepped, Verdict> {
    let Some(End { length, lines }) = record_end(pass.way.sd, s) else {
        return Ok(Stepped::Short);
    };
    let record = program_io::front(s, length);
    let mut labels = [0u32; LIMIT];
    let mut heads = [0u32; LIMIT];
    let mut sizes = [0u32; LIMIT];
    match piece_record::split_record(
        u8::from(pass.way.sd),
        record,
        atoms,
        bonds,
        &mut labels,
        &mut heads,
        &mut sizes,
    ) {
        RecordSplit::Pieces { atoms: n, count } => {
            let number = pass.records.saturating_add(1);
            let begun = program_pieces::put_pieces(pass.out, room, number, &heads, &sizes, count);
            let out = program_pieces::put_labels(begun, room, &labels, n);
            behind(pass, length, lines, out)
        }
        RecordSplit::Refused {
            no,
            line: _,
            column: _,
        } => refused(no),
    }
}

// Where what remains of the room does not suffice, it is written out, and the record tried again in all of it.
fn make_room(pass: Pass, room: &[u8]) -> Result<Stepped, Verdict> {
    if pass.out.used == 0 {
        return Err(Verdict::NoRoom);
    }
    let out = pass.out.flush(room);
    out.done.map_err(Verdict::Unwritten)?;
    Ok(Stepped::Next(Pass { out, ..pass }))
}

fn after_copy(pass: Pass, room: &[u8], copied: Copied) -> Result<Stepped, Verdict> {
    match copied {
        Copied::Done {
            taken,
            lines,
            length,
        } => behind(pass, taken, lines, pass.out.more(room, length)),
        Copied::Refused {
            no,
            line: _,
            column: _,
        } => {
            if no == SHORT_ROOM {
                make_room(pass, room)
            } else {
                refused(no)
            }
        }
    }
}

// The record at the front of s in its canonical form, into what remains of the room.
fn put_copy(
    pass: Pass,
    s: &[u8],
    room: &mut [u8],
    atoms: &mut [i32; ATOMS],
    bonds: &mut [i32; BONDS],
) -> Result<Stepped, Verdict> {
    let used = pass.out.used;
    if room.len() < used {
        return make_room(pass, room);
    }
    let copied = writer_copy::copy_rows(pass.way.sd, s, atoms, bonds, &mut room[used..]);
    after_copy(pass, room, copied)
}

// One record more whose formula does not agree, unless it does.
fn told_apart(pass: Pass, agrees: bool) -> Pass {
    if agrees {
        return pass;
    }
    Pass {
        apart: pass.apart.saturating_add(1),
        ..pass
    }
}

// The formula of the record at the front of s. It was accepted, so what is refused is the formula.
fn put_formula(
    pass: Pass,
    s: &[u8],
    room: &mut [u8],
    atoms: &mut [i32; ATOMS],
    bonds: &mut [i32; BONDS],
) -> Result<Stepped, Verdict> {
    let Some(End { length, lines }) = program_json::first_end(s) else {
        return Ok(Stepped::Short);
    };
    let record = program_io::front(s, length);
    let mut found = [0u32; FOUND];
    let number = pass.records.saturating_add(1);
    match formula_record::compare_formula(record, atoms, bonds, &mut found) {
        Ok(count) => {
            let out = program_formula::put_differences(pass.out, room, number, count, &found);
            behind(told_apart(pass, count == 0), length, lines, out)
        }
        Err(refusal) => {
            if refusal.no < NO_SUCH_ITEM {
                Err(Verdict::Changed)
            } else {
                let out = program_formula::put_refused(pass.out, room, number, refusal.no);
                behind(told_apart(pass, false), length, lines, out)
            }
        }
    }
}

// The record at the front of s, where one may stand. A molfile is all of its bytes, so its end has to be there before it is read.
pub fn put_next(
    pass: Pass,
    item: &[u8],
    s: &[u8],
    room: &mut [u8],
    atoms: &mut [i32; ATOMS],
    bonds: &mut [i32; BONDS],
) -> Result<Stepped, Verdict> {
    if pass.window.ended {
        if s.is_empty() {
            return Ok(Stepped::Done);
        }
    } else if !pass.way.sd {
        return Ok(Stepped::Short);
    }
    match pass.way.task {
        Task::Readings => put_reading(pass, s, room, atoms, bonds),
        Task::Item => put_item(pass, item, s, room),
        Task::Canon => put_copy(pass, s, room, atoms, bonds),
        Task::Pieces => put_split(pass, s, room, atoms, bonds),
        Task::Formula => put_formula(pass, s, room, atoms, bonds),
    }
}
