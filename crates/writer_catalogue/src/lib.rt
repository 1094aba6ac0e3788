// A whole SDfile in its canonical form, written into lent room: one pass judges and measures, one reads and writes.
#![tactic(auto)]

ghost use Rattle.std.specs.Prelude.{◌≡◌, [], ◌+◌, ◌-◌, ◌*◌, ◌^◌, ◌≤◌, ◌<◌, length};
ghost use Rattle.rules.specs.Record.{atom_places, bond_places};
ghost use Rattle.writer_lines.specs.Laid.{Laid};
ghost use Rattle.reader_walk.specs.Outcome.{outcome_of};
ghost use Rattle.reader_walk.specs.Walked.{Beside};
ghost use Rattle.judge_file.specs.Place.{sdfile};
ghost use Rattle.reader_answer.specs.Read.{rows_in};
ghost use Rattle.writer_answer.specs.Catalogue.{file_for, answer_by, room_by, up_to};
ghost use Rattle.writer_record.specs.Measure.{parts_size};
ghost use Rattle.writer_catalogue.specs.Sizes.{Measurable, measured_by};
ghost use Rattle.writer_catalogue.specs.Measuring.{conclude_by};
ghost use Rattle.writer_catalogue.specs.Writing.{Handed, Put, Known, ReadAgain, Next, WroteNext};
ghost use Rattle.writer_catalogue.specs.TwoPasses.{FileFits, text_in};
ghost use Rattle.writer_answer.specs.CataloguePromise.{Promise};

use judge_file::TextRefusal;
use reader_cursor::Cursor;
use reader_record::RecordRead;
use rules::{ATOMS, BONDS};
pub use writer_answer::Catalogue;

// A record at the front of a text: its bytes and lines, and how long the text of all records up to it is. What is longer than the room counts as one more
// than the room.
#[derive(Drop)]
pub enum Measured {
    Record {
        length: usize,
        lines: usize,
        needed: usize,
    },
    Refused {
        no: u8,
        line: usize,
        column: usize,
    },
}

// A record written: the bytes and lines it took in the file, and where its text ends in the room.
#[derive(Drop)]
pub struct Wrote {
    pub length: usize,
    pub lines: usize,
    pub to: usize,
}

// A record that was read again.
#[derive(Drop)]
struct Again {
    n: u32,
    m: u32,
    chiral: u32,
    length: usize,
    lines: usize,
    header_end: usize,
    items_start: usize,
    items_end: usize,
}

// One record more, where those before it fit.
fn measure_parts(
    atoms: &[i32],
    n: u32,
    m: u32,
    headers: &[u8],
    items: &[u8],
    needed: usize,
    room: usize,
) -> usize
    requires { Measurable n m atoms.now headers.now items.now room × (needed ≤ room) }
    ensures { result ≡ up_to room (needed + parts_size n m atoms.now headers.now items.now) }
{
    match writer_record::measure_parts(atoms, n, m, headers, items, room - needed) {
        Ok(length) => needed + length,
        Err(
            TextRefusal {
                no: _,
                line: _,
                column: _,
            },
        ) => room + 1,
    }
}

// One record more.
fn measure_record(
    atoms: &[i32],
    n: u32,
    m: u32,
    headers: &[u8],
    items: &[u8],
    needed: usize,
    room: usize,
) -> usize
    requires { Measurable n m atoms.now headers.now items.now room }
    ensures { result ≡ up_to room (needed + parts_size n m atoms.now headers.now items.now) }
{
    if room < needed {
        return room + 1;
    }
    measure_parts(atoms, n, m, headers, items, needed, room)
}

// The record at the front of a text, read and measured.
fn measure_next(
    t: &[u8],
    atoms: &mut [i32],
    bonds: &mut [i32],
    needed: usize,
    room: usize,
) -> Measured
    requires { (atom_places ≤ length atoms.old) × (bond_places ≤ length bonds.old) × (room * 1 < 2 ^ 63) }
    ensures value { result ≡ measured_by t.now needed room (outcome_of sdfile t.now) }
    ensures beside { Beside atom_places atoms.old atoms.new }
    ensures beside_2 { Beside bond_places bonds.old bonds.new }
{
    match reader_record::read_rows(true, t, atoms, bonds) {
        RecordRead::Read {
            n,
            m,
            chiral: _,
            length,
            lines,
            header_end,
            items_start,
            items_end,
        } => Measured::Record {
            length,
            lines,
            needed: measure_record(
                atoms,
                n,
                m,
                &t[0..header_end],
                &t[items_start..items_end],
                needed,
                room,
            ),
        },
        RecordRead::Refused { no, line, column } => Measured::Refused { no, line, column },
    }
}

// The end of a good file: whether its text fits.
fn conclude(needed: usize, records: usize, room: usize) -> Catalogue
    ensures { result ≡ conclude_by needed records room }
{
    if room < needed {
        return Catalogue::Refused {
            no: 20,
            line: 0,
            column: 0,
        };
    }
    Catalogue::Done {
        length: needed,
        records,
    }
}

// A whole file judged and measured. Want of room does not end the judging.
fn measure_file(s: &[u8], atoms: &mut [i32], bonds: &mut [i32], room: usize) -> Catalogue
    requires { (atom_places ≤ length atoms.old) × (bond_places ≤ length bonds.old) × (room * 1 < 2 ^ 63) }
    ensures value { result ≡ answer_by (file_for s.now room) }
    ensures beside { Beside atom_places atoms.old atoms.new }
    ensures beside_2 { Beside bond_places bonds.old bonds.new }
{
    let mut cursor = Cursor::new();
    let mut needed: usize = 0;
    // The cursor jumps by records of any length: a `for` would need an iterator over them, with a proof of its own.
    while cursor.at < s.len() {
        let at = cursor.at;
        match measure_next(&s[at..], atoms, bonds, needed, room) {
            Measured::Record {
                length,
                lines,
                needed: more,
            } => {
                cursor = cursor.past(length, lines);
                needed = more;
            }
            Measured::Refused { no, line, column } => {
                return Catalogue::Refused {
                    no,
                    line: cursor.line_of(line),
                    column,
                };
            }
        }
    }
    conclude(needed, cursor.records, room)
}

// A record into what remains of the room: it was measured, so it is judged no more.
fn put_record(
    atoms: &[i32],
    bonds: &[i32],
    n: u32,
    m: u32,
    chiral: u32,
    headers: &[u8],
    items: &[u8],
    room: &mut [u8],
    to: usize,
) -> usize
    requires { Handed (record { atoms = atoms.now; bonds = bonds.now; n = n; m = m; chiral = chiral; headers = headers.now; items = items.now }) room.old to }
    ensures { Put (record { atoms = atoms.entry.now; bonds = bonds.now; n = n; m = m; chiral = chiral; headers = headers.now; items = items.now }) room.old room.new to result }
{
    to + writer_record::lay_record(atoms, bonds, n, m, chiral, headers, items, &mut room[to..])
}

// The record at the front of a text, read again. It was read when it was measured, so the other arm is never taken (`second_never`): a match has to have it.
fn read_good(t: &[u8], atoms: &mut [i32], bonds: &mut [i32]) -> Again
    requires { Known t.now atoms.old bonds.old }
    ensures { ReadAgain t.now atoms.old bonds.old atoms.new bonds.new result }
{
    match reader_record::read_rows(true, t, atoms, bonds) {
        RecordRead::Read {
            n,
            m,
            chiral,
            length,
            lines,
            header_end,
            items_start,
            items_end,
        } => Again {
            n,
            m,
            chiral,
            length,
            lines,
            header_end,
            items_start,
            items_end,
        },
        RecordRead::Refused {
            no: _,
            line: _,
            column: _,
        } => Again {
            n: 0,
            m: 0,
            chiral: 0,
            length: 0,
            lines: 0,
            header_end: 0,
            items_start: 0,
            items_end: 0,
        },
    }
}

// The record at the front of a text, read and written.
fn write_next(t: &[u8], atoms: &mut [i32], bonds: &mut [i32], room: &mut [u8], to: usize) -> Wrote
    requires { Next t.now atoms.old bonds.old room.old to }
    ensures wrote_next { WroteNext t.now room.old room.new to result }
    ensures beside { Beside atom_places atoms.old atoms.new }
    ensures beside_2 { Beside bond_places bonds.old bonds.new }
{
    let again = read_good(t, atoms, bonds);
    let header_end = again.header_end;
    let items_start = again.items_start;
    let items_end = again.items_end;
    Wrote {
        length: again.length,
        lines: again.lines,
        to: put_record(
            atoms,
            bonds,
            again.n,
            again.m,
            again.chiral,
            &t[0..header_end],
            &t[items_start..items_end],
            room,
            to,
        ),
    }
}

// A good file whose text fits, record after record.
fn write_file(s: &[u8], atoms: &mut [i32], bonds: &mut [i32], room: &mut [u8]) -> usize
    requires { FileFits s.now atoms.old bonds.old room.old }
    ensures laid { Laid room.old room.new 0 (text_in (file_for s.now (length room.old))) result }
    ensures beside { Beside atom_places atoms.old atoms.new }
    ensures beside_2 { Beside bond_places bonds.old bonds.new }
{
    let mut cursor = Cursor::new();
    let mut to: usize = 0;
    // The cursor jumps by records of any length: a `for` would need an iterator over them, with a proof of its own.
    while cursor.at < s.len() {
        let at = cursor.at;
        let wrote = write_next(&s[at..], atoms, bonds, room, to);
        cursor = cursor.past(wrote.length, wrote.lines);
        to = wrote.to;
    }
    to
}

// Both passes, with work tables that have room.
fn fill_room(s: &[u8], atoms: &mut [i32], bonds: &mut [i32], room: &mut [u8]) -> Catalogue
    requires { (atom_places ≤ length atoms.old) × (bond_places ≤ length bonds.old) }
    ensures value { result ≡ answer_by (file_for s.now (length room.old)) }
    ensures room_after { room.new ≡ room_by room.old (file_for s.now (length room.old)) }
    ensures beside { Beside atom_places atoms.old atoms.new }
    ensures beside_2 { Beside bond_places bonds.old bonds.new }
{
    match measure_file(s, atoms, bonds, room.len()) {
        Catalogue::Done { length: _, records } => Catalogue::Done {
            length: write_file(s, atoms, bonds, room),
            records,
        },
        Catalogue::Refused { no, line, column } => Catalogue::Refused { no, line, column },
    }
}

// Both passes, and then the work tables are emptied.
fn write_roomy(s: &[u8], atoms: &mut [i32], bonds: &mut [i32], room: &mut [u8]) -> Catalogue
    requires { (atom_places ≤ length atoms.old) × (bond_places ≤ length bonds.old) }
    ensures value { result ≡ answer_by (file_for s.now (length room.old)) }
    ensures room_after { room.new ≡ room_by room.old (file_for s.now (length room.old)) }
    ensures atoms_after { atoms.new ≡ rows_in atom_places atoms.old [] }
    ensures bonds_after { bonds.new ≡ rows_in bond_places bonds.old [] }
{
    let answer = fill_room(s, atoms, bonds, room);
    reader_clear::zero_rows(atoms, 0, ATOMS);
    reader_clear::zero_rows(bonds, 0, BONDS);
    answer
}

// A whole SDfile in its canonical form at the front of the room; after a refusal nothing is written.
pub fn write_catalogue(s: &[u8], atoms: &mut [i32], bonds: &mut [i32], room: &mut [u8]) -> Catalogue
    ensures { Promise s.now atoms.old bonds.old room.old result atoms.new bonds.new room.new }
{
    if atoms.len() < ATOMS {
        return Catalogue::Refused {
            no: 2,
            line: 0,
            column: 0,
        };
    }
    if bonds.len() < BONDS {
        return Catalogue::Refused {
            no: 2,
            line: 0,
            column: 0,
        };
    }
    write_roomy(s, atoms, bonds, room)
}
