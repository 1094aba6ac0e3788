// A file visited record by record, each read into lent tables from the tail where it starts.
#![tactic(auto)]

ghost use Rattle.std.specs.Prelude.{◌≡◌, length};
ghost use Rattle.reader_file.specs.Next.{Within, next_at, atoms_at, bonds_at, next_on, atoms_on, bonds_on, next_of, atoms_next, bonds_next};
ghost use Rattle.reader_file.specs.Promise.{NextPromise};

use reader_cursor::Cursor;
use reader_record::RecordRead;
use rules::{ATOMS, BONDS};

// A record's numbers count from its first byte; a refusal's line counts from the file's start.
#[derive(Drop)]
pub enum Next {
    Record {
        n: u32,
        m: u32,
        chiral: u32,
        length: usize,
        lines: usize,
        header_end: usize,
        items_start: usize,
        items_end: usize,
        cursor: Cursor,
    },
    End,
    Refused {
        no: u8,
        line: usize,
        column: usize,
    },
}

// The record that starts at the cursor.
fn read_at(cursor: Cursor, s: &[u8], atoms: &mut [i32], bonds: &mut [i32]) -> Next
    requires { Within cursor s.now }
    ensures value { result ≡ next_at cursor (length atoms.old) (length bonds.old) s.now }
    ensures atoms_after { atoms.new ≡ atoms_at cursor (length bonds.old) s.now atoms.old }
    ensures bonds_after { bonds.new ≡ bonds_at cursor (length atoms.old) s.now bonds.old }
{
    let at = cursor.at;
    match reader_record::read_plain(1, &s[at..], atoms, bonds) {
        RecordRead::Read {
            n,
            m,
            chiral,
            length,
            lines,
            header_end,
            items_start,
            items_end,
        } => Next::Record {
            n,
            m,
            chiral,
            length,
            lines,
            header_end,
            items_start,
            items_end,
            cursor: cursor.past(length, lines),
        },
        RecordRead::Refused { no, line, column } => Next::Refused {
            no,
            line: cursor.line_of(line),
            column,
        },
    }
}

// Nothing is left, or no walk over this file can have come here: the end.
fn read_on(cursor: Cursor, s: &[u8], atoms: &mut [i32], bonds: &mut [i32]) -> Next
    ensures value { result ≡ next_on cursor (length atoms.old) (length bonds.old) s.now }
    ensures atoms_after { atoms.new ≡ atoms_on cursor (length bonds.old) s.now atoms.old }
    ensures bonds_after { bonds.new ≡ bonds_on cursor (length atoms.old) s.now bonds.old }
{
    if s.len() <= cursor.at {
        return Next::End;
    }
    if cursor.at < cursor.lines {
        return Next::End;
    }
    if cursor.lines < cursor.records {
        return Next::End;
    }
    read_at(cursor, s, atoms, bonds)
}

// The next record of a file, with the cursor past it. Tables without room are number 2 at every place.
pub fn next_record(cursor: Cursor, s: &[u8], atoms: &mut [i32], bonds: &mut [i32]) -> Next
    ensures value { result ≡ next_of cursor (length atoms.old) (length bonds.old) s.now }
    ensures atoms_after { atoms.new ≡ atoms_next cursor (length bonds.old) s.now atoms.old }
    ensures bonds_after { bonds.new ≡ bonds_next cursor (length atoms.old) s.now bonds.old }
    ensures next_promise { NextPromise cursor s.now atoms.old bonds.old result atoms.new bonds.new }
{
    if atoms.len() < ATOMS {
        return Next::Refused {
            no: 2,
            line: 0,
            column: 0,
        };
    }
    if bonds.len() < BONDS {
        return Next::Refused {
            no: 2,
            line: 0,
            column: 0,
        };
    }
    read_on(cursor, s, atoms, bonds)
}
