// The check of a whole text: a molfile is one record, an SDfile is walked record by record.
#![tactic(auto)]

ghost use Rattle.std.specs.Prelude.{◌≡◌};
ghost use Rattle.judge_file.specs.Place.{molfile, sdfile};
ghost use Rattle.reader_walk.specs.Checking.{said_of};
ghost use Rattle.reader_check.specs.Promised.{numbers_of, Promised};

use judge_file::TextRefusal;
use reader_cursor::Ended;
use reader_walk::Walked;
use rules::{ATOMS, BONDS, LISTED};

// A whole text as a molfile.
fn check_molfile(s: &[u8]) -> Result<usize, TextRefusal>
    ensures { numbers_of result ≡ said_of molfile s.now }
{
    let mut atoms = [0i32; ATOMS];
    let mut bonds = [0i32; BONDS];
    let mut listed = [0u32; LISTED];
    match reader_walk::walk_record(false, s, &mut atoms, &mut bonds, &mut listed) {
        Walked::Whole {
            counts: _,
            length: _,
            lines: _,
            header_end: _,
            items_start: _,
            items_end: _,
        } => Ok(1),
        Walked::Refused { no, line, column } => Err(TextRefusal { no, line, column }),
    }
}

// A whole text as an SDfile. Cut short within a record it is number 19, at the line after its last.
fn check_sdfile(s: &[u8]) -> Result<usize, TextRefusal>
    ensures { numbers_of result ≡ said_of sdfile s.now }
{
    match reader_cursor::walk_file(s) {
        Ended::Over { cursor } => Ok(cursor.records),
        Ended::Short { cursor: _, line } => Err(TextRefusal {
            no: 19,
            line,
            column: 1,
        }),
        Ended::Refused { no, line, column } => Err(TextRefusal { no, line, column }),
    }
}

// The check of a whole text: kind 0 is a molfile, kind 1 an SDfile.
pub fn check(kind: u8, s: &[u8]) -> Result<usize, TextRefusal>
    ensures { Promised kind s.now result }
{
    if kind == 0 {
        return check_molfile(s);
    }
    if kind == 1 {
        return check_sdfile(s);
    }
    Err(TextRefusal {
        no: 1,
        line: 0,
        column: 0,
    })
}
