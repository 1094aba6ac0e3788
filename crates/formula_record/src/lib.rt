// A record's formula held against the atoms that are drawn.
#![tactic(auto)]

ghost use Rattle.std.specs.Prelude.{◌≡◌, cond, ◌*◌, ◌≤◌, eqb, length};
ghost use Rattle.reader_answer.specs.Read.{atoms_after, bonds_after};
ghost use Rattle.formula_rules.specs.Judged.{verdict_of};
ghost use Rattle.formula_drawn.specs.Drawn.{symbols_from};
ghost use Rattle.formula_record.specs.Said.{zeros, by_verdict, said_of, told_of, found_in, answer_of, found_after};
ghost use Rattle.formula_record.specs.Promise.{ComparePromise};
ghost use Rattle.formula_record.specs.Ready.{Ready};

use formula_drawn::FOUND;
use formula_sums::PLACES;
use judge_file::TextRefusal;
use reader_first_line::FirstLine;
use reader_record::RecordRead;

// A line held against n atoms in a table.
fn compare_line(
    line: &[u8],
    n: usize,
    atoms: &[i32],
    found: &mut [u32; FOUND],
) -> Result<usize, TextRefusal>
    requires { (16 * n ≤ length atoms.now) × (n ≤ 9999) × (found.old ≡ zeros) }
    ensures value { result ≡ told_of (by_verdict (symbols_from atoms.now 0 n) (verdict_of line.now)) }
    ensures found_after { found.new ≡ found_in (by_verdict (symbols_from atoms.now 0 n) (verdict_of line.now)) }
{
    let mut written = [0u32; PLACES];
    let no = formula_sums::count_formula(line, &mut written);
    if no != 0 {
        return Err(TextRefusal {
            no,
            line: 0,
            column: 0,
        });
    }
    let mut drawn = [0u32; PLACES];
    if formula_drawn::count_drawn(atoms, n, &mut drawn) {
        let count = formula_drawn::list_differences(&written, &drawn, found);
        return Ok(count);
    }
    Err(TextRefusal {
        no: 34,
        line: 0,
        column: 0,
    })
}

// A good record, whose rows stand in the table: its formula is the first value line of its first item of that name.
fn compare_read(
    s: &[u8],
    n: u32,
    atoms: &[i32],
    found: &mut [u32; FOUND],
) -> Result<usize, TextRefusal>
    requires { Ready s.now atoms.now n }
    ensures value { result ≡ told_of (said_of s.now) }
    ensures found_after { found.new ≡ found_in (said_of s.now) }
{
    *found = [0u32; FOUND];
    match reader_first_line::first_line(s, b"FORMULA") {
        FirstLine::Line { from, to } => compare_line(&s[from..to], n as usize, atoms, found),
        FirstLine::Empty => Err(TextRefusal {
            no: 31,
            line: 0,
            column: 0,
        }),
        FirstLine::Refused {
            no: _,
            line: _,
            column: _,
        } => Err(TextRefusal {
            no: 22,
            line: 0,
            column: 0,
        }),
    }
}

// The record's own refusal. After 2 no memory changes; after any other the list is empty.
fn refuse(
    no: u8,
    line: usize,
    column: usize,
    found: &mut [u32; FOUND],
) -> Result<usize, TextRefusal>
    ensures value { result ≡ Err (record { no = no; line = line; column = column }) }
    ensures found_after { found.new ≡ cond (eqb no 2) found.old zeros }
{
    if no == 2 {
        return Err(TextRefusal { no, line, column });
    }
    *found = [0u32; FOUND];
    Err(TextRefusal { no, line, column })
}

// The formula of the record that the bytes begin with, held against its atoms: element, how many are written, how many are drawn, for each element but hydrogen that differs.
pub fn compare_formula(
    s: &[u8],
    atoms: &mut [i32],
    bonds: &mut [i32],
    found: &mut [u32; FOUND],
) -> Result<usize, TextRefusal>
    ensures value { result ≡ answer_of (length atoms.old) (length bonds.old) s.now }
    ensures found_after { found.new ≡ found_after (length atoms.old) (length bonds.old) s.now found.old }
    ensures atoms_after { atoms.new ≡ atoms_after 1 (length bonds.old) s.now atoms.old }
    ensures bonds_after { bonds.new ≡ bonds_after 1 (length atoms.old) s.now bonds.old }
    ensures compare_promise { ComparePromise s.now atoms.old bonds.old found.old result atoms.new bonds.new found.new }
{
    match reader_record::read_plain(1, s, atoms, bonds) {
        RecordRead::Read {
            n,
            m: _,
            chiral: _,
            length: _,
            lines: _,
            header_end: _,
            items_start: _,
            items_end: _,
        } => compare_read(s, n, atoms, found),
        RecordRead::Refused { no, line, column } => refuse(no, line, column, found),
    }
}
