// How the walk over a record's lines ends, and what it then answers.
#![tactic(auto)]

ghost use Rattle.std.specs.Prelude.{◌≡◌, ◌≤◌, ◌<◌};
ghost use Rattle.reader_state.specs.StateParts.{finished};
ghost use Rattle.reader_end.specs.Ending.{last_of, end_walked};

use line_counts_bonds::Counts;
use reader_line::Notes;
use reader_places::Finish;
use reader_state::Reader;

// A bond that joins the same pair as an earlier one, and the line it stands in. Bonds count from 1.
#[derive(Drop)]
pub struct Repeat {
    pub earlier: usize,
    pub later: usize,
    pub line: usize,
}

// One record: its counts, its bytes and lines, where its header lines end, and where its items begin and end.
#[derive(Clone, Copy)]
pub enum Walked {
    Whole {
        counts: Counts,
        length: usize,
        lines: usize,
        header_end: usize,
        items_start: usize,
        items_end: usize,
    },
    Refused {
        no: u8,
        line: usize,
        column: usize,
    },
}

// The same, and how many bond lines came to the check for repeated pairs: a row is asked for each.
#[derive(Drop)]
pub struct Counted {
    pub walked: Walked,
    pub asked: usize,
}

// A line refused for another reason than its pair.
pub fn stopped(notes: Notes, no: u8, line: usize, column: usize) -> Counted
    ensures walked_value { result.walked ≡ Walked.Refused no line column }
    ensures asked_value { result.asked ≡ notes.bonds }
{
    Counted {
        walked: Walked::Refused { no, line, column },
        asked: notes.bonds,
    }
}

// A bond that repeats a pair came to the check too.
pub fn repeated(repeat: Repeat) -> Counted
    requires { (1 ≤ repeat.earlier) × (repeat.earlier < repeat.later) }
    ensures walked_value { result.walked ≡ Walked.Refused 11 repeat.line 1 }
    ensures asked_value { result.asked ≡ repeat.later }
{
    Counted {
        walked: Walked::Refused {
            no: 11,
            line: repeat.line,
            column: 1,
        },
        asked: repeat.later,
    }
}

// A record whose `$$$$` line starts at `at`.
pub fn closed(reader: Reader, notes: Notes, at: usize, line: usize, next: usize) -> Counted
    ensures walked_value { result.walked ≡ Walked.Whole reader.counts next line notes.header_end notes.items_start at }
    ensures asked_value { result.asked ≡ notes.bonds }
{
    let counts = reader.counts;
    Counted {
        walked: Walked::Whole {
            counts,
            length: next,
            lines: line,
            header_end: notes.header_end,
            items_start: notes.items_start,
            items_end: at,
        },
        asked: notes.bonds,
    }
}

// After a molfile's `M  END`, with so many bytes left.
fn at_end(left: usize, counts: Counts, notes: Notes, at: usize, line: usize) -> Walked
    requires { 1 ≤ line }
    ensures { result ≡ last_of left counts notes at line }
{
    if left == 0 {
        return Walked::Whole {
            counts,
            length: at,
            lines: line - 1,
            header_end: notes.header_end,
            items_start: notes.items_start,
            items_end: notes.items_start,
        };
    }
    Walked::Refused {
        no: 19,
        line,
        column: 1,
    }
}

// The end of the lines, with so many bytes left. Whether a record may end there the state says.
fn end_walk(left: usize, reader: Reader, notes: Notes, at: usize, line: usize) -> Walked
    requires { 1 ≤ line }
    ensures { result ≡ end_walked left reader notes at line (finished reader) }
{
    let counts = reader.counts;
    match reader.finish() {
        Finish::MayEnd => at_end(left, counts, notes, at, line),
        Finish::Owes => Walked::Refused {
            no: 19,
            line,
            column: 1,
        },
    }
}

// The same, with the bond lines before it.
pub fn ended(left: usize, reader: Reader, notes: Notes, at: usize, line: usize) -> Counted
    requires { 1 ≤ line }
    ensures walked_value { result.walked ≡ end_walked left reader notes at line (finished reader) }
    ensures asked_value { result.asked ≡ notes.bonds }
{
    let asked = notes.bonds;
    let walked = end_walk(left, reader, notes, at, line);
    Counted { walked, asked }
}
