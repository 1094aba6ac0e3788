// What reading a record answers. What it promises, and what both lent tables and the rows hold after it, is said in specs/.
#![tactic(auto)]

ghost use Rattle.std.specs.Prelude.{◌≡◌};
ghost use Rattle.reader_answer.specs.Read.{answered};

use reader_walk::Walked;

// What a reading answers; the rows stand in the tables.
#[derive(Clone, Copy)]
pub enum RecordRead {
    Read {
        n: u32,
        m: u32,
        chiral: u32,
        length: usize,
        lines: usize,
        header_end: usize,
        items_start: usize,
        items_end: usize,
    },
    Refused {
        no: u8,
        line: usize,
        column: usize,
    },
}

// The same, and how many rows were asked: one for each bond line that came to the check for repeated pairs.
#[derive(Drop)]
pub struct Counted {
    pub read: RecordRead,
    pub asked: usize,
}

// A refusal before any line is looked at.
pub fn unread(no: u8) -> Counted
    ensures read_value { result.read ≡ RecordRead.Refused no 0 0 }
    ensures asked_value { result.asked ≡ 0 }
{
    Counted {
        read: RecordRead::Refused {
            no,
            line: 0,
            column: 0,
        },
        asked: 0,
    }
}

// What a walk answers, as a reading tells it.
pub fn told(walked: Walked, asked: usize) -> Counted
    ensures read_value { result.read ≡ answered walked }
    ensures asked_value { result.asked ≡ asked }
{
    match walked {
        Walked::Whole {
            counts,
            length,
            lines,
            header_end,
            items_start,
            items_end,
        } => Counted {
            read: RecordRead::Read {
                n: counts.atoms,
                m: counts.bonds,
                chiral: counts.chiral,
                length,
                lines,
                header_end,
                items_start,
                items_end,
            },
            asked,
        },
        Walked::Refused { no, line, column } => Counted {
            read: RecordRead::Refused { no, line, column },
            asked,
        },
    }
}
