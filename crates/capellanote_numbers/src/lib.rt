// The answers of the library for C as arrays of numbers, the first 0 or that of the refusal (include/capellanote.h).
#![tactic(auto)]

ghost use Rattle.std.specs.Prelude.{◌≡◌};
ghost use Rattle.reader_check.specs.Promised.{numbers_of};
ghost use Rattle.reader_item.specs.Find.{numbers_of as item_of};
ghost use Rattle.capellanote_numbers.specs.Numbers.{check_numbers, read_numbers, found_numbers, written_numbers, catalogue_numbers, copied_numbers, next_numbers, truth, fed_numbers};

use judge_file::TextRefusal;
use reader_answer::{Counted, RecordRead};
use reader_cursor::Cursor;
use reader_feed::Fed;
use reader_file::Next;
use reader_item::Found;
use writer_answer::{Catalogue, Copied};

pub fn of_check(a: Result<usize, TextRefusal>) -> [u64; 3]
    ensures { result ≡ check_numbers (numbers_of a) }
{
    match a {
        Ok(records) => [0, records as u64, 0],
        Err(TextRefusal { no, line, column }) => [no as u64, line as u64, column as u64],
    }
}

pub fn of_reading(r: Counted) -> [u64; 10]
    ensures { result ≡ read_numbers r.read r.asked }
{
    let asked = r.asked as u64;
    let read = r.read;
    match read {
        RecordRead::Read {
            n,
            m,
            chiral,
            length,
            lines,
            header_end,
            items_start,
            items_end,
        } => [
            0,
            n as u64,
            m as u64,
            chiral as u64,
            length as u64,
            lines as u64,
            header_end as u64,
            items_start as u64,
            items_end as u64,
            asked,
        ],
        RecordRead::Refused { no, line, column } => [
            no as u64,
            line as u64,
            column as u64,
            0,
            0,
            0,
            0,
            0,
            0,
            asked,
        ],
    }
}

pub fn of_found(f: Found) -> [u64; 3]
    ensures { result ≡ found_numbers (item_of f) }
{
    match f {
        Found::Item { from, to } => [0, from as u64, to as u64],
        Found::Refused { no, line, column } => [no as u64, line as u64, column as u64],
    }
}

pub fn of_written(w: Result<usize, TextRefusal>) -> [u64; 3]
    ensures { result ≡ written_numbers w }
{
    match w {
        Ok(length) => [0, length as u64, 0],
        Err(TextRefusal { no, line, column }) => [no as u64, line as u64, column as u64],
    }
}

pub fn of_catalogue(c: Catalogue) -> [u64; 3]
    ensures { result ≡ catalogue_numbers c }
{
    match c {
        Catalogue::Done { length, records } => [0, length as u64, records as u64],
        Catalogue::Refused { no, line, column } => [no as u64, line as u64, column as u64],
    }
}

pub fn of_copied(c: Copied) -> [u64; 4]
    ensures { result ≡ copied_numbers c }
{
    match c {
        Copied::Done {
            taken,
            lines,
            length,
        } => [0, taken as u64, lines as u64, length as u64],
        Copied::Refused { no, line, column } => [no as u64, line as u64, column as u64, 0],
    }
}

// The cursor that was handed in stays where there is no record.
pub fn of_next(x: Next, c: Cursor) -> [u64; 13]
    ensures { result ≡ next_numbers c x }
{
    match x {
        Next::Record {
            n,
            m,
            chiral,
            length,
            lines,
            header_end,
            items_start,
            items_end,
            cursor,
        } => [
            0,
            n as u64,
            m as u64,
            chiral as u64,
            length as u64,
            lines as u64,
            header_end as u64,
            items_start as u64,
            items_end as u64,
            cursor.at as u64,
            cursor.lines as u64,
            cursor.records as u64,
            1,
        ],
        Next::End => [
            0,
            0,
            0,
            0,
            0,
            0,
            0,
            0,
            0,
            c.at as u64,
            c.lines as u64,
            c.records as u64,
            0,
        ],
        Next::Refused { no, line, column } => [
            no as u64,
            line as u64,
            column as u64,
            0,
            0,
            0,
            0,
            0,
            0,
            c.at as u64,
            c.lines as u64,
            c.records as u64,
            0,
        ],
    }
}

// A byte of C as a truth value.
pub fn truth_of(b: u8) -> bool
    ensures { result ≡ truth b }
{
    if b == 0 {
        return false;
    }
    true
}

// The second number tells more from accepted from too long.
pub fn of_fed(f: Fed) -> [u64; 5]
    ensures { result ≡ fed_numbers f }
{
    match f {
        Fed::More { counter, used } => [
            0,
            0,
            counter.records as u64,
            counter.lines as u64,
            used as u64,
        ],
        Fed::Accepted { records } => [0, 1, records as u64, 0, 0],
        Fed::Refused { no, line, column } => [no as u64, line as u64, column as u64, 0, 0],
        Fed::TooLong { record } => [0, 2, record as u64, 0, 0],
    }
}
