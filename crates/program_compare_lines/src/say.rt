// A difference as it stands in the list, and its figures in words.
use program_io::Text;

// What differs. The last two sum up.
#[derive(Clone, Copy, PartialEq, Eq)]
pub enum Part {
    Header,
    Atoms,
    Bonds,
    Chiral,
    Atom,
    Bond,
    Name,
    Value,
    Item,
    Record,
    Same,
    Sums,
}

impl From<u64> for Part {
    // By its number in the list, which C reads, too.
    fn from(number: u64) -> Part {
        match number {
            1 => Part::Header,
            2 => Part::Atoms,
            3 => Part::Bonds,
            4 => Part::Chiral,
            5 => Part::Atom,
            6 => Part::Bond,
            7 => Part::Name,
            8 => Part::Value,
            9 => Part::Item,
            _ => Part::Record,
        }
    }
}

// A file, where only one has what is told.
#[derive(Clone, Copy, PartialEq, Eq)]
pub enum Side {
    Old,
    New,
}

// By its number in the list; 0 where both have it.
fn side_of(number: u64) -> Option<Side> {
    match number {
        1 => Some(Side::Old),
        2 => Some(Side::New),
        _ => None,
    }
}

// One difference, as it stands in the list.
#[derive(Clone, Copy)]
pub struct Row {
    pub record: u64,
    pub part: Part,
    pub place: u64,
    pub field: u64,
    pub side: Option<Side>,
    pub left: i64,
    pub right: i64,
}

// A difference from its seven numbers.
pub fn row_of(numbers: &[i64; 7]) -> Row {
    let [record, part, place, field, side, left, right] = *numbers;
    Row {
        record: record.unsigned_abs(),
        part: Part::from(part.unsigned_abs()),
        place: place.unsigned_abs(),
        field: field.unsigned_abs(),
        side: side_of(side.unsigned_abs()),
        left,
        right,
    }
}

// Ten-thousandths as a decimal number with four decimals.
fn decimal(v: i64) -> Text {
    let sign = if v < 0 { "-" } else { "" };
    let size = v.unsigned_abs();
    let whole = size / 10000;
    let rest = size % 10000;
    Text::new().print(format_args!("{sign}{whole}.{rest:04}"))
}

// The symbol of an atom; in JSON a string.
fn symbol(json: bool, v: i64) -> Text {
    if json {
        return program_formula::symbol(Text::new().byte(b'"'), v.unsigned_abs()).byte(b'"');
    }
    program_formula::symbol(Text::new(), v.unsigned_abs())
}

// A figure as people read it, or as JSON, where coordinates are whole numbers of ten-thousandths, and null stands for a text that is not there.
pub fn figure(row: Row, json: bool, v: i64) -> Text {
    match (row.part, row.field) {
        (Part::Atom, 4) => symbol(json, v),
        (Part::Atom, ..=3) if !json => decimal(v),
        (Part::Header | Part::Atoms | Part::Bonds | Part::Chiral | Part::Atom | Part::Bond, _) => {
            Text::new().print(v)
        }
        _ => Text::new().word(b"null"),
    }
}
