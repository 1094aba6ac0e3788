// Property lines, judged and entered into a lent table.
#![tactic(auto)]

ghost use Rattle.std.specs.Prelude.{◌≡◌, ◌+◌, ◌*◌, ◌≤◌, length};
ghost use Rattle.rules.specs.Record.{limit};
ghost use Rattle.text.specs.Find.{ink_column};
ghost use Rattle.line_fields.specs.Answer.{field_got};
ghost use Rattle.judge_line.specs.Judge.{list_of, property_of};
ghost use Rattle.line_property.specs.Listed.{places, base, emptied, seen_of};
ghost use Rattle.line_property.specs.Answer.{kind_is, plain_at, noted_at, place_at, entered_got, entered_at, entered_from, property_read, rest_read};
ghost use Rattle.line_property.specs.Kept.{Kept, KeptBy};

use judge_line::Refusal;
use rules::{LISTED, PLACES};

#[derive(Clone, Copy)]
pub enum Kind {
    Charge,
    Radical,
    Isotope,
}

// What a property line was found to be: a list, now entered, or the end.
#[derive(Drop)]
pub enum PropertyLine {
    Listed,
    End,
}

// Where the places of a kind begin.
fn base(kind: Kind) -> usize
    ensures { result ≡ base (kind_is kind) }
{
    match kind {
        Kind::Charge => 0,
        Kind::Radical => PLACES,
        Kind::Isotope => 2 * PLACES,
    }
}

// A charge as the table keeps it.
fn charge_field(line: &[u8], i: usize, j: usize) -> Result<u32, Refusal>
    requires { (1 ≤ i) × ((i ≤ j) × ((j ≤ i + 8) × (j ≤ 1000))) }
    ensures { field_got result ≡ noted_at line.now i j (kind_is Kind.Charge) }
{
    let z = line_fields::signed_field(line, i, j, 15, 15)?;
    Ok((z + 16) as u32)
}

// A number without negatives as the table keeps it.
fn plain_field(line: &[u8], i: usize, j: usize, least: u32, most: u32) -> Result<u32, Refusal>
    requires { (1 ≤ i) × ((i ≤ j) × ((j ≤ i + 8) × ((j ≤ 1000) × (most ≤ 999)))) }
    ensures { field_got result ≡ plain_at line.now i j least most }
{
    let k = line_fields::number_field(line, i, j, least, most)?;
    Ok(k + 16)
}

// The number of an entry as the table keeps it.
fn entry_number(line: &[u8], i: usize, j: usize, kind: Kind) -> Result<u32, Refusal>
    requires { (1 ≤ i) × ((i ≤ j) × ((j ≤ i + 8) × (j ≤ 1000))) }
    ensures { field_got result ≡ noted_at line.now i j (kind_is kind) }
{
    match kind {
        Kind::Charge => charge_field(line, i, j),
        Kind::Radical => plain_field(line, i, j, 0, 3),
        Kind::Isotope => plain_field(line, i, j, 1, 999),
    }
}

// The place of an entry in the table: its atom is not listed there.
fn entry_place(
    line: &[u8],
    n: u32,
    i: usize,
    kind: Kind,
    listed: &[u32; LISTED],
) -> Result<u32, Refusal>
    requires { (n ≤ limit) × ((1 ≤ i) × (i ≤ 900)) }
    ensures { field_got result ≡ place_at n (kind_is kind) line.now i listed.now }
{
    if text::column(line, i) != b' ' {
        return Err(Refusal { no: 15, column: i });
    }
    let atom = line_fields::number_field(line, i + 1, i + 3, 1, n)?;
    let place = base(kind) + atom as usize;
    if listed[place] != 0 {
        return Err(Refusal {
            no: 14,
            column: i + 1,
        });
    }
    Ok(place as u32)
}

// One entry from column i on, entered if it is good.
fn entry(
    line: &[u8],
    n: u32,
    i: usize,
    kind: Kind,
    listed: &mut [u32; LISTED],
) -> Result<(), Refusal>
    requires { (n ≤ limit) × ((1 ≤ i) × (i ≤ 900)) }
    ensures listed_after { entered_got result listed.new ≡ entered_at n (kind_is kind) line.now i listed.old }
    ensures listed_len_unchanged { length listed.new ≡ length listed.old }
{
    let place = entry_place(line, n, i, kind, listed)?;
    if text::column(line, i + 4) != b' ' {
        return Err(Refusal {
            no: 15,
            column: i + 4,
        });
    }
    let number = entry_number(line, i + 5, i + 7, kind)?;
    listed[place as usize] = number;
    Ok(())
}

// So many entries from column 10 on.
#[tactic(auto, using(crate::specs::Entering::entering))]
fn entries(
    line: &[u8],
    n: u32,
    kind: Kind,
    count: u32,
    listed: &mut [u32; LISTED],
) -> Result<(), Refusal>
    requires { (n ≤ limit) × ((count ≤ 8) × (length listed.old ≡ 3 * places)) }
    ensures listed_after { entered_got result listed.new ≡ entered_from n (kind_is kind) line.now 10 count listed.old }
    ensures listed_len_unchanged { length listed.new ≡ length listed.old }
{
    for k in 0..count as usize {
        entry(line, n, 10 + 8 * k, kind, listed)?;
    }
    Ok(())
}

// The rest of a line from column i on: spaces, or else a refusal.
fn rest(line: &[u8], i: usize, read: PropertyLine) -> Result<PropertyLine, Refusal>
    requires { 1 ≤ i }
    ensures { result ≡ rest_read read (ink_column line.now i) }
{
    match text::ink_column(line, i) {
        None => Ok(read),
        Some(column) => Err(Refusal { no: 15, column }),
    }
}

// M  CHGnn8 aaa vvv ...
fn list_line(
    line: &[u8],
    n: u32,
    kind: Kind,
    listed: &mut [u32; LISTED],
) -> Result<PropertyLine, Refusal>
    requires { (n ≤ limit) × (length listed.old ≡ 3 * places) }
    ensures { KeptBy (list_of n (kind_is kind) (seen_of n listed.old (kind_is kind)) line.now) listed.old result listed.new }
{
    let count = line_fields::number_field(line, 7, 9, 1, 8)?;
    entries(line, n, kind, count, listed)?;
    rest(line, 10 + 8 * count as usize, PropertyLine::Listed)
}

// A property line or `M  END`; the entries of a good list are in the table then.
pub fn property_line(
    line: &[u8],
    n: u32,
    listed: &mut [u32; LISTED],
) -> Result<PropertyLine, Refusal>
    requires { (n ≤ limit) × (length listed.old ≡ 3 * places) }
    ensures value { result ≡ property_read (property_of n (seen_of n listed.old) line.now) }
    ensures kept { Kept n listed.old line.now listed.new }
{
    if text::has_text(line, 1, b"M  CHG") {
        return list_line(line, n, Kind::Charge, listed);
    }
    if text::has_text(line, 1, b"M  RAD") {
        return list_line(line, n, Kind::Radical, listed);
    }
    if text::has_text(line, 1, b"M  ISO") {
        return list_line(line, n, Kind::Isotope, listed);
    }
    if text::has_text(line, 1, b"M  END") {
        return rest(line, 7, PropertyLine::End);
    }
    Err(Refusal { no: 13, column: 1 })
}

// Nothing is listed of n atoms, as where a record begins. What stands for further atoms is not looked at, and stays.
#[tactic(auto, using(crate::specs::Emptied::emptying))]
pub fn empty(n: u32, listed: &mut [u32; LISTED])
    requires { (n ≤ limit) × (length listed.old ≡ 3 * places) }
    ensures { listed.new ≡ emptied (n + 1) listed.old }
{
    for k in 0..n as usize + 1 {
        listed[k] = 0;
        listed[PLACES + k] = 0;
        listed[2 * PLACES + k] = 0;
    }
}
