// The reader's state, by value: at every line in one place of the record, with the lines still owed there.
#![tactic(auto)]

ghost use Rattle.std.specs.Prelude.{◌≡◌, [], ◌*◌, ◌≤◌, length};
ghost use Rattle.line_counts_bonds.specs.Answer.{counts_is};
ghost use Rattle.line_property.specs.Listed.{places};
ghost use Rattle.reader_state.specs.LineRead.{step_got, went_of, Kept, Sane, line_in, header_in, moved, counted};
ghost use Rattle.reader_state.specs.StateParts.{begun, finished, title_in, KeptAt};

use judge_line::Refusal;
use line_atom::Atom;
use line_counts_bonds::{Bond, Counts, LIMIT};
use line_property::PropertyLine;
use line_text::{ItemLine, ValueKind};
use reader_places::{Finish, Place};
use rules::LISTED;

#[derive(Clone, Copy)]
pub struct Reader {
    // An SDfile, or else a molfile.
    pub sd: bool,
    pub place: Place,
    pub counts: Counts,
}

// What a line was, with the state after it.
#[derive(Drop)]
pub enum Step {
    // A header line but the third, the counts line, a property line.
    Next(Reader),
    // The third header line.
    Headed(Reader),
    Atom(Reader, Atom),
    Bond(Reader, Bond),
    // `M  END`.
    Ended(Reader),
    // A data header; its name stands from `from` to `to` in the line.
    Title {
        reader: Reader,
        from: usize,
        to: usize,
    },
    Value(Reader),
    Blank(Reader),
    // `$$$$`.
    Done,
}

impl Reader {
    pub fn new(sd: bool) -> Reader
        ensures { result ≡ begun sd }
    {
        let counts = Counts {
            atoms: 0,
            bonds: 0,
            chiral: 0,
        };
        Reader {
            sd,
            place: Place::Header { owed: 3 },
            counts,
        }
    }

    // The same state at another place.
    fn moved(self, place: Place) -> Reader
        ensures { result ≡ moved self place }
    {
        Reader { place, ..self }
    }

    // One line, with the table of listed numbers. Length and bytes come first, whatever the place.
    pub fn step(self, line: &[u8], listed: &mut [u32; LISTED]) -> Result<Step, Refusal>
        requires sane { Sane self }
        requires listed_len { length listed.old ≡ 3 * places }
        ensures result_value { step_got line.now result ≡ went_of self listed.old line.now }
        ensures kept { Kept self listed.old line.now listed.new }
        ensures listed_len_2 { length listed.new ≡ 3 * places }
        ensures title_in { title_in line.now result }
    {
        let place = self.place;
        reader_places::line_judged(line, reader_places::longest(place))?;
        at_place(self, line, listed)
    }

    // At the end of the input: only a molfile's record ends there, after its `M  END`.
    pub fn finish(self) -> Finish
        ensures { result ≡ finished self }
    {
        let place = self.place;
        reader_places::may_end(place)
    }
}

// A line of good length and bytes.
fn at_place(reader: Reader, line: &[u8], listed: &mut [u32; LISTED]) -> Result<Step, Refusal>
    requires sane { Sane reader }
    requires listed_len { length listed.old ≡ 3 * places }
    ensures result_value { step_got line.now result ≡ line_in reader reader.place listed.old line.now }
    ensures kept_at { KeptAt reader reader.place listed.old line.now listed.new }
    ensures listed_len_2 { length listed.new ≡ 3 * places }
    ensures title_in { title_in line.now result }
{
    let place = reader.place;
    match place {
        Place::Header { owed } => at_header(reader, owed, line),
        Place::Counts => at_counts(reader, line, listed),
        Place::Atoms { owed } => at_atoms(reader, owed, line),
        Place::Bonds { owed } => at_bonds(reader, owed, line),
        Place::Properties => at_properties(reader, line, listed),
        Place::Over => Err(Refusal { no: 18, column: 1 }),
        Place::Items => at_items(reader, line),
        Place::Values => at_values(reader, line),
    }
}

// The first header line.
fn at_first(reader: Reader, line: &[u8]) -> Result<Step, Refusal>
    ensures result_value { step_got line.now result ≡ header_in reader 3 line.now }
    ensures title_in { title_in line.now result }
{
    line_text::first_header(line)?;
    Ok(Step::Next(reader.moved(Place::Header { owed: 2 })))
}

// A header line, with so many owed.
fn at_header(reader: Reader, owed: u32, line: &[u8]) -> Result<Step, Refusal>
    ensures result_value { step_got line.now result ≡ header_in reader owed line.now }
    ensures title_in { title_in line.now result }
{
    if owed == 3 {
        return at_first(reader, line);
    }
    if owed == 2 {
        return Ok(Step::Next(reader.moved(Place::Header { owed: 1 })));
    }
    Ok(Step::Headed(reader.moved(Place::Counts)))
}

// The state after a counts line.
fn counted(reader: Reader, counts: Counts) -> Reader
    ensures { result ≡ counted reader (counts_is counts) }
{
    let place = reader_places::atoms_owed(counts.atoms, counts.bonds);
    Reader {
        place,
        counts,
        ..reader
    }
}

// The counts line. Nothing is listed yet in the record that it begins.
fn at_counts(reader: Reader, line: &[u8], listed: &mut [u32; LISTED]) -> Result<Step, Refusal>
    requires { length listed.old ≡ 3 * places }
    ensures result_value { step_got line.now result ≡ line_in reader Place.Counts listed.old line.now }
    ensures kept_at { KeptAt reader Place.Counts listed.old line.now listed.new }
    ensures listed_len { length listed.new ≡ 3 * places }
    ensures title_in { title_in line.now result }
{
    let counts = line_counts_bonds::counts_line(line, LIMIT)?;
    line_property::empty(counts.atoms, listed);
    Ok(Step::Next(counted(reader, counts)))
}

// An atom line, with so many owed.
fn at_atoms(reader: Reader, owed: u32, line: &[u8]) -> Result<Step, Refusal>
    requires { 1 ≤ owed }
    ensures result_value { step_got line.now result ≡ line_in reader (Place.Atoms owed) [] line.now }
    ensures title_in { title_in line.now result }
{
    let counts = reader.counts;
    let atom = line_atom::atom_line(line, counts.atoms)?;
    let place = reader_places::atoms_owed(owed - 1, counts.bonds);
    Ok(Step::Atom(reader.moved(place), atom))
}

// A bond line, with so many owed.
fn at_bonds(reader: Reader, owed: u32, line: &[u8]) -> Result<Step, Refusal>
    requires { 1 ≤ owed }
    ensures result_value { step_got line.now result ≡ line_in reader (Place.Bonds owed) [] line.now }
    ensures title_in { title_in line.now result }
{
    let counts = reader.counts;
    let bond = line_counts_bonds::bond_line(line, counts.atoms)?;
    let place = reader_places::bonds_owed(owed - 1);
    Ok(Step::Bond(reader.moved(place), bond))
}

// A property line, which is then in the table, or `M  END`.
fn at_properties(reader: Reader, line: &[u8], listed: &mut [u32; LISTED]) -> Result<Step, Refusal>
    requires sane { Sane reader }
    requires listed_len { length listed.old ≡ 3 * places }
    ensures result_value { step_got line.now result ≡ line_in reader Place.Properties listed.old line.now }
    ensures kept_at { KeptAt reader Place.Properties listed.old line.now listed.new }
    ensures listed_len_2 { length listed.new ≡ 3 * places }
    ensures title_in { title_in line.now result }
{
    let sd = reader.sd;
    let counts = reader.counts;
    match line_property::property_line(line, counts.atoms, listed)? {
        PropertyLine::Listed => Ok(Step::Next(reader)),
        PropertyLine::End => Ok(Step::Ended(reader.moved(reader_places::after_end(sd)))),
    }
}

// Where a data header or `$$$$` must stand.
fn at_items(reader: Reader, line: &[u8]) -> Result<Step, Refusal>
    ensures result_value { step_got line.now result ≡ line_in reader Place.Items [] line.now }
    ensures title_in { title_in line.now result }
{
    match line_text::item_line(line)? {
        ItemLine::Title { from, to } => Ok(Step::Title {
            reader: reader.moved(Place::Values),
            from,
            to,
        }),
        ItemLine::Close => Ok(Step::Done),
    }
}

// Where a value line or the blank line after the values must stand.
fn at_values(reader: Reader, line: &[u8]) -> Result<Step, Refusal>
    ensures result_value { step_got line.now result ≡ line_in reader Place.Values [] line.now }
    ensures title_in { title_in line.now result }
{
    match line_text::value_line(line)? {
        ValueKind::Value => Ok(Step::Value(reader)),
        ValueKind::Blank => Ok(Step::Blank(reader.moved(Place::Items))),
    }
}
