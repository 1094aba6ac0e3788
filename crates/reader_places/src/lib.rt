// The places of a record's lines: how long a line may be there, where the input may end, which place comes next.
#![tactic(auto)]

ghost use Rattle.std.specs.Prelude.{◌≡◌, ◌≤◌};
ghost use Rattle.judge_line.specs.Got.{got};
ghost use Rattle.judge_line.specs.Field.{within};
ghost use Rattle.reader_places.specs.Places.{longest_in, line_got, finished_at, bonds_owed, atoms_owed, after_end};

use judge_line::Refusal;

// `owed` counts the lines that still belong to the place, the next one among them.
#[derive(Clone, Copy)]
pub enum Place {
    Header { owed: u32 },
    Counts,
    Atoms { owed: u32 },
    Bonds { owed: u32 },
    Properties,
    // After a molfile's `M  END`.
    Over,
    Items,
    Values,
}

// Whether the input may end at a state.
#[derive(Drop)]
pub enum Finish {
    MayEnd,
    Owes,
}

// Whether the input may end at a place of a record: a molfile's after its `M  END`, an SDfile's nowhere before its `$$$$` line.
pub fn may_end(place: Place) -> Finish
    ensures { result ≡ finished_at place }
{
    match place {
        Place::Header { owed: _ } => Finish::Owes,
        Place::Counts => Finish::Owes,
        Place::Atoms { owed: _ } => Finish::Owes,
        Place::Bonds { owed: _ } => Finish::Owes,
        Place::Properties => Finish::Owes,
        Place::Over => Finish::MayEnd,
        Place::Items => Finish::Owes,
        Place::Values => Finish::Owes,
    }
}

// The longest line of a place.
pub fn longest(place: Place) -> usize
    ensures { result ≡ longest_in place }
{
    match place {
        Place::Header { owed: _ } => 80,
        Place::Counts => 80,
        Place::Atoms { owed: _ } => 80,
        Place::Bonds { owed: _ } => 80,
        Place::Properties => 80,
        Place::Over => 80,
        Place::Items => 80,
        Place::Values => 200,
    }
}

// A line's length, then its bytes.
pub fn line_judged(line: &[u8], longest: usize) -> Result<(), Refusal>
    requires { longest ≤ 200 }
    ensures { line_got line.now result ≡ within longest line.now (got line.now) }
{
    if longest < line.len() {
        return Err(Refusal {
            no: 3,
            column: longest + 1,
        });
    }
    match text::bad_column(line) {
        Some(column) => Err(Refusal { no: 4, column }),
        None => Ok(()),
    }
}

// So many bond lines owed, or none.
pub fn bonds_owed(k: u32) -> Place
    ensures { result ≡ bonds_owed k }
{
    if k == 0 {
        return Place::Properties;
    }
    Place::Bonds { owed: k }
}

// So many atom lines owed, or none: then the bonds.
pub fn atoms_owed(k: u32, m: u32) -> Place
    ensures { result ≡ atoms_owed k m }
{
    if k == 0 {
        return bonds_owed(m);
    }
    Place::Atoms { owed: k }
}

// The place after `M  END`.
pub fn after_end(sd: bool) -> Place
    ensures { result ≡ after_end sd }
{
    if sd {
        return Place::Items;
    }
    Place::Over
}
