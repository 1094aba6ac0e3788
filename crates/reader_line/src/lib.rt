// One line taken into the lent tables: an atom's or a bond's row stored, and what is noted of the record.
#![tactic(auto)]

ghost use Rattle.std.specs.Prelude.{◌≡◌, ◌*◌, ◌<◌, set};
ghost use Rattle.std.proofs.lemmas.List.Edits.{sets};
ghost use Rattle.rules.specs.Meaning.{bond_numbers};
ghost use Rattle.rules.specs.Record.{limit};
ghost use Rattle.line_counts_bonds.specs.Answer.{bond_is};
ghost use Rattle.reader_line.specs.LineTaken.{no_notes, headed_at, ended_at, atom_more, bond_more, Ready, Took, Keeping};

use judge_line::Refusal;
use line_counts_bonds::Bond;
use reader_pairs::KEYS;
use reader_state::{Reader, Step};
use rules::LISTED;

// What has been noted of a record: how many rows the tables hold, and where its header lines end and its items begin.
#[derive(Clone, Copy)]
pub struct Notes {
    pub atoms: usize,
    pub bonds: usize,
    pub header_end: usize,
    pub items_start: usize,
}

// What a line was, with the state and the notes after it.
#[derive(Drop)]
pub enum Taken {
    Next(Reader, Notes),
    // A bond line that is good but for its pair, which is not looked at yet.
    Bond(Reader, Bond),
    // `$$$$`.
    Done,
}

impl Notes {
    pub fn new() -> Notes
        ensures { result ≡ no_notes }
    {
        Notes {
            atoms: 0,
            bonds: 0,
            header_end: 0,
            items_start: 0,
        }
    }

    // After the third header line.
    fn headed(self, next: usize) -> Notes
        ensures { result ≡ headed_at self next }
    {
        Notes {
            header_end: next,
            ..self
        }
    }

    // After `M  END`.
    fn ended(self, next: usize) -> Notes
        ensures { result ≡ ended_at self next }
    {
        Notes {
            items_start: next,
            ..self
        }
    }

    // One atom more.
    fn atom_more(self) -> Notes
        requires { self.atoms < limit }
        ensures { result ≡ atom_more self }
    {
        Notes {
            atoms: self.atoms + 1,
            ..self
        }
    }

    // One bond more.
    fn bond_more(self) -> Notes
        requires { self.bonds < limit }
        ensures { result ≡ bond_more self }
    {
        Notes {
            bonds: self.bonds + 1,
            ..self
        }
    }
}

// The row and the key of a bond, after those before it.
pub fn keep_bond(
    notes: Notes,
    b: Bond,
    key: u32,
    bonds: &mut [i32],
    keys: &mut [u32; KEYS],
) -> Notes
    requires { Keeping notes b bonds.old keys.old }
    ensures value { result ≡ bond_more notes }
    ensures bonds_after { bonds.new ≡ sets bonds.old (6 * notes.bonds) (bond_numbers (bond_is b)) }
    ensures keys_after { keys.new ≡ set keys.old notes.bonds key }
{
    let k = notes.bonds;
    reader_tables::put_bond(bonds, k, b);
    keys[k] = key;
    notes.bond_more()
}

// One line: an atom's row is stored; a bond is handed on. The next line starts at `next`.
pub fn take_line(
    reader: Reader,
    notes: Notes,
    line: &[u8],
    next: usize,
    atoms: &mut [i32],
    listed: &mut [u32; LISTED],
) -> Result<Taken, Refusal>
    requires { Ready reader notes listed.old atoms.old line.now }
    ensures { Took reader notes next listed.old atoms.old line.now result listed.new atoms.new }
{
    let k = notes.atoms;
    let taken = match reader.step(line, listed)? {
        Step::Next(r) => Taken::Next(r, notes),
        Step::Headed(r) => Taken::Next(r, notes.headed(next)),
        Step::Atom(r, a) => {
            reader_tables::put_atom(atoms, k, a);
            Taken::Next(r, notes.atom_more())
        }
        Step::Bond(r, b) => Taken::Bond(r, b),
        Step::Ended(r) => Taken::Next(r, notes.ended(next)),
        Step::Title {
            reader: r,
            from: _,
            to: _,
        } => Taken::Next(r, notes),
        Step::Value(r) => Taken::Next(r, notes),
        Step::Blank(r) => Taken::Next(r, notes),
        Step::Done => Taken::Done,
    };
    Ok(taken)
}
