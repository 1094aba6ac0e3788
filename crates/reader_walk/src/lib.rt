// One record from the front of a text.
#![tactic(auto)]

ghost use Rattle.std.specs.Prelude.{◌≡◌, ◌*◌, ◌≤◌, length};
ghost use Rattle.rules.specs.Record.{limit, atom_places, bond_places};
ghost use Rattle.line_property.specs.Listed.{places};
ghost use Rattle.reader_walk.specs.Outcome.{outcome_of};
ghost use Rattle.reader_rows.specs.Rowed.{Lent};
ghost use Rattle.reader_walk.specs.Asked.{rows_asked};
ghost use Rattle.reader_walk.specs.Stands.{kind_of};
ghost use Rattle.reader_walk.specs.Walked.{walk_of, Left, RowsMarked};

use judge_line::Refusal;
use reader_end::Repeat;
pub use reader_end::{Counted, Walked};
use reader_line::{Notes, Taken};
use reader_pairs::KEYS;
use reader_state::Reader;
use rules::LISTED;
use text::LineAt;

// The lines of one record. The walk over them is left by its label where a bond joins a pair that an earlier bond joins:
// the list is searched for it, but for pairs that lent rows do not say.
fn walk_lines(
    sd: bool,
    s: &[u8],
    atoms: &mut [i32],
    bonds: &mut [i32],
    listed: &mut [u32; LISTED],
    keys: &mut [u32; KEYS],
    rows: &mut [u64],
) -> Counted
    requires { (atom_places ≤ length atoms.old) × (bond_places ≤ length bonds.old) × (length listed.old ≡ 3 * places) × (length keys.old ≡ limit) × Lent rows.old }
    ensures walked_value { result.walked ≡ walk_of (kind_of sd) s.now }
    ensures asked_value { result.asked ≡ rows_asked (kind_of sd) s.now }
    ensures left { Left atoms.old atoms.new bonds.old bonds.new listed.new (outcome_of (kind_of sd) s.now) }
    ensures keys_len { length keys.new ≡ limit }
    ensures rows_marked { RowsMarked rows.old rows.new (outcome_of (kind_of sd) s.now) }
{
    let mut reader = Reader::new(sd);
    let mut notes = Notes::new();
    let mut at: usize = 0;
    let mut line: usize = 1;
    // The place jumps by lines of any length: a `for` would need an iterator over them, with a proof of its own.
    let repeat = 'walk: loop {
        let LineAt::Line { end, next } = text::line_at(s, at) else {
            return reader_end::ended(s.len() - at, reader, notes, at, line);
        };
        match reader_line::take_line(reader, notes, &s[at..end], next, atoms, listed) {
            Ok(Taken::Next(r, m)) => {
                reader = r;
                notes = m;
                at = next;
                line += 1;
            }
            Ok(Taken::Bond(r, b)) => {
                let key = reader_pairs::pair_key(b.first, b.second);
                let count = notes.bonds;
                for j in reader_rows::first_key(rows, keys, count, key)..count {
                    if keys[j] == key {
                        break 'walk Repeat {
                            earlier: j + 1,
                            later: count + 1,
                            line,
                        };
                    }
                }
                notes = reader_line::keep_bond(notes, b, key, bonds, keys);
                reader_rows::mark(rows, key);
                reader = r;
                at = next;
                line += 1;
            }
            Ok(Taken::Done) => {
                return reader_end::closed(reader, notes, at, line, next);
            }
            Err(Refusal { no, column }) => {
                return reader_end::stopped(notes, no, line, column);
            }
        }
    };
    reader_end::repeated(repeat)
}

// One record from the front of a text: for an SDfile up to its `$$$$` line, whatever follows; for a molfile the whole text.
// Rows that are lent say nothing yet; rows of no words have the list searched.
pub fn walk_rows(
    sd: bool,
    s: &[u8],
    atoms: &mut [i32],
    bonds: &mut [i32],
    listed: &mut [u32; LISTED],
    rows: &mut [u64],
) -> Counted
    requires { (atom_places ≤ length atoms.old) × (bond_places ≤ length bonds.old) × (length listed.old ≡ 3 * places) × Lent rows.old }
    ensures walked_value { result.walked ≡ walk_of (kind_of sd) s.now }
    ensures asked_value { result.asked ≡ rows_asked (kind_of sd) s.now }
    ensures left { Left atoms.old atoms.new bonds.old bonds.new listed.new (outcome_of (kind_of sd) s.now) }
    ensures rows_marked { RowsMarked rows.old rows.new (outcome_of (kind_of sd) s.now) }
{
    let mut keys = [0u32; KEYS];
    walk_lines(sd, s, atoms, bonds, listed, &mut keys, rows)
}

// The same without rows, and with lent room for the keys of pairs: laid once for all records of a file.
pub fn walk_keyed(
    sd: bool,
    s: &[u8],
    atoms: &mut [i32],
    bonds: &mut [i32],
    listed: &mut [u32; LISTED],
    keys: &mut [u32; KEYS],
) -> Walked
    requires { (atom_places ≤ length atoms.old) × (bond_places ≤ length bonds.old) × (length listed.old ≡ 3 * places) × (length keys.old ≡ limit) }
    ensures value { result ≡ walk_of (kind_of sd) s.now }
    ensures left { Left atoms.old atoms.new bonds.old bonds.new listed.new (outcome_of (kind_of sd) s.now) }
    ensures keys_len { length keys.new ≡ limit }
{
    let mut none = [0u64; 0];
    let counted = walk_lines(sd, s, atoms, bonds, listed, keys, &mut none);
    counted.walked
}

// The same with room of its own.
pub fn walk_record(
    sd: bool,
    s: &[u8],
    atoms: &mut [i32],
    bonds: &mut [i32],
    listed: &mut [u32; LISTED],
) -> Walked
    requires { (atom_places ≤ length atoms.old) × (bond_places ≤ length bonds.old) × (length listed.old ≡ 3 * places) }
    ensures value { result ≡ walk_of (kind_of sd) s.now }
    ensures left { Left atoms.old atoms.new bonds.old bonds.new listed.new (outcome_of (kind_of sd) s.now) }
{
    let mut keys = [0u32; KEYS];
    walk_keyed(sd, s, atoms, bonds, listed, &mut keys)
}
