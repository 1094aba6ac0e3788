// One line of an SDfile judged at its place, without tables: the state keeps the reader's state and how many bonds have keys.
#![tactic(auto)]

ghost use Rattle.std.specs.Prelude.{◌≡◌, ◌≤◌, length, take};
ghost use Rattle.rules.specs.Record.{limit};
ghost use Rattle.judge_line.specs.Field.{elem};
ghost use Rattle.mend_judge.specs.Standing.{fresh, after_blank, Placed, Judges};
ghost use Rattle.mend_judge.specs.Bonds.{Bonding, BondJudged};

use judge_line::Refusal;
use line_counts_bonds::Bond;
use reader_pairs::KEYS;
use reader_places::Place;
use reader_state::{Reader, Step};
use rules::LISTED;

// Where the walk over a file stands: within a record, and whether one has ended before it.
#[derive(Clone, Copy)]
pub struct Judge {
    pub reader: Reader,
    pub bonds: usize,
    pub some: bool,
}

impl Judge {
    // At the start of a record.
    pub fn new(some: bool) -> Judge
        ensures { result ≡ fresh some }
    {
        let reader = Reader::new(true);
        Judge {
            reader,
            bonds: 0,
            some,
        }
    }

    // The same record, with the reader's state after a line.
    fn read(self, reader: Reader) -> Judge
        ensures { result ≡ record { reader = reader; bonds = self.bonds; some = self.some } }
    {
        Judge { reader, ..self }
    }

    // Where a value line or the blank line after the values must stand: after an empty line.
    pub fn emptied(self) -> Judge
        ensures { result ≡ after_blank self }
    {
        let was = self.reader;
        let sd = was.sd;
        let counts = was.counts;
        let reader = Reader {
            sd,
            place: Place::Items,
            counts,
        };
        self.read(reader)
    }
}

// Whether one of the first `count` keys is this one.
fn repeats(keys: &[u32; KEYS], count: usize, key: u32) -> bool
    requires count_le_limit { count ≤ limit }
    requires keys_len { length keys.now ≡ limit }
    ensures { result ≡ elem key (take count keys.now) }
{
    let near = reader_pairs::near_key(keys, count, key);
    keys[near..count].contains(&key)
}

// A bond line that is good but for its pair.
fn judge_bond(
    judge: Judge,
    reader: Reader,
    b: Bond,
    keys: &mut [u32; KEYS],
) -> Result<Judge, Refusal>
    requires { Bonding judge reader b keys.old }
    ensures { BondJudged judge reader b keys.old result keys.new }
{
    let count = judge.bonds;
    let some = judge.some;
    let key = reader_pairs::pair_key(b.first, b.second);
    if repeats(keys, count, key) {
        return Err(Refusal { no: 11, column: 1 });
    }
    keys[count] = key;
    Ok(Judge {
        reader,
        bonds: count + 1,
        some,
    })
}

// One line, with the tables of listed numbers and of keys.
pub fn judge_line(
    judge: Judge,
    line: &[u8],
    listed: &mut [u32; LISTED],
    keys: &mut [u32; KEYS],
) -> Result<Judge, Refusal>
    requires { Placed judge listed.old keys.old }
    ensures { Judges judge listed.old keys.old line.now result listed.new keys.new }
{
    let reader = judge.reader;
    match reader.step(line, listed)? {
        Step::Next(r) => Ok(judge.read(r)),
        Step::Headed(r) => Ok(judge.read(r)),
        Step::Atom(r, _) => Ok(judge.read(r)),
        Step::Bond(r, b) => judge_bond(judge, r, b, keys),
        Step::Ended(r) => Ok(judge.read(r)),
        Step::Title {
            reader: r,
            from: _,
            to: _,
        } => Ok(judge.read(r)),
        Step::Value(r) => Ok(judge.read(r)),
        Step::Blank(r) => Ok(judge.read(r)),
        Step::Done => Ok(Judge::new(true)),
    }
}
