// The pieces of a record for C.
ghost use Rattle.std.specs.Prelude.{◌≡◌};
ghost use Rattle.piece_record.specs.Promise.{lists_of, SplitPromise};
ghost use Rattle.capellanote.specs.Pieces.{split_numbers, split_told};

use piece_record::RecordSplit;
use rules::LIMIT;

fn of_split(r: RecordSplit) -> [u64; 3]
    ensures { result ≡ split_numbers r }
{
    match r {
        RecordSplit::Pieces { atoms, count } => [0, atoms as u64, count as u64],
        RecordSplit::Refused { no, line, column } => [no as u64, line as u64, column as u64],
    }
}

// One record from the front of a text, into the tables, and its pieces into the lists.
#[unsafe(no_mangle)]
pub extern "C" fn capellanote_pieces(
    kind: u8,
    s: &[u8],
    atoms: &mut [i32],
    bonds: &mut [i32],
    labels: &mut [u32; LIMIT],
    heads: &mut [u32; LIMIT],
    sizes: &mut [u32; LIMIT],
    answer: &mut [u64; 3],
)
    ensures answer_after { answer.new ≡ split_numbers (split_told answer.new) }
    ensures split_promise { SplitPromise kind s.now atoms.old bonds.old (lists_of labels.old heads.old sizes.old) (split_told answer.new) atoms.new bonds.new (lists_of labels.new heads.new sizes.new) }
{
    *answer = of_split(piece_record::split_record(kind, s, atoms, bonds, labels, heads, sizes));
}
