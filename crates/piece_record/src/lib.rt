// A record read into lent tables and split into its pieces.
#![tactic(auto)]

ghost use Rattle.std.specs.Prelude.{◌≡◌};
ghost use Rattle.piece_labels.specs.Table.{BondTable, bonds_in};
ghost use Rattle.piece_record.specs.Promise.{lists_of, lists_after, SplitInto, SplitPromise};

use reader_record::RecordRead;
use rules::LIMIT;

// How many atoms and pieces the record has; or why it was refused.
#[derive(Drop)]
pub enum RecordSplit {
    Pieces { atoms: u32, count: usize },
    Refused { no: u8, line: usize, column: usize },
}

// The lists of n atoms with m bonds, stored whole.
fn split_read(
    n: u32,
    m: u32,
    bonds: &[i32],
    labels: &mut [u32; LIMIT],
    heads: &mut [u32; LIMIT],
    sizes: &mut [u32; LIMIT],
) -> RecordSplit
    requires { BondTable n m bonds.now }
    ensures { SplitInto n (bonds_in bonds.now m) result (lists_of labels.new heads.new sizes.new) }
{
    let mut lowest = [0u32; LIMIT];
    let mut firsts = [0u32; LIMIT];
    let mut counts = [0u32; LIMIT];
    let count = piece_list::split(
        n as usize,
        bonds,
        m as usize,
        &mut lowest,
        &mut firsts,
        &mut counts,
    );
    *labels = lowest;
    *heads = firsts;
    *sizes = counts;
    RecordSplit::Pieces { atoms: n, count }
}

// The lists after a refused reading: zeros, but 1 and 2 change no memory.
fn clear_lists(
    no: u8,
    labels: &mut [u32; LIMIT],
    heads: &mut [u32; LIMIT],
    sizes: &mut [u32; LIMIT],
)
    ensures { lists_of labels.new heads.new sizes.new ≡ lists_after no (lists_of labels.old heads.old sizes.old) }
{
    if no <= 2 {
        return;
    }
    *labels = [0u32; LIMIT];
    *heads = [0u32; LIMIT];
    *sizes = [0u32; LIMIT];
}

// One record from the front of a text, read as `read_record` reads it, and split into its pieces.
pub fn split_record(
    kind: u8,
    s: &[u8],
    atoms: &mut [i32],
    bonds: &mut [i32],
    labels: &mut [u32; LIMIT],
    heads: &mut [u32; LIMIT],
    sizes: &mut [u32; LIMIT],
) -> RecordSplit
    ensures { SplitPromise kind s.now atoms.old bonds.old (lists_of labels.old heads.old sizes.old) result atoms.new bonds.new (lists_of labels.new heads.new sizes.new) }
{
    match reader_record::read_plain(kind, s, atoms, bonds) {
        RecordRead::Read {
            n,
            m,
            chiral: _,
            length: _,
            lines: _,
            header_end: _,
            items_start: _,
            items_end: _,
        } => split_read(n, m, bonds, labels, heads, sizes),
        RecordRead::Refused { no, line, column } => {
            clear_lists(no, labels, heads, sizes);
            RecordSplit::Refused { no, line, column }
        }
    }
}
