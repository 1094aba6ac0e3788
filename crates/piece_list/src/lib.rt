// The pieces of n atoms, listed from their labels: each piece's lowest atom, and its size as the ones of the set of its atoms.
#![tactic(auto)]

ghost use Rattle.std.specs.Prelude.{◌≡◌, ◌+◌, ◌≤◌, ◌<◌, length};
ghost use Rattle.rules.specs.Record.{limit};
ghost use Rattle.piece_rules.specs.Pieces.{Split};
ghost use Rattle.piece_labels.specs.Table.{BondTable, bonds_in};
ghost use Rattle.piece_list.specs.Heads.{Below, size_in};
ghost use Rattle.piece_list.specs.Listing.{Blank, Listing, Listed};

use rules::LIMIT;

// How many of n atoms have the label of atom i + 1: the ones of the set of these atoms. No atom before it has a label so high.
fn size_of(labels: &[u32; LIMIT], n: usize, i: usize) -> u32
    requires { (i < n) × (n ≤ limit) × Below n labels.now }
    ensures { result ≡ size_in labels.now n (i + 1) }
{
    let head = i as u32 + 1;
    let mut atoms = [0u64; sets_words::WORDS];
    for j in i..n {
        if labels[j] == head {
            sets_words::put(&mut atoms, j);
        }
    }
    sets_words::size(&atoms)
}

// Lists the piece of which atom i + 1 is the lowest, if it is.
fn list_atom(
    labels: &[u32; LIMIT],
    n: usize,
    heads: &mut [u32; LIMIT],
    sizes: &mut [u32; LIMIT],
    i: usize,
    count: usize,
) -> usize
    requires { (i < n) × Listing labels.now n heads.old sizes.old i count }
    ensures { Listing labels.now n heads.new sizes.new (i + 1) result }
{
    let head = i as u32 + 1;
    if labels[i] == head {
        heads[count] = head;
        sizes[count] = size_of(labels, n, i);
        return count + 1;
    }
    count
}

// Lists the pieces of n atoms by their labels, and answers how many there are.
fn list_pieces(
    labels: &[u32; LIMIT],
    n: usize,
    heads: &mut [u32; LIMIT],
    sizes: &mut [u32; LIMIT],
) -> usize
    requires { Listing labels.now n heads.old sizes.old 0 0 }
    ensures { Listed labels.now n heads.new sizes.new result }
{
    let mut count: usize = 0;
    for i in 0..n {
        count = list_atom(labels, n, heads, sizes, i, count);
    }
    count
}

// Splits n atoms with m bonds into pieces, into lists of zeros, and answers how many pieces there are.
pub fn split(
    n: usize,
    bonds: &[i32],
    m: usize,
    labels: &mut [u32; LIMIT],
    heads: &mut [u32; LIMIT],
    sizes: &mut [u32; LIMIT],
) -> usize
    requires { BondTable n m bonds.now × (length labels.old ≡ limit) × Blank heads.old × Blank sizes.old }
    ensures split { Split n (bonds_in bonds.now m) labels.new heads.new sizes.new result }
    ensures labels_len { (length labels.new ≡ limit) × (length heads.new ≡ limit) × (length sizes.new ≡ limit) }
{
    piece_labels::label_atoms(labels, n, bonds, m);
    list_pieces(labels, n, heads, sizes)
}
