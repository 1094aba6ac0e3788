// Labels of atoms: each of n atoms gets the lowest atom of its piece.
#![tactic(auto)]

ghost use Rattle.std.specs.Prelude.{◌≡◌, ◌≤◌, ◌<◌, length};
ghost use Rattle.rules.specs.Record.{limit};
ghost use Rattle.piece_labels.specs.Labels.{Labels, Numbered, Moved, Met, moved_to, lower_of, higher_of, own_label};
ghost use Rattle.piece_labels.specs.Table.{atom_at, AtomIn, BondTable, bonds_in};

use rules::LIMIT;

// Numbers in a row of the table of bonds.
const BOND: usize = 6;

// The label at place i of n atoms without bonds.
fn own_label(i: usize, n: usize) -> u32
    requires { n ≤ limit }
    ensures { result ≡ own_label n i }
{
    if i < n {
        return i as u32 + 1;
    }
    0
}

// Gives each of n atoms its own number, and nothing behind them.
#[tactic(auto, using(crate::proofs::Loops::numbering_laws))]
fn number(labels: &mut [u32; LIMIT], n: usize)
    requires { (n ≤ limit) × (length labels.old ≡ limit) }
    ensures { (length labels.new ≡ limit) × Numbered n labels.new }
{
    for i in 0..LIMIT {
        labels[i] = own_label(i, n);
    }
}

// A label after `high` has become `low`.
fn moved(label: u32, high: u32, low: u32) -> u32
    ensures { result ≡ moved_to high low label }
{
    if label == high {
        return low;
    }
    label
}

// Makes every label `high` the label `low`.
#[tactic(auto, using(crate::proofs::Loops::moving_laws))]
fn relabel(labels: &mut [u32; LIMIT], n: usize, high: u32, low: u32)
    requires { (n ≤ limit) × (length labels.old ≡ limit) }
    ensures { (length labels.new ≡ limit) × Moved n high low labels.old labels.new }
{
    for i in 0..n {
        labels[i] = moved(labels[i], high, low);
    }
}

// The lower of two labels.
fn lower(a: u32, b: u32) -> u32
    ensures { result ≡ lower_of a b }
{
    if a < b {
        return a;
    }
    b
}

// The higher of two labels.
fn higher(a: u32, b: u32) -> u32
    ensures { result ≡ higher_of a b }
{
    if a < b {
        return b;
    }
    a
}

// Joins the pieces of two atoms: both have the lower label then.
fn join(labels: &mut [u32; LIMIT], n: usize, first: usize, second: usize)
    requires { (n ≤ limit) × (length labels.old ≡ limit) × (1 ≤ first) × (first ≤ n) × (1 ≤ second) × (second ≤ n) }
    ensures { (length labels.new ≡ limit) × Met n first second labels.old labels.new }
{
    let a = labels[first - 1];
    let b = labels[second - 1];
    relabel(labels, n, higher(a, b), lower(a, b));
}

// The atom at place i of the table of bonds.
fn atom_at(bonds: &[i32], n: usize, i: usize) -> usize
    requires { (n ≤ limit) × (i < length bonds.now) × AtomIn n bonds.now i }
    ensures { result ≡ atom_at bonds.now i }
{
    bonds[i] as usize
}

// Joins the pieces of the ends of m bonds.
fn join_all(labels: &mut [u32; LIMIT], n: usize, bonds: &[i32], m: usize)
    requires { BondTable n m bonds.now × (length labels.old ≡ limit) × Numbered n labels.old }
    ensures { (length labels.new ≡ limit) × Labels n (bonds_in bonds.now m) labels.new }
{
    for k in 0..m {
        let first = atom_at(bonds, n, BOND * k);
        let second = atom_at(bonds, n, BOND * k + 1);
        join(labels, n, first, second);
    }
}

// Gives each of n atoms with m bonds the lowest atom of its piece, and nothing behind them.
pub fn label_atoms(labels: &mut [u32; LIMIT], n: usize, bonds: &[i32], m: usize)
    requires { BondTable n m bonds.now × (length labels.old ≡ limit) }
    ensures { (length labels.new ≡ limit) × Labels n (bonds_in bonds.now m) labels.new }
{
    number(labels, n);
    join_all(labels, n, bonds, m);
}
