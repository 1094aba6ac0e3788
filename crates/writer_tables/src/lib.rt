// Tables that can be written: every range and bond rule of the format, asked of tables before they are put into a text.
#![tactic(auto)]

ghost use Rattle.std.specs.Prelude.{◌≡◌, ◌+◌, ◌-◌, ◌*◌, ◌≤◌, ◌<◌, leb, length, get_or, pos};
ghost use Rattle.rules.specs.Record.{limit};
ghost use Rattle.rules.specs.Canon.{atom_row, bond_row, is_zero};
ghost use Rattle.rules.specs.Rows.{row_at, rows_of};
ghost use Rattle.writer_row.specs.Row.{atom_holds, bond_holds};
ghost use Rattle.writer_tables.specs.PairKey.{small_end, key_at};
ghost use Rattle.writer_tables.specs.Tables.{atoms_hold, bonds_hold, all_zero, masses_hold, same_at, first_repeat, counts_hold, tables_hold, writable_tables};

use reader_pairs::KEYS;

// Two bonds of the same pair of atoms, by their numbers, counted from 1.
#[derive(Drop)]
pub enum Repeat {
    Pair { earlier: usize, later: usize },
    Nothing,
}

// Atom i, counted from 0.
fn atom_at(atoms: &[i32], i: u32, n: u32) -> bool
    requires { (16 * i + 16 ≤ length atoms.now) × (n ≤ limit) }
    ensures { result ≡ atom_holds n (atom_row (row_at 16 atoms.now i)) }
{
    let at = 16 * (i as usize);
    let end = at + 16;
    writer_row::atom_holds(&atoms[at..end], n)
}

#[tactic(auto, using(crate::proofs::Loops::walking))]
fn atoms_hold(atoms: &[i32], n: u32) -> bool
    requires { (16 * limit ≤ length atoms.now) × (n ≤ limit) }
    ensures { result ≡ atoms_hold n (rows_of 16 n atoms.now) }
{
    for atom in 0..n {
        if !atom_at(atoms, atom, n) {
            return false;
        }
    }
    true
}

// Bond i, counted from 0.
fn bond_at(bonds: &[i32], i: u32, n: u32) -> bool
    requires { (6 * i + 6 ≤ length bonds.now) × (n ≤ limit) }
    ensures { result ≡ bond_holds n (bond_row (row_at 6 bonds.now i)) }
{
    let at = 6 * (i as usize);
    let end = at + 6;
    writer_row::bond_holds(&bonds[at..end], n)
}

#[tactic(auto, using(crate::proofs::Loops::walking))]
fn bonds_hold(bonds: &[i32], n: u32, m: u32) -> bool
    requires { (6 * limit ≤ length bonds.now) × ((n ≤ limit) × (m ≤ limit)) }
    ensures { result ≡ bonds_hold n (rows_of 6 m bonds.now) }
{
    for bond in 0..m {
        if !bond_at(bonds, bond, n) {
            return false;
        }
    }
    true
}

// Bonds i and j, counted from 0, join the same pair of atoms, in either direction.
fn same_at(bonds: &[i32], i: usize, j: usize) -> bool
    requires { ((i < limit) × (j < limit)) × (6 * limit ≤ length bonds.now) }
    ensures { result ≡ same_at bonds.now i j }
{
    let a = bonds[6 * i];
    let b = bonds[6 * i + 1];
    let c = bonds[6 * j];
    let d = bonds[6 * j + 1];
    if a == c {
        return b == d;
    }
    if a == d {
        return b == c;
    }
    false
}

// The number at k, if it is one that three columns can hold, else 0.
fn end_at(bonds: &[i32], k: usize) -> u32
    requires { k < length bonds.now }
    ensures { result ≡ small_end (get_or bonds.now k (pos 0)) }
{
    let v = bonds[k];
    if v < 0 {
        return 0;
    }
    let size = v as u32;
    if 999 < size {
        return 0;
    }
    size
}

// The pair of bond i, counted from 0, as one number.
fn key_at(bonds: &[i32], i: usize) -> u32
    requires { (i < limit) × (6 * limit ≤ length bonds.now) }
    ensures { result ≡ key_at bonds.now i }
{
    let first = end_at(bonds, 6 * i);
    let second = end_at(bonds, 6 * i + 1);
    reader_pairs::pair_key(first, second)
}

// The first bond that joins the pair of an earlier one, with the first such. Earlier bonds are passed in blocks by their keys.
#[tactic(auto, using(crate::proofs::Pairs::walking))]
pub fn repeated_pair(bonds: &[i32], m: u32) -> Repeat
    requires { (6 * limit ≤ length bonds.now) × (m ≤ limit) }
    ensures { result ≡ first_repeat bonds.now m }
{
    let count = m as usize;
    let mut keys = [0u32; KEYS];
    'walk: {
        for i in 0..count {
            let key = key_at(bonds, i);
            for j in reader_pairs::near_key(&keys, i, key)..i {
                if same_at(bonds, i, j) {
                    break 'walk Repeat::Pair {
                        earlier: j + 1,
                        later: i + 1,
                    };
                }
            }
            keys[i] = key;
        }
        Repeat::Nothing
    }
}

// The number at k of atom i, counted from 0, is 0.
fn zero_at(atoms: &[i32], i: u32, k: usize) -> bool
    requires { (16 * i + 16 ≤ length atoms.now) × (k < 16) }
    ensures { result ≡ is_zero (get_or (row_at 16 atoms.now i) k (pos 0)) }
{
    let v = atoms[16 * (i as usize) + k];
    v == 0
}

// The number at k is 0 in every atom.
#[tactic(auto, using(crate::proofs::Loops::walking))]
fn all_zero(atoms: &[i32], n: u32, k: usize) -> bool
    requires { (16 * limit ≤ length atoms.now) × ((n ≤ limit) × (k < 16)) }
    ensures { result ≡ all_zero k (rows_of 16 n atoms.now) }
{
    for i in 0..n {
        if !zero_at(atoms, i, k) {
            return false;
        }
    }
    true
}

// No isotope, or no mass difference.
fn masses_hold(atoms: &[i32], n: u32) -> bool
    requires { (16 * limit ≤ length atoms.now) × (n ≤ limit) }
    ensures { result ≡ masses_hold (rows_of 16 n atoms.now) }
{
    if all_zero(atoms, n, 7) {
        return true;
    }
    all_zero(atoms, n, 4)
}

fn counts_hold(n: u32, m: u32, chiral: u32) -> bool
    ensures { result ≡ counts_hold n m chiral }
{
    if line_counts_bonds::LIMIT < n {
        return false;
    }
    if line_counts_bonds::LIMIT < m {
        return false;
    }
    if !line_counts_bonds::enough_pairs(n, m) {
        return false;
    }
    chiral <= 1
}

// Atoms and bonds, once n and m are good.
fn tables_hold(atoms: &[i32], bonds: &[i32], n: u32, m: u32) -> bool
    requires { (16 * limit ≤ length atoms.now) × ((6 * limit ≤ length bonds.now) × ((n ≤ limit) × (m ≤ limit))) }
    ensures { result ≡ tables_hold n m atoms.now bonds.now }
{
    if !atoms_hold(atoms, n) {
        return false;
    }
    if !bonds_hold(bonds, n, m) {
        return false;
    }
    match repeated_pair(bonds, m) {
        Repeat::Nothing => masses_hold(atoms, n),
        Repeat::Pair {
            earlier: _,
            later: _,
        } => false,
    }
}

// Whether the first n atoms and the first m bonds can be written.
pub fn writable(atoms: &[i32], bonds: &[i32], n: u32, m: u32, chiral: u32) -> bool
    requires { (16 * limit ≤ length atoms.now) × (6 * limit ≤ length bonds.now) }
    ensures { result ≡ writable_tables n m chiral atoms.now bonds.now }
{
    if !counts_hold(n, m, chiral) {
        return false;
    }
    tables_hold(atoms, bonds, n, m)
}
