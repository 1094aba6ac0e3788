// The atoms drawn, counted by element, and the list of elements that differ from a formula.
#![tactic(auto)]

ghost use Rattle.std.specs.Prelude.{◌≡◌, [], ◌∷◌, ◌+◌, ◌*◌, ◌≤◌, ◌<◌, length};
ghost use Rattle.std.proofs.lemmas.List.Edits.{sets};
ghost use Rattle.formula_rules.specs.Sums.{Below};
ghost use Rattle.formula_rules.specs.Verdict.{differences, numbers};
ghost use Rattle.formula_drawn.specs.Drawn.{symbol_at, symbols_from, only_elements, tallied};
ghost use Rattle.formula_drawn.specs.Listing.{entry, one};

use formula_sums::PLACES;
use formula_text::ELEMENTS;

// Three numbers for each element.
pub const FOUND: usize = 354;

// The symbol of atom i, counted from 0, in a table of sixteen numbers an atom.
fn symbol_of(atoms: &[i32], i: usize) -> u32
    requires { 16 * i + 16 ≤ length atoms.now }
    ensures { result ≡ symbol_at atoms.now i }
{
    let v = atoms[16 * i + 3];
    if v < 0 {
        return 0;
    }
    v as u32
}

// The first n atoms of a table, counted by element until one is none; whether all of them are elements.
#[tactic(auto, using(crate::specs::Tallying::tally_laws))]
pub fn count_drawn(atoms: &[i32], n: usize, drawn: &mut [u32; PLACES]) -> bool
    requires { (16 * n ≤ length atoms.now) × Below drawn.old }
    ensures value { result ≡ only_elements (symbols_from atoms.now 0 n) }
    ensures drawn_after { drawn.new ≡ tallied (symbols_from atoms.now 0 n) drawn.old }
{
    for i in 0..n {
        let k = symbol_of(atoms, i);
        if k > ELEMENTS {
            return false;
        }
        formula_sums::add_at(drawn, k as usize, 1);
    }
    true
}

fn put_difference(found: &mut [u32; FOUND], at: usize, k: u32, written: u32, drawn: u32)
    requires { at + 3 ≤ 354 }
    ensures { found.new ≡ sets found.old at (k ∷ written ∷ drawn ∷ []) }
{
    found[at] = k;
    found[at + 1] = written;
    found[at + 2] = drawn;
}

// Element k in the list, if it differs; how many are listed then.
fn list_one(found: &mut [u32; FOUND], count: usize, k: usize, written: u32, drawn: u32) -> usize
    requires { (3 * count + 3 ≤ 354) × (k < 119) }
    ensures value { result ≡ count + length (one k written drawn) }
    ensures found_after { found.new ≡ sets found.old (3 * count) (numbers (one k written drawn)) }
{
    if written == drawn {
        return count;
    }
    put_difference(found, 3 * count, k as u32, written, drawn);
    count + 1
}

// The elements of which not as many are written as drawn, hydrogen left out; how many they are.
#[tactic(auto, using(crate::specs::Listing::listing_laws))]
pub fn list_differences(
    written: &[u32; PLACES],
    drawn: &[u32; PLACES],
    found: &mut [u32; FOUND],
) -> usize
    ensures value { result ≡ length (differences (entry written.now) (entry drawn.now)) }
    ensures found_after { found.new ≡ sets found.old 0 (numbers (differences (entry written.now) (entry drawn.now))) }
{
    let mut count: usize = 0;
    for k in 2..PLACES {
        count = list_one(found, count, k, written[k], drawn[k]);
    }
    count
}
