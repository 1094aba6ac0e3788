// The rules of the format: definitions and theorems, all in specs/. What runs is in the crates above; here are the sizes that they share, each made from one.
#![tactic(auto)]

ghost use Rattle.std.specs.Prelude.{◌≡◌, [], ◌∷◌, suc, ◌*◌};
ghost use Rattle.rules.specs.Record.{limit, atom_places, bond_places};

// The most atoms, and the most bonds, of a record.
pub const LIMIT: usize = 999;

// Numbers of the tables that hold so many: sixteen to an atom, six to a bond.
pub const ATOMS: usize = 16 * LIMIT;

pub const BONDS: usize = 6 * LIMIT;

// Places of listed numbers: atoms 0 to the limit, for each of three kinds.
pub const PLACES: usize = LIMIT + 1;

pub const LISTED: usize = 3 * PLACES;

// These are the sizes that the rules name.
pub fn limits_are() -> [usize; 5]
    ensures { result ≡ limit ∷ atom_places ∷ bond_places ∷ suc limit ∷ 3 * suc limit ∷ [] }
{
    [LIMIT, ATOMS, BONDS, PLACES, LISTED]
}
