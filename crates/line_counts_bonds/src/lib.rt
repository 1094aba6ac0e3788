// Counts lines and bond lines, judged.
#![tactic(auto)]

ghost use Rattle.std.specs.Prelude.{◌≡◌, true, ◌-◌, ◌*◌, ◌≤◌, leb};
ghost use Rattle.field_numbers.specs.Number.{Between};
ghost use Rattle.rules.specs.Forms.{stereos, centres};
ghost use Rattle.judge_line.specs.Field.{listed_at, signed_listed_at, elem, elem_signed};
ghost use Rattle.judge_line.specs.Judge.{counts_of, bond_of};
ghost use Rattle.line_fields.specs.Answer.{field_got, signed_field_got};
ghost use Rattle.line_counts_bonds.specs.Answer.{counts_got, bond_got, after_counts, bond_from, next_centres};
ghost use Rattle.line_counts_bonds.specs.Usual.{BondZeros, plain_bond};

use judge_line::Refusal;

// The most atoms, and the most bonds, of a record.
pub const LIMIT: u32 = rules::LIMIT as u32;

#[derive(Clone, Copy)]
pub struct Counts {
    pub atoms: u32,
    pub bonds: u32,
    pub chiral: u32,
}

#[derive(Drop)]
pub struct Bond {
    pub first: u32,
    pub second: u32,
    pub order: u32,
    pub stereo: u32,
    pub topology: u32,
    pub centre: i32,
}

// The counts line from column 7 on.
fn counts_rest(line: &[u8], atoms: u32, bonds: u32) -> Result<Counts, Refusal>
    ensures { counts_got result ≡ after_counts atoms bonds line.now }
{
    let _lists = line_fields::number_field(line, 7, 9, 0, 0)?;
    let chiral = line_fields::number_field(line, 13, 15, 0, 1)?;
    let _stext = line_fields::number_field(line, 16, 18, 0, 0)?;
    if text::has_text(line, 34, b" V2000") {
        match text::ink_column(line, 40) {
            None => Ok(Counts {
                atoms,
                bonds,
                chiral,
            }),
            Some(column) => Err(Refusal { no: 15, column }),
        }
    } else {
        Err(Refusal { no: 6, column: 34 })
    }
}

// aaabbblllfffcccsssxxxrrrpppiiimmmvvvvvv
pub fn counts_line(line: &[u8], limit: u32) -> Result<Counts, Refusal>
    requires { limit ≤ 999 }
    ensures { counts_got result ≡ counts_of limit line.now }
{
    let atoms = line_fields::number_field(line, 1, 3, 0, limit)?;
    let bonds = line_fields::number_field(line, 4, 6, 0, limit)?;
    if enough_pairs(atoms, bonds) {
        counts_rest(line, atoms, bonds)
    } else {
        Err(Refusal { no: 12, column: 4 })
    }
}

// The pairs of n atoms suffice for m bonds.
pub fn enough_pairs(n: u32, m: u32) -> bool
    requires { (n ≤ 999) × (m ≤ 999) }
    ensures { result ≡ leb (2 * m) (n * (n - 1)) }
{
    if n == 0 {
        return m == 0;
    }
    2 * m <= n * (n - 1)
}

// Columns 10 to 12 of a bond line: what its type allows.
fn stereo_field(line: &[u8], order: u32) -> Result<u32, Refusal>
    ensures { field_got result ≡ listed_at line.now 10 12 6 (stereos order) }
{
    let stereo = line_fields::number_field(line, 10, 12, 0, 6)?;
    if stereo_allowed(order, stereo) {
        Ok(stereo)
    } else {
        Err(Refusal { no: 8, column: 10 })
    }
}

// A single bond: 0, 1, 4 or 6.
fn single_stereo(stereo: u32) -> bool
    ensures { result ≡ elem stereo (stereos 1) }
{
    if stereo == 0 {
        return true;
    }
    if stereo == 1 {
        return true;
    }
    if stereo == 4 {
        return true;
    }
    stereo == 6
}

// A double bond: 0 or 3; any other: 0.
fn stereo_allowed(order: u32, stereo: u32) -> bool
    ensures { result ≡ elem stereo (stereos order) }
{
    if order == 1 {
        return single_stereo(stereo);
    }
    if stereo == 0 {
        return true;
    }
    if order == 2 {
        return stereo == 3;
    }
    false
}

// Columns 19 to 21 of a bond line.
fn centre_field(line: &[u8]) -> Result<i32, Refusal>
    ensures { signed_field_got result ≡ signed_listed_at line.now 19 21 1 13 centres }
{
    let centre = line_fields::signed_field(line, 19, 21, 1, 13)?;
    if centre_allowed(centre) {
        Ok(centre)
    } else {
        Err(Refusal { no: 8, column: 19 })
    }
}

// -1, 0, 1, 2, 4, 5, 8, 9, 12 or 13: one more than it is looked up.
fn centre_allowed(centre: i32) -> bool
    requires { Between 1 13 centre }
    ensures { result ≡ elem_signed centre centres }
{
    next_allowed((centre + 1) as u32)
}

// 0 to 3, 5, 6, 9, 10, 13 or 14.
fn next_allowed(k: u32) -> bool
    ensures { result ≡ elem k next_centres }
{
    if k <= 3 {
        return true;
    }
    if k == 5 {
        return true;
    }
    if k == 6 {
        return true;
    }
    if k == 9 {
        return true;
    }
    if k == 10 {
        return true;
    }
    if k == 13 {
        return true;
    }
    k == 14
}

// A bond line from column 13 on.
fn bond_rest(line: &[u8], first: u32, second: u32, order: u32, stereo: u32) -> Result<Bond, Refusal>
    ensures { bond_got result ≡ bond_from first second order stereo line.now }
{
    let topology = line_fields::number_field(line, 16, 18, 0, 2)?;
    let centre = centre_field(line)?;
    match text::ink_column(line, 22) {
        None => {
            if first == second {
                return Err(Refusal { no: 10, column: 1 });
            }
            Ok(Bond {
                first,
                second,
                order,
                stereo,
                topology,
                centre,
            })
        }
        Some(column) => Err(Refusal { no: 15, column }),
    }
}

// Whether a bond line has zeros in columns 10 to 21 and nothing after them.
fn bond_zeros(line: &[u8]) -> bool
    ensures { result ≡ true → BondZeros line.now }
{
    line.len() == 21 && !text::text_differs(line, 10, b"  0  0  0  0")
}

fn plain_bond(first: u32, second: u32, order: u32) -> Result<Bond, Refusal>
    ensures { bond_got result ≡ plain_bond first second order }
{
    if first == second {
        return Err(Refusal { no: 10, column: 1 });
    }
    Ok(Bond {
        first,
        second,
        order,
        stereo: 0,
        topology: 0,
        centre: 0,
    })
}

// 111222tttsssxxxrrrccc
pub fn bond_line(line: &[u8], n: u32) -> Result<Bond, Refusal>
    ensures { bond_got result ≡ bond_of n line.now }
{
    let first = line_fields::number_field(line, 1, 3, 1, n)?;
    let second = line_fields::number_field(line, 4, 6, 1, n)?;
    let order = line_fields::number_field(line, 7, 9, 1, 8)?;
    if bond_zeros(line) {
        return plain_bond(first, second, order);
    }
    let stereo = stereo_field(line, order)?;
    bond_rest(line, first, second, order, stereo)
}
