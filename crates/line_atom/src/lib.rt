// Atom lines, judged.
#![tactic(auto)]

ghost use Rattle.std.specs.Prelude.{◌≡◌, true};
ghost use Rattle.judge_line.specs.Judge.{atom_of};
ghost use Rattle.line_fields.specs.Answer.{field_got};
ghost use Rattle.line_atom.specs.Answer.{position_got, position_of, place_got, codes_got, atom_got, place_of, codes_of, exact_of, atom_from};
ghost use Rattle.line_atom.specs.Usual.{AtomZeros, plain_atom};

use judge_line::Refusal;
use line_usual_position::Position;

// Where an atom stands and what it is: columns 1 to 34.
#[derive(Clone, Copy)]
pub struct AtomPlace {
    pub x: i32,
    pub y: i32,
    pub z: i32,
    pub symbol: u32,
}

// The codes of an atom in columns 35 to 48.
#[derive(Clone, Copy)]
pub struct AtomCodes {
    pub mass_difference: i32,
    pub charge_code: u32,
    pub parity: u32,
    pub hydrogen_count: u32,
    pub stereo_care: u32,
}

#[derive(Drop)]
pub struct Atom {
    pub place: AtomPlace,
    pub codes: AtomCodes,
    pub valence: u32,
    pub h0: u32,
    pub atom_map: u32,
    pub inversion: u32,
    pub exact_change: u32,
}

// The three coordinates, one after the other.
fn any_position(line: &[u8]) -> Result<Position, Refusal>
    ensures { position_got result ≡ position_of line.now }
{
    let x = line_fields::coordinate_field(line, 1)?;
    let y = line_fields::coordinate_field(line, 11)?;
    let z = line_fields::coordinate_field(line, 21)?;
    Ok(Position { x, y, z })
}

// Columns 1 to 30 of an atom line: most have the usual form.
fn atom_position(line: &[u8]) -> Result<Position, Refusal>
    ensures { position_got result ≡ position_of line.now }
{
    match line_usual_position::usual_position(line) {
        Some(p) => Ok(p),
        None => any_position(line),
    }
}

// Columns 1 to 34 of an atom line.
fn atom_place(line: &[u8]) -> Result<AtomPlace, Refusal>
    ensures { place_got result ≡ place_of line.now }
{
    let p = atom_position(line)?;
    if text::column(line, 31) != 32 {
        return Err(Refusal { no: 15, column: 31 });
    }
    let symbol = line_fields::symbol_field(line, 32)?;
    Ok(AtomPlace {
        x: p.x,
        y: p.y,
        z: p.z,
        symbol,
    })
}

// Columns 35 to 48 of an atom line.
fn atom_codes(line: &[u8]) -> Result<AtomCodes, Refusal>
    ensures { codes_got result ≡ codes_of line.now }
{
    let mass_difference = line_fields::signed_field(line, 35, 36, 3, 4)?;
    let charge_code = line_fields::number_field(line, 37, 39, 0, 7)?;
    let parity = line_fields::number_field(line, 40, 42, 0, 3)?;
    let hydrogen_count = line_fields::number_field(line, 43, 45, 0, 5)?;
    let stereo_care = line_fields::number_field(line, 46, 48, 0, 1)?;
    Ok(AtomCodes {
        mass_difference,
        charge_code,
        parity,
        hydrogen_count,
        stereo_care,
    })
}

// Columns 67 on of an atom line.
fn exact_field(line: &[u8]) -> Result<u32, Refusal>
    ensures { field_got result ≡ exact_of line.now }
{
    let exact = line_fields::number_field(line, 67, 69, 0, 1)?;
    match text::ink_column(line, 70) {
        None => Ok(exact),
        Some(column) => Err(Refusal { no: 15, column }),
    }
}

// Columns 49 on of an atom line.
fn atom_rest(line: &[u8], n: u32, place: AtomPlace, codes: AtomCodes) -> Result<Atom, Refusal>
    ensures { atom_got result ≡ atom_from n place codes line.now }
{
    let valence = line_fields::number_field(line, 49, 51, 0, 15)?;
    let h0 = line_fields::number_field(line, 52, 54, 0, 1)?;
    let atom_map = line_fields::number_field(line, 61, 63, 0, n)?;
    let inversion = line_fields::number_field(line, 64, 66, 0, 2)?;
    let exact_change = exact_field(line)?;
    Ok(Atom {
        place,
        codes,
        valence,
        h0,
        atom_map,
        inversion,
        exact_change,
    })
}

// Whether an atom line has zeros in columns 35 to 69 and nothing after them: most have.
fn atom_zeros(line: &[u8]) -> bool
    ensures { result ≡ true → AtomZeros line.now }
{
    line.len() == 69 && !text::text_differs(line, 35, b" 0  0  0  0  0  0  0  0  0  0  0  0")
}

fn plain_atom(place: AtomPlace) -> Atom
    ensures { result ≡ plain_atom place }
{
    Atom {
        place,
        codes: AtomCodes {
            mass_difference: 0,
            charge_code: 0,
            parity: 0,
            hydrogen_count: 0,
            stereo_care: 0,
        },
        valence: 0,
        h0: 0,
        atom_map: 0,
        inversion: 0,
        exact_change: 0,
    }
}

// xxxxx.xxxxyyyyy.yyyyzzzzz.zzzz aaaddcccssshhhbbbvvvHHHrrriiimmmnnneee
pub fn atom_line(line: &[u8], n: u32) -> Result<Atom, Refusal>
    ensures { atom_got result ≡ atom_of n line.now }
{
    let place = atom_place(line)?;
    if atom_zeros(line) {
        return Ok(plain_atom(place));
    }
    let codes = atom_codes(line)?;
    atom_rest(line, n, place, codes)
}
