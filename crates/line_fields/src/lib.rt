// The fields of a line, each a value or the refusal with its column.
#![tactic(auto)]

ghost use Rattle.std.specs.Prelude.{◌≡◌, ◌+◌, ◌≤◌};
ghost use Rattle.judge_line.specs.Field.{number_at, signed_at, coordinate_at, symbol_at};
ghost use Rattle.line_fields.specs.Answer.{field_got, signed_field_got};

use field_numbers::NumberFault;
use judge_line::Refusal;

// Columns i to j as a number from `least` to `most`.
#[tactic(auto, using(crate::specs::Steps::one_field))]
pub fn number_field(line: &[u8], i: usize, j: usize, least: u32, most: u32) -> Result<u32, Refusal>
    requires { (1 ≤ i) × ((i ≤ j) × ((j ≤ i + 8) × (j ≤ 1000))) }
    ensures { field_got result ≡ number_at line.now i j least most }
{
    match field_numbers_read::number(line, i, j, least, most) {
        Ok(k) => Ok(k),
        Err(NumberFault::Malformed) => Err(Refusal { no: 7, column: i }),
        Err(NumberFault::Outside) => Err(Refusal { no: 8, column: i }),
    }
}

// Columns i to j as a number from minus `below` to `above`.
#[tactic(auto, using(crate::specs::Steps::one_field))]
pub fn signed_field(line: &[u8], i: usize, j: usize, below: u32, above: u32) -> Result<i32, Refusal>
    requires { (1 ≤ i) × ((i ≤ j) × ((j ≤ i + 8) × (j ≤ 1000))) }
    ensures { signed_field_got result ≡ signed_at line.now i j below above }
{
    match field_numbers_read::signed_number(line, i, j, below, above) {
        Ok(z) => Ok(z),
        Err(NumberFault::Malformed) => Err(Refusal { no: 7, column: i }),
        Err(NumberFault::Outside) => Err(Refusal { no: 8, column: i }),
    }
}

// Ten columns from column i as a coordinate.
#[tactic(auto, using(crate::specs::Steps::one_field))]
pub fn coordinate_field(line: &[u8], i: usize) -> Result<i32, Refusal>
    requires { (1 ≤ i) × (i ≤ 1000) }
    ensures { signed_field_got result ≡ coordinate_at line.now i (i + 9) }
{
    match field_coordinates::coordinate(line, i) {
        Some(z) => Ok(z),
        None => Err(Refusal { no: 7, column: i }),
    }
}

// Three columns from column i as a symbol.
#[tactic(auto, using(crate::specs::Steps::one_field))]
pub fn symbol_field(line: &[u8], i: usize) -> Result<u32, Refusal>
    requires { (1 ≤ i) × (i ≤ 1000) }
    ensures { field_got result ≡ symbol_at line.now i (i + 2) }
{
    match field_symbols::symbol(line, i) {
        Some(k) => Ok(k),
        None => Err(Refusal { no: 9, column: i }),
    }
}
