// The judge of one line of a record, and its agreement with the rules: in specs/. What code refuses a line with stands here.
#![tactic(auto)]

// Why a line is refused: the refusal's number, and the column that it names.
#[derive(Clone, Copy, PartialEq, Eq, Debug)]
pub struct Refusal {
    pub no: u8,
    pub column: usize,
}
