// The judge of a whole text and its agreement with the rules: in specs/. What code refuses a text with stands here.
#![tactic(auto)]

// Why a text is refused: the refusal's number, and the line and the column that it names.
#[derive(Clone, Copy, PartialEq, Eq, Debug)]
pub struct TextRefusal {
    pub no: u8,
    pub line: usize,
    pub column: usize,
}
