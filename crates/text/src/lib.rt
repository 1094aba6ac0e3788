// Lines of a text and columns of a line.
#![tactic(auto)]

ghost use Rattle.std.specs.Prelude.{◌≡◌, ℕ, true, false, ◌+◌, ◌≤◌, ◌<◌, length, drop, MatchBool};
ghost use Rattle.text.specs.Columns.{column};
ghost use Rattle.text.specs.Find.{first_from, is_lf, is_bad, bad_column, ink_column, line_to, line_at, is_blank, has_text};
ghost use Rattle.text.specs.Search.{Passed};

// The line at a position of a text: its bytes end before `end`, and the next line starts at `next`.
#[derive(Drop)]
pub enum LineAt {
    Line { end: usize, next: usize },
    Unfinished,
}

// The byte in column i: a space past the end of the line.
pub fn column(line: &[u8], i: usize) -> u8
    requires { 1 ≤ i }
    ensures { result ≡ column line.now i }
{
    let k = i - 1;
    if k < line.len() { line[k] } else { b' ' }
}

// The byte in column i, where the line has one.
pub fn inner_column(line: &[u8], i: usize) -> u8
    requires { (1 ≤ i) × (i ≤ length line.now) }
    ensures { result ≡ column line.now i }
{
    line[i - 1]
}

// Whether a number below n passes the test. It asks all of them, so that the test of a block of bytes compiles to a few
// vector tests.
pub fn any_below<P: Fn(usize) -> bool>(n: usize, test: P) -> bool
    requires { (k : ℕ) → k < n → P.pre test k }
    ensures { MatchBool result ((k : ℕ) × (k < n) × P.post test k true) ((k : ℕ) → k < n → P.post test k false) }
{
    let mut any = false;
    for k in 0..n {
        any |= test(k);
    }
    any
}

// The first LF of the sixteen bytes from `at` on, or the position after them.
#[tactic(auto, using(crate::proofs::Passing::lf_laws))]
fn lf_of_block(s: &[u8], at: usize) -> usize
    requires { at + 16 ≤ length s.now }
    ensures { Passed is_lf s.now at result }
{
    for k in 0..16 {
        if s[at + k] == b'\n' {
            return at + k;
        }
    }
    at + 16
}

// A position from `at` on before which there is no LF: whole blocks without one are passed.
#[tactic(auto, using(crate::proofs::Passing::passed_start))]
fn near_lf(s: &[u8], at: usize) -> usize
    requires { at ≤ length s.now }
    ensures { Passed is_lf s.now at result }
{
    let blocks = (s.len() - at) / 16;
    for b in 0..blocks {
        if any_below(16, |k| s[at + 16 * b + k] == b'\n') {
            return lf_of_block(s, at + 16 * b);
        }
    }
    at + 16 * blocks
}

// The first LF from `at` on.
#[tactic(auto, using(crate::proofs::Passing::lf_laws))]
fn find_lf(s: &[u8], at: usize) -> Option<usize>
    ensures { result ≡ first_from is_lf at (drop at s.now) }
{
    if s.len() <= at {
        return None;
    }
    for i in near_lf(s, at)..s.len() {
        if s[i] == b'\n' {
            return Some(i);
        }
    }
    None
}

// The line from `at` to its LF at k.
fn line_to(s: &[u8], at: usize, k: usize) -> LineAt
    requires { k < length s.now }
    ensures { result ≡ line_to s.now at (Some k) }
{
    if at < k {
        if s[k - 1] == b'\r' {
            LineAt::Line {
                end: k - 1,
                next: k + 1,
            }
        } else {
            LineAt::Line {
                end: k,
                next: k + 1,
            }
        }
    } else {
        LineAt::Line {
            end: k,
            next: k + 1,
        }
    }
}

// The line that starts at position `at` of a text.
pub fn line_at(s: &[u8], at: usize) -> LineAt
    ensures { result ≡ line_at s.now at }
{
    match find_lf(s, at) {
        Some(k) => line_to(s, at, k),
        None => LineAt::Unfinished,
    }
}

// Whether a byte is not allowed: allowed bytes are 32 to 126.
fn is_bad(b: u8) -> bool
    ensures { result ≡ is_bad b }
{
    if b < 32 {
        return true;
    }
    126 < b
}

// Whether one of the sixteen bytes from `at` on is not allowed.
fn bad_in_block(line: &[u8], at: usize) -> bool
    requires { at + 16 ≤ length line.now }
    ensures { result ≡ false → Passed is_bad line.now at (at + 16) }
{
    any_below(16, |k| is_bad(line[at + k]))
}

// A position from i on, near the end of the line, before which all bytes are allowed. The last sixteen are asked at once, some of them again.
#[tactic(auto, using(crate::proofs::Passing::passed_start))]
fn near_end(line: &[u8], i: usize) -> usize
    requires { (i ≤ length line.now) × (length line.now ≤ i + 16) }
    ensures { Passed is_bad line.now i result }
{
    if line.len() < 16 {
        return i;
    }
    if bad_in_block(line, line.len() - 16) {
        return i;
    }
    line.len()
}

// A position before which all bytes are allowed: whole blocks of allowed bytes are passed.
#[tactic(auto, using(crate::proofs::Passing::passed_start))]
fn near_bad(line: &[u8]) -> usize
    ensures { Passed is_bad line.now 0 result }
{
    let blocks = line.len() / 16;
    for b in 0..blocks {
        if bad_in_block(line, 16 * b) {
            return 16 * b;
        }
    }
    near_end(line, 16 * blocks)
}

// The column of the first byte that is not allowed.
#[tactic(auto, using(crate::proofs::Passing::bad_laws))]
pub fn bad_column(line: &[u8]) -> Option<usize>
    ensures { result ≡ bad_column line.now }
{
    for i in near_bad(line)..line.len() {
        if is_bad(line[i]) {
            return Some(i + 1);
        }
    }
    None
}

// The first column from column i on that is no space.
#[tactic(auto, using(crate::proofs::Passing::ink_laws))]
pub fn ink_column(line: &[u8], i: usize) -> Option<usize>
    requires { 1 ≤ i }
    ensures { result ≡ ink_column line.now i }
{
    for k in i - 1..line.len() {
        if line[k] != b' ' {
            return Some(k + 1);
        }
    }
    None
}

// Whether the line is empty or spaces only.
pub fn is_blank(line: &[u8]) -> bool
    ensures { result ≡ is_blank line.now }
{
    match ink_column(line, 1) {
        Some(_) => false,
        None => true,
    }
}

// Whether the columns from column i on are this text.
#[tactic(auto, using(crate::proofs::Texts::text_laws))]
pub fn has_text(line: &[u8], i: usize, text: &[u8]) -> bool
    requires { (1 ≤ i) × (i ≤ 1000) }
    ensures { result ≡ has_text line.now i text.now }
{
    for (k, b) in text.iter().enumerate() {
        if column(line, i + k) != *b {
            return false;
        }
    }
    true
}

// Whether the columns from column i on, which the line has, differ from this text. All are compared, which compiles to a
// few vector tests.
pub fn text_differs(line: &[u8], i: usize, text: &[u8]) -> bool
    requires { (1 ≤ i) × (i + length text.now ≤ length line.now + 1) }
    ensures { result ≡ false → has_text line.now i text.now ≡ true }
{
    any_below(text.len(), |k| inner_column(line, i + k) != text[k])
}
