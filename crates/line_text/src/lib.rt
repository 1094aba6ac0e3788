// The first header line, data headers, `$$$$` lines, value lines and blank lines, judged one at a time.
#![tactic(auto)]

ghost use Rattle.std.specs.Prelude.{◌≡◌, true, [], ◌+◌, ◌-◌, ◌≤◌, ◌<◌, length, take, drop};
ghost use Rattle.text.specs.Text.{bytes};
ghost use Rattle.text.specs.Find.{is_blank};
ghost use Rattle.field_numbers.specs.Read.{after_spaces};
ghost use Rattle.judge_line.specs.Judge.{begins, first_header_of, is_close, name_on, opened, header_of, title_got, item_of, not_header, value_of};
ghost use Rattle.line_text.specs.Answer.{header_got, name_got, name_in, item_got, item_in, value_got};
ghost use Rattle.line_text.specs.HeaderParts.{spaceless, tagged, name_ends};

use judge_line::Refusal;

// What a line is found to be where a data header or `$$$$` must stand. A title's name has the positions from `from` up to but not with `to`.
#[derive(Drop)]
pub enum ItemLine {
    Title { from: usize, to: usize },
    Close,
}

// What a line is found to be where a value line or the blank line after the values must stand.
#[derive(Drop)]
pub enum ValueKind {
    Value,
    Blank,
}

// Where the name of a data header stands, in a line that is one.
#[derive(Drop)]
enum NameRead {
    Named { from: usize, to: usize },
    Unnamed,
}

// Whether the line begins with this text, in which there is no space.
fn begins_with(line: &[u8], tag: &[u8]) -> bool
    requires { spaceless tag.now ≡ true }
    ensures { result ≡ begins tag.now line.now }
{
    text::has_text(line, 1, tag)
}

// Whether there are only spaces from position `at` on.
fn blank_from(line: &[u8], at: usize) -> bool
    requires { at ≤ length line.now }
    ensures { result ≡ is_blank (drop at line.now) }
{
    text::is_blank(&line[at..])
}

// Whether the line begins with a tag that is reserved.
fn is_tagged(line: &[u8]) -> bool
    ensures { result ≡ tagged line.now }
{
    if begins_with(line, b"$$$$") {
        return true;
    }
    if begins_with(line, b"$MDL") {
        return true;
    }
    if begins_with(line, b"$RXN") {
        return true;
    }
    begins_with(line, b"$RDFILE")
}

// Whether a reserved tag stands at position i.
fn tag_at(line: &[u8], i: usize) -> bool
    requires { i < length line.now }
    ensures { result ≡ tagged (drop i line.now) }
{
    if line[i] != b'$' {
        return false;
    }
    is_tagged(&line[i..])
}

// The first header line: it may not contain a reserved tag.
#[tactic(auto, using(crate::proofs::Tags::untagged_laws))]
pub fn first_header(line: &[u8]) -> Result<(), Refusal>
    ensures { header_got line.now result ≡ first_header_of line.now }
{
    for i in 0..line.len() {
        if tag_at(line, i) {
            return Err(Refusal { no: 5, column: 1 });
        }
    }
    Ok(())
}

// The name from `from` up to its `>` at position `to`: 1 to 30 bytes, and only spaces after it.
fn name_to(line: &[u8], from: usize, to: usize) -> NameRead
    requires { (from ≤ to) × (to < length line.now) }
    ensures result_value { name_got line.now result ≡ name_ends (take (to - from) (drop from line.now)) (drop (to + 1) line.now) }
    ensures name_in { name_in line.now result }
{
    if to - from < 1 {
        return NameRead::Unnamed;
    }
    if 30 < to - from {
        return NameRead::Unnamed;
    }
    if blank_from(line, to + 1) {
        return NameRead::Named { from, to };
    }
    NameRead::Unnamed
}

// The name that starts at `from`, right after `<`: it ends at the next `<` or `>`, which has to be `>`.
#[tactic(auto, using(crate::proofs::Names::naming_laws))]
fn name_from(line: &[u8], from: usize) -> NameRead
    requires { from ≤ length line.now }
    ensures result_value { name_got line.now result ≡ name_on [] (drop from line.now) }
    ensures name_in { name_in line.now result }
{
    for i in from..line.len() {
        if line[i] == b'<' {
            return NameRead::Unnamed;
        }
        if line[i] == b'>' {
            return name_to(line, from, i);
        }
    }
    NameRead::Unnamed
}

// `<` at position `at`, and then the name.
fn name_opened(line: &[u8], at: usize) -> NameRead
    requires { at < length line.now }
    ensures result_value { name_got line.now result ≡ opened (drop at line.now) }
    ensures name_in { name_in line.now result }
{
    if line[at] != b'<' {
        return NameRead::Unnamed;
    }
    name_from(line, at + 1)
}

// What follows `>` and a space: more spaces, `<` and the name.
fn name_spaced(line: &[u8]) -> NameRead
    ensures result_value { name_got line.now result ≡ opened (after_spaces (drop 2 line.now)) }
    ensures name_in { name_in line.now result }
{
    match text::ink_column(line, 3) {
        Some(k) => name_opened(line, k - 1),
        None => NameRead::Unnamed,
    }
}

// A data header: `>`, one or more spaces, `<`, the name, `>`, in 80 columns at most.
fn data_header(line: &[u8]) -> NameRead
    ensures result_value { name_got line.now result ≡ header_of line.now }
    ensures name_in { name_in line.now result }
{
    if 80 < line.len() {
        return NameRead::Unnamed;
    }
    if text::column(line, 1) != b'>' {
        return NameRead::Unnamed;
    }
    if text::column(line, 2) != b' ' {
        return NameRead::Unnamed;
    }
    name_spaced(line)
}

// A `$$$$` line: only spaces after it.
fn is_close(line: &[u8]) -> bool
    ensures { result ≡ is_close line.now }
{
    if begins_with(line, b"$$$$") {
        return blank_from(line, 4);
    }
    false
}

// A line that is no `$$$$` line, where a data header or `$$$$` must stand.
fn title_line(line: &[u8]) -> Result<ItemLine, Refusal>
    ensures result_value { item_got line.now result ≡ title_got (header_of line.now) }
    ensures item_in { item_in line.now result }
{
    match data_header(line) {
        NameRead::Named { from, to } => Ok(ItemLine::Title { from, to }),
        NameRead::Unnamed => Err(Refusal { no: 16, column: 1 }),
    }
}

// A line where a data header or `$$$$` must stand.
pub fn item_line(line: &[u8]) -> Result<ItemLine, Refusal>
    ensures result_value { item_got line.now result ≡ item_of line.now }
    ensures item_in { item_in line.now result }
{
    if is_close(line) {
        return Ok(ItemLine::Close);
    }
    title_line(line)
}

// A line that begins with `>`, where a value line must stand.
fn arrow_value(line: &[u8]) -> Result<ValueKind, Refusal>
    ensures { value_got result ≡ not_header (header_of line.now) }
{
    match data_header(line) {
        NameRead::Named { from: _, to: _ } => Err(Refusal { no: 17, column: 1 }),
        NameRead::Unnamed => Ok(ValueKind::Value),
    }
}

// A line where a value line or the blank line after the values must stand. Most are values by their first byte.
pub fn value_line(line: &[u8]) -> Result<ValueKind, Refusal>
    ensures { value_got result ≡ value_of line.now }
{
    let first = text::column(line, 1);
    if first == b'>' {
        return arrow_value(line);
    }
    if first == b'$' {
        if begins_with(line, b"$$$$") {
            return Err(Refusal { no: 17, column: 1 });
        }
        return Ok(ValueKind::Value);
    }
    if first == b' ' {
        if text::is_blank(line) {
            return Ok(ValueKind::Blank);
        }
        return Ok(ValueKind::Value);
    }
    Ok(ValueKind::Value)
}
