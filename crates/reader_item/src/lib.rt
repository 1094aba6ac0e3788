// The value lines of a data item, fetched from a record of an SDfile as a part of the caller's bytes.
#![tactic(auto)]

ghost use Rattle.std.specs.Prelude.{◌≡◌, ◌*◌, ◌≤◌, length};
ghost use Rattle.text.specs.Find.{same_bytes};
ghost use Rattle.rules.specs.Record.{atom_places, bond_places};
ghost use Rattle.judge_line.specs.Judge.{item_of};
ghost use Rattle.line_property.specs.Listed.{places};
ghost use Rattle.line_judged.specs.Known.{HeaderOrEnd};
ghost use Rattle.reader_item.specs.Find.{title_by, values_at, numbers_of, found_of, stretch_of, ItemsStart, ValuesFrom};
ghost use Rattle.reader_item.specs.Promise.{Promised, Handed};

use reader_walk::Walked;
use rules::{ATOMS, BONDS, LISTED};

// What a fetch finds: the bytes from the first value line's start up to the last one's end; both 0 where the item has no value lines.
#[derive(Drop)]
pub enum Found {
    Item { from: usize, to: usize },
    Refused { no: u8, line: usize, column: usize },
}

// A line where a data header or `$$$$` must stand, held against a name.
#[derive(Drop)]
enum Title {
    Named,
    Other,
    Close,
}

// A stretch of the caller's bytes.
#[derive(Drop)]
struct Part {
    from: usize,
    to: usize,
}

// The value lines of an item, and where the line after its blank line starts.
#[derive(Drop)]
struct Values {
    from: usize,
    to: usize,
    next: usize,
}

// Whether a name is the one that is sought: byte for byte.
pub fn same_name(found: &[u8], name: &[u8]) -> bool
    ensures { result ≡ same_bytes found.now name.now }
{
    if found.len() != name.len() {
        return false;
    }
    text::has_text(found, 1, name)
}

// A data header or the `$$$$` line that ends the record.
fn title_line(line: &[u8], name: &[u8]) -> Title
    requires { HeaderOrEnd line.now }
    ensures { result ≡ title_by name.now (item_of line.now) }
{
    if line_judged::is_end(line) {
        return Title::Close;
    }
    let found = line_judged::name_of(line);
    let from = found.from;
    let to = found.to;
    if same_name(&line[from..to], name) {
        return Title::Named;
    }
    Title::Other
}

// The value lines of an item of a good record, which start at position `at`, and the blank line that ends them.
fn values_at(s: &[u8], at: usize) -> Values
    requires { ValuesFrom s.now at }
    ensures { result ≡ values_at s.now at }
{
    let mut from: usize = 0;
    let mut to: usize = 0;
    let mut i = at;
    // The place jumps by lines of any length: a `for` would need an iterator over them, with a proof of its own.
    loop {
        let line = line_judged::whole_line(s, i);
        let end = line.end;
        let next = line.next;
        if text::is_blank(&s[i..end]) {
            return Values { from, to, next };
        }
        from = at;
        to = end;
        i = next;
    }
}

// The first item of a name, among the items of a good record, which start at `start`.
fn hunt(s: &[u8], start: usize, name: &[u8]) -> Found
    requires { ItemsStart s.now start }
    ensures { numbers_of result ≡ found_of s.now name.now }
{
    let mut at = start;
    // The place jumps by items of any length: a `for` would need an iterator over them, with a proof of its own.
    loop {
        let line = line_judged::whole_line(s, at);
        let end = line.end;
        let next = line.next;
        match title_line(&s[at..end], name) {
            Title::Named => {
                let v = values_at(s, next);
                return Found::Item {
                    from: v.from,
                    to: v.to,
                };
            }
            Title::Other => {
                let v = values_at(s, next);
                at = v.next;
            }
            Title::Close => {
                return Found::Refused {
                    no: 22,
                    line: 0,
                    column: 0,
                };
            }
        }
    }
}

// The record is judged first; the tables are of no further use.
fn find_with(
    s: &[u8],
    name: &[u8],
    atoms: &mut [i32],
    bonds: &mut [i32],
    listed: &mut [u32; LISTED],
) -> Found
    requires { (atom_places ≤ length atoms.old) × (bond_places ≤ length bonds.old) × (length listed.old ≡ 3 * places) }
    ensures result_value { numbers_of result ≡ found_of s.now name.now }
    ensures listed_len { length listed.new ≡ 3 * places }
{
    match reader_walk::walk_record(true, s, atoms, bonds, listed) {
        Walked::Whole {
            counts: _,
            length: _,
            lines: _,
            header_end: _,
            items_start,
            items_end: _,
        } => hunt(s, items_start, name),
        Walked::Refused { no, line, column } => Found::Refused { no, line, column },
    }
}

// Where the value lines of the first item of a name stand in the record that the bytes begin with. Nobody reads the rows, so the compiler lays no tables for
// them.
pub fn find_item(s: &[u8], name: &[u8]) -> Found
    ensures { Promised s.now name.now (numbers_of result) }
{
    let mut atoms = [0i32; ATOMS];
    let mut bonds = [0i32; BONDS];
    let mut listed = [0u32; LISTED];
    find_with(s, name, &mut atoms, &mut bonds, &mut listed)
}

// The stretch that a fetch hands back: the empty one at the start where it is refused.
fn part_of(found: Found) -> Part
    ensures { result ≡ stretch_of (numbers_of found) }
{
    match found {
        Found::Item { from, to } => Part { from, to },
        Found::Refused {
            no: _,
            line: _,
            column: _,
        } => Part { from: 0, to: 0 },
    }
}

// Those value lines themselves, as a part of the caller's bytes: nothing where the fetch is refused.
pub fn fetch<'a>(s: &'a [u8], name: &[u8]) -> &'a [u8]
    ensures { Handed s.entry.ref_ptr s.now name.now result.ref_ptr result.now }
{
    let part = part_of(find_item(s, name));
    let from = part.from;
    let to = part.to;
    &s[from..to]
}
