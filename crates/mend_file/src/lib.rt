// A whole SDfile mended into lent room, with the list of repairs.
#![tactic(auto)]

ghost use Rattle.std.specs.Prelude.{◌≡◌, ◌*◌, length};
ghost use Rattle.rules.specs.Record.{limit};
ghost use Rattle.line_property.specs.Listed.{places};
ghost use Rattle.mend_file.specs.Promise.{Promise, numbers_of};
ghost use Rattle.mend_file.specs.Walked.{Walked, starts_at, end_of};
ghost use Rattle.mend_file.specs.Promised.{Measured};

use mend_judge::Judge;
use mend_lines::Deed;
use mend_out::Mender;
use reader_pairs::KEYS;
use reader_places::Place;
use rules::LISTED;

// How long the mended text is, and how many repairs are listed; or why the text is refused, its line counted in the mended text.
#[derive(Drop)]
pub enum Mended {
    Done { length: usize, repairs: usize },
    Refused { no: u8, line: usize, column: usize },
}

// Whether a record may begin at a place.
fn starts(place: Place) -> bool
    ensures { result ≡ starts_at place }
{
    match place {
        Place::Header { owed } => owed == 3,
        Place::Counts => false,
        Place::Atoms { owed: _ } => false,
        Place::Bonds { owed: _ } => false,
        Place::Properties => false,
        Place::Over => false,
        Place::Items => false,
        Place::Values => false,
    }
}

// At the end of the file.
fn ended(judge: Judge, m: Mender) -> Mended
    ensures { result ≡ end_of judge m }
{
    let reader = judge.reader;
    let place = reader.place;
    if starts(place) {
        return Mended::Done {
            length: m.out,
            repairs: m.repairs,
        };
    }
    Mended::Refused {
        no: 19,
        line: m.out_line,
        column: 1,
    }
}

// The lines of a file, mended one after the other into the room and the list, as far as these go, until one is refused.
fn walk_lines(
    s: &[u8],
    room: &mut [u8],
    list: &mut [u64],
    listed: &mut [u32; LISTED],
    keys: &mut [u32; KEYS],
) -> Mended
    requires listed_len { length listed.old ≡ 3 * places }
    requires keys_len { length keys.old ≡ limit }
    ensures { Walked s.now room.old list.old result room.new list.new }
{
    let mut judge = Judge::new(false);
    let mut m = Mender::new();
    let mut tail = false;
    // A line may be dropped, put before or looked at twice: no `for` over lines says where the next turn starts.
    while m.at < s.len() {
        let at = m.at;
        let p = mend_lines::piece_at(s, at);
        let end = p.end;
        match mend_lines::deed_at(judge, tail, s, at, end) {
            Deed::Keep => match mend_judge::judge_line(judge, &s[at..end], listed, keys) {
                Ok(j) => {
                    judge = j;
                    m = mend_out::keep_line(m, s, p, room, list);
                }
                Err(refusal) => {
                    return Mended::Refused {
                        no: refusal.no,
                        line: m.out_line,
                        column: refusal.column,
                    };
                }
            },
            Deed::Put => {
                judge = judge.emptied();
                m = mend_out::put_line(m, room, list);
            }
            Deed::Drop => {
                m = mend_out::drop_line(m, p.next, list);
            }
            Deed::Tail => {
                tail = true;
            }
        }
    }
    ended(judge, m)
}

// The same, with tables of its own.
fn walk(s: &[u8], room: &mut [u8], list: &mut [u64]) -> Mended
    ensures { Walked s.now room.old list.old result room.new list.new }
{
    let mut listed = [0u32; LISTED];
    let mut keys = [0u32; KEYS];
    walk_lines(s, room, list, &mut listed, &mut keys)
}

// A good text of so many bytes, with so many repairs, if the room and then the list are long enough.
fn write(s: &[u8], length: usize, repairs: usize, room: &mut [u8], list: &mut [u64]) -> Mended
    requires { Measured s.now length repairs }
    ensures { Promise s.now room.old list.old (numbers_of result) room.new list.new }
{
    if room.len() < length {
        return Mended::Refused {
            no: 38,
            line: 0,
            column: 0,
        };
    }
    if list.len() / 2 < repairs {
        return Mended::Refused {
            no: 39,
            line: 0,
            column: 0,
        };
    }
    walk(s, room, list)
}

// A whole SDfile mended: its text at the front of the room, and two numbers in the list for each repair, its line in the file as it came and what was
// done: 1 an empty line put before it, 2 a blank line dropped, 3 its line end added. A refusal writes nothing. What is measured is stored nowhere.
pub fn mend_file(s: &[u8], room: &mut [u8], list: &mut [u64]) -> Mended
    ensures { Promise s.now room.old list.old (numbers_of result) room.new list.new }
{
    let mut no_room = [0u8; 1];
    let mut no_list = [0u64; 1];
    match walk(s, &mut no_room, &mut no_list) {
        Mended::Done { length, repairs } => write(s, length, repairs, room, list),
        Mended::Refused { no, line, column } => Mended::Refused { no, line, column },
    }
}
