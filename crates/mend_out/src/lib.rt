// What comes out of mending: the text and the list, laid into lent room as far as it goes. Room of no bytes measures.
#![tactic(auto)]

ghost use Rattle.std.specs.Prelude.{◌≡◌, [], ◌∷◌, ◌+◌, ◌-◌, ◌*◌, ◌^◌, ◌≤◌, ◌<◌, length, set};
ghost use Rattle.std.proofs.lemmas.List.Edits.{sets};
ghost use Rattle.text.specs.Text.{LF};
ghost use Rattle.mend_out.specs.Out.{begun, noted_by, passed_by, laid_by, put_by, dropped_by, ended_by, CanNote, CanPut, CanKeep, late, Kept};

use mend_lines::Piece;

// Where the walk stands: position and line of the file as it came, bytes and line of the mended text, and how many repairs are listed.
#[derive(Drop)]
pub struct Mender {
    pub at: usize,
    pub line: usize,
    pub out: usize,
    pub out_line: usize,
    pub repairs: usize,
}

const PUT: u64 = 1;

const DROPPED: u64 = 2;

const ENDED: u64 = 3;

impl Mender {
    pub fn new() -> Mender
        ensures { result ≡ begun }
    {
        Mender {
            at: 0,
            line: 1,
            out: 0,
            out_line: 1,
            repairs: 0,
        }
    }

    // One repair more.
    fn more(self) -> Mender
        requires { self.repairs + 1 < 2 ^ 64 }
        ensures { result ≡ noted_by self }
    {
        Mender {
            at: self.at,
            line: self.line,
            out: self.out,
            out_line: self.out_line,
            repairs: self.repairs + 1,
        }
    }

    // So many bytes more, which end a line of the mended text.
    fn laid(self, bytes: usize) -> Mender
        requires { (self.out + bytes < 2 ^ 64) × (self.out_line + 1 < 2 ^ 64) }
        ensures { result ≡ laid_by self bytes }
    {
        Mender {
            at: self.at,
            line: self.line,
            out: self.out + bytes,
            out_line: self.out_line + 1,
            repairs: self.repairs,
        }
    }

    // The next line of the file as it came.
    fn passed(self, next: usize) -> Mender
        requires { self.line + 1 < 2 ^ 64 }
        ensures { result ≡ passed_by self next }
    {
        Mender {
            at: next,
            line: self.line + 1,
            out: self.out,
            out_line: self.out_line,
            repairs: self.repairs,
        }
    }
}

// A byte, where the room has its place.
fn store_byte(room: &mut [u8], i: usize, b: u8)
    ensures { room.new ≡ set room.old i b }
{
    if i < room.len() {
        room[i] = b;
    }
}

// A number, where the list has its place.
fn store_number(list: &mut [u64], i: usize, n: u64)
    ensures { list.new ≡ set list.old i n }
{
    if i < list.len() {
        list[i] = n;
    }
}

// Bytes from a place on.
#[tactic(auto, using(crate::specs::Out::lay_laws))]
fn lay(room: &mut [u8], at: usize, bytes: &[u8])
    requires { at + length bytes.now < 2 ^ 64 }
    ensures { room.new ≡ sets room.old at bytes.now }
{
    for (k, b) in bytes.iter().enumerate() {
        store_byte(room, at + k, *b);
    }
}

// A repair at the line where the walk stands.
fn note(m: Mender, what: u64, list: &mut [u64]) -> Mender
    requires { CanNote m }
    ensures value { result ≡ noted_by m }
    ensures list_after { list.new ≡ sets list.old (2 * m.repairs) (m.line ∷ (what ∷ [])) }
{
    let k = 2 * m.repairs;
    store_number(list, k, m.line as u64);
    store_number(list, k + 1, what);
    m.more()
}

// The line is dropped.
pub fn drop_line(m: Mender, next: usize, list: &mut [u64]) -> Mender
    requires can_note { CanNote m }
    requires line_bound { m.line + 1 < 2 ^ 64 }
    ensures value { result ≡ dropped_by m next }
    ensures list_after { list.new ≡ sets list.old (2 * m.repairs) (m.line ∷ (2 ∷ [])) }
{
    let n = note(m, DROPPED, list);
    n.passed(next)
}

// An empty line comes out before the line.
pub fn put_line(m: Mender, room: &mut [u8], list: &mut [u64]) -> Mender
    requires { CanPut m }
    ensures value { result ≡ put_by m }
    ensures room_after { room.new ≡ set room.old m.out LF }
    ensures list_after { list.new ≡ sets list.old (2 * m.repairs) (m.line ∷ (1 ∷ [])) }
{
    store_byte(room, m.out, b'\n');
    let n = note(m, PUT, list);
    n.laid(1)
}

// The line end that is missing, after so many bytes of the line.
fn end_line(m: Mender, bytes: usize, next: usize, room: &mut [u8], list: &mut [u64]) -> Mender
    requires { CanKeep m bytes 1 }
    ensures value { result ≡ ended_by m bytes next }
    ensures room_after { room.new ≡ set room.old (m.out + bytes) LF }
    ensures list_after { list.new ≡ sets list.old (2 * m.repairs) (m.line ∷ (3 ∷ [])) }
{
    store_byte(room, m.out + bytes, b'\n');
    let n = note(m, ENDED, list);
    let l = n.laid(bytes + 1);
    l.passed(next)
}

// The line comes out as it came, and with its line end.
pub fn keep_line(m: Mender, s: &[u8], p: Piece, room: &mut [u8], list: &mut [u64]) -> Mender
    requires at_le_next { (m.at ≤ p.next) × (p.next ≤ length s.now) }
    requires can_keep { CanKeep m (p.next - m.at) (late p.missing) }
    ensures { Kept s.now m p room.old list.old result room.new list.new }
{
    let at = m.at;
    let next = p.next;
    lay(room, m.out, &s[at..next]);
    if p.missing {
        return end_line(m, next - at, next, room, list);
    }
    let l = m.laid(next - at);
    l.passed(next)
}
