// A record read into lent tables and written in its canonical form. What was read can be written, so it is laid, and not judged again.
#![tactic(auto)]

ghost use Rattle.std.specs.Prelude.{◌≡◌};
ghost use Rattle.reader_walk.specs.Stands.{kind_of};
ghost use Rattle.writer_copy.specs.Most.{surely};
ghost use Rattle.writer_copy.specs.Copying.{Sound, PutRead, Readable, PutGot, RowsCopied};
ghost use Rattle.writer_answer.specs.CopyPromise.{Promise};

use judge_file::TextRefusal;
use reader_record::RecordRead;
use rules::LIMIT;
pub use writer_answer::Copied;

// The most bytes that the entries of one kind take: eight to a line.
const ENTRIES: usize = 10 * ((LIMIT + 7) / 8) + 8 * LIMIT;

// The counts line, as many atoms and bonds as a record has, the longest property lines, `M  END`, and the line that ends the record.
const MOST: usize = 40 + 70 * LIMIT + 22 * LIMIT + 3 * ENTRIES + 12;

// Whether room surely suffices for good header lines and items of so many bytes: items are written in at most twice their bytes.
fn suffices(headers: usize, items: usize, room: usize) -> bool
    ensures { result ≡ surely headers items room }
{
    if room < MOST {
        return false;
    }
    if room - MOST < headers {
        return false;
    }
    if room - MOST - headers < items {
        return false;
    }
    if room - MOST - headers - items < items {
        return false;
    }
    true
}

// A record of so many bytes and lines that was read, at the front of the room if its text, measured, fits.
fn put_measured(
    taken: usize,
    lines: usize,
    atoms: &[i32],
    bonds: &[i32],
    n: u32,
    m: u32,
    chiral: u32,
    headers: &[u8],
    items: &[u8],
    room: &mut [u8],
) -> Copied
    requires { Sound (record { atoms = atoms.now; bonds = bonds.now; n = n; m = m; chiral = chiral; headers = headers.now; items = items.now }) }
    ensures { PutRead (record { atoms = atoms.entry.now; bonds = bonds.now; n = n; m = m; chiral = chiral; headers = headers.now; items = items.now }) taken lines room.old result room.new }
{
    match writer_record::measure_parts(atoms, n, m, headers, items, room.len()) {
        Ok(_) => Copied::Done {
            taken,
            lines,
            length: writer_record::lay_record(atoms, bonds, n, m, chiral, headers, items, room),
        },
        Err(TextRefusal { no, line, column }) => Copied::Refused { no, line, column },
    }
}

// The same, measured only where the room might not suffice.
fn put_read(
    taken: usize,
    lines: usize,
    atoms: &[i32],
    bonds: &[i32],
    n: u32,
    m: u32,
    chiral: u32,
    headers: &[u8],
    items: &[u8],
    room: &mut [u8],
) -> Copied
    requires { Sound (record { atoms = atoms.now; bonds = bonds.now; n = n; m = m; chiral = chiral; headers = headers.now; items = items.now }) }
    ensures { PutRead (record { atoms = atoms.entry.now; bonds = bonds.now; n = n; m = m; chiral = chiral; headers = headers.now; items = items.now }) taken lines room.old result room.new }
{
    if suffices(headers.len(), items.len(), room.len()) {
        return Copied::Done {
            taken,
            lines,
            length: writer_record::lay_record(atoms, bonds, n, m, chiral, headers, items, room),
        };
    }
    put_measured(
        taken, lines, atoms, bonds, n, m, chiral, headers, items, room,
    )
}

// What was read, in its canonical form at the front of the room; after a refusal nothing is written.
fn put_got(got: RecordRead, s: &[u8], atoms: &[i32], bonds: &[i32], room: &mut [u8]) -> Copied
    requires { Readable s.now atoms.now bonds.now got }
    ensures { PutGot s.now atoms.now bonds.now got room.old result room.new }
{
    match got {
        RecordRead::Read {
            n,
            m,
            chiral,
            length,
            lines,
            header_end,
            items_start,
            items_end,
        } => put_read(
            length,
            lines,
            atoms,
            bonds,
            n,
            m,
            chiral,
            &s[0..header_end],
            &s[items_start..items_end],
            room,
        ),
        RecordRead::Refused { no, line, column } => Copied::Refused { no, line, column },
    }
}

// The record at the front of a text, in its canonical form at the front of the room: kind 0 is a molfile, kind 1 an SDfile. The tables are left as
// `read_record` leaves them; after a refusal nothing is written.
pub fn copy_record(
    kind: u8,
    s: &[u8],
    atoms: &mut [i32],
    bonds: &mut [i32],
    room: &mut [u8],
) -> Copied
    ensures { Promise kind s.now atoms.old bonds.old room.old result atoms.new bonds.new room.new }
{
    let got = reader_record::read_plain(kind, s, atoms, bonds);
    put_got(got, s, atoms, bonds, room)
}

// The same for callers that do not look at the tables afterwards: these are left as `read_rows` leaves them.
pub fn copy_rows(
    sd: bool,
    s: &[u8],
    atoms: &mut [i32],
    bonds: &mut [i32],
    room: &mut [u8],
) -> Copied
    ensures { RowsCopied (kind_of sd) s.now atoms.old bonds.old room.old result atoms.new bonds.new room.new }
{
    let got = reader_record::read_rows(sd, s, atoms, bonds);
    put_got(got, s, atoms, bonds, room)
}
