// The canonical text of a record, written into lent room.
#![tactic(auto)]

ghost use Rattle.std.specs.Prelude.{◌≡◌, ◌+◌, ◌*◌, ◌≤◌, length};
ghost use Rattle.rules.specs.Record.{limit};
ghost use Rattle.writer_lines.specs.Laid.{Laid};
ghost use Rattle.writer_molecule.specs.Body.{body_size};
ghost use Rattle.judge_parts.specs.Written.{written_headers, written_items};
ghost use Rattle.writer_record.specs.Write.{write_of};
ghost use Rattle.writer_record.specs.Measure.{sized, after_items, after_headers, parts_size, GoodParts, record_text, Ready, close_line};
ghost use Rattle.writer_record.specs.Promise.{Promise};

use judge_file::TextRefusal;
use rules::{ATOMS, BONDS};

// Whether room of so many bytes holds header lines, molecule, items and the line that ends the record. Sums of lengths can wrap, so it is asked by subtractions.
fn measured(
    room: usize,
    headers: usize,
    molecule: usize,
    items: usize,
) -> Result<usize, TextRefusal>
    ensures { result ≡ sized (headers + molecule + items + 5) room }
{
    if room < headers {
        return Err(TextRefusal {
            no: 20,
            line: 0,
            column: 0,
        });
    }
    if room - headers < molecule {
        return Err(TextRefusal {
            no: 20,
            line: 0,
            column: 0,
        });
    }
    if room - headers - molecule < items {
        return Err(TextRefusal {
            no: 20,
            line: 0,
            column: 0,
        });
    }
    if room - headers - molecule - items < 5 {
        return Err(TextRefusal {
            no: 20,
            line: 0,
            column: 0,
        });
    }
    Ok(headers + molecule + items + 5)
}

// Items, then the room, once the header lines are good and so long.
fn judge_tail(
    atoms: &[i32],
    n: u32,
    m: u32,
    items: &[u8],
    headers: usize,
    room: usize,
) -> Result<usize, TextRefusal>
    requires { (16 * n ≤ length atoms.now) × ((n ≤ limit) × (m ≤ limit)) }
    ensures { result ≡ after_items headers (body_size n m atoms.now) room (written_items items.now) }
{
    let size = writer_parts::judge_items(items)?;
    measured(
        room,
        headers,
        writer_molecule::molecule_size(atoms, n, m),
        size,
    )
}

// Header lines, items, then the room, of tables that can be written.
fn judge_parts(
    atoms: &[i32],
    n: u32,
    m: u32,
    headers: &[u8],
    items: &[u8],
    room: usize,
) -> Result<usize, TextRefusal>
    requires { (16 * n ≤ length atoms.now) × ((n ≤ limit) × (m ≤ limit)) }
    ensures { result ≡ after_headers (body_size n m atoms.now) room (written_items items.now) (written_headers headers.now) }
{
    let size = writer_parts::judge_headers(headers)?;
    judge_tail(atoms, n, m, items, size, room)
}

// Only the room, of a record that was read: its header lines and items were judged then.
pub fn measure_parts(
    atoms: &[i32],
    n: u32,
    m: u32,
    headers: &[u8],
    items: &[u8],
    room: usize,
) -> Result<usize, TextRefusal>
    requires n_in_bounds { (16 * n ≤ length atoms.now) × ((n ≤ limit) × (m ≤ limit)) }
    requires good_parts { GoodParts headers.now items.now }
    ensures { result ≡ sized (parts_size n m atoms.now headers.now items.now) room }
{
    measured(
        room,
        writer_parts::size_headers(headers),
        writer_molecule::molecule_size(atoms, n, m),
        writer_parts::size_items(items),
    )
}

// All tests, in their order: tables, header lines, items, room.
fn judge_record(
    atoms: &[i32],
    bonds: &[i32],
    n: u32,
    m: u32,
    chiral: u32,
    headers: &[u8],
    items: &[u8],
    room: usize,
) -> Result<usize, TextRefusal>
    ensures { result ≡ write_of (record { atoms = atoms.entry.now; bonds = bonds.now; n = n; m = m; chiral = chiral; headers = headers.now; items = items.now }) room }
{
    if atoms.len() < ATOMS {
        return Err(TextRefusal {
            no: 2,
            line: 0,
            column: 0,
        });
    }
    if bonds.len() < BONDS {
        return Err(TextRefusal {
            no: 2,
            line: 0,
            column: 0,
        });
    }
    if writer_tables::writable(atoms, bonds, n, m, chiral) {
        return judge_parts(atoms, n, m, headers, items, room);
    }
    Err(TextRefusal {
        no: 21,
        line: 0,
        column: 0,
    })
}

// The line that ends the record.
fn put_close(room: &mut [u8], at: usize) -> usize
    requires { at + 5 ≤ length room.old }
    ensures { Laid room.old room.new at close_line result }
{
    room[at] = b'$';
    room[at + 1] = b'$';
    room[at + 2] = b'$';
    room[at + 3] = b'$';
    room[at + 4] = b'\n';
    at + 5
}

// The parts in their order, once all tests hold: a record that was read and measured is laid so.
pub fn lay_record(
    atoms: &[i32],
    bonds: &[i32],
    n: u32,
    m: u32,
    chiral: u32,
    headers: &[u8],
    items: &[u8],
    room: &mut [u8],
) -> usize
    requires { Ready (record { atoms = atoms.now; bonds = bonds.now; n = n; m = m; chiral = chiral; headers = headers.now; items = items.now }) (length room.old) }
    ensures { Laid room.old room.new 0 (record_text (record { atoms = atoms.entry.now; bonds = bonds.now; n = n; m = m; chiral = chiral; headers = headers.now; items = items.now })) result }
{
    let a = writer_parts_put::put_headers(headers, room, 0);
    let b = writer_molecule::put_molecule(room, a, atoms, bonds, n, m, chiral);
    let c = writer_parts_put::put_items(items, room, b);
    put_close(room, c)
}

// The record at the front of the room; after a refusal nothing is written.
pub fn write_record(
    atoms: &[i32],
    bonds: &[i32],
    n: u32,
    m: u32,
    chiral: u32,
    headers: &[u8],
    items: &[u8],
    room: &mut [u8],
) -> Result<usize, TextRefusal>
    ensures { Promise (record { atoms = atoms.entry.now; bonds = bonds.now; n = n; m = m; chiral = chiral; headers = headers.now; items = items.now }) room.old result room.new }
{
    // By its arms, since a wrong program changes the second alone.
    match judge_record(atoms, bonds, n, m, chiral, headers, items, room.len()) {
        Ok(_) => Ok(lay_record(atoms, bonds, n, m, chiral, headers, items, room)),
        Err(r) => Err(r),
    }
}
