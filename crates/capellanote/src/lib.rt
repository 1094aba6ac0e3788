// The library for C: answers are arrays of numbers, the first 0 or that of the refusal (include/capellanote.h).
// What an array holds is said by a definition over the judge's answer, and what it tells by the promise in the words of the rules.
#![tactic(auto)]

mod compare;
mod formula;
mod items;
mod mend;
mod pieces;
mod replay;
mod tally;

ghost use Rattle.std.specs.Prelude.{◌≡◌, length};
ghost use Rattle.reader_walk.specs.Checking.{check_of};
ghost use Rattle.reader_walk.specs.Promise.{CheckedAs};
ghost use Rattle.reader_answer.specs.Rowed.{rowed_of, RowedPromise};
ghost use Rattle.reader_item.specs.Find.{found_of};
ghost use Rattle.reader_item.specs.Promise.{Fetched};
ghost use Rattle.reader_file.specs.Next.{next_of, atoms_next, bonds_next};
ghost use Rattle.reader_file.specs.Promise.{NextPromise};
ghost use Rattle.reader_feed.specs.Fed.{fed_of};
ghost use Rattle.writer_record.specs.Write.{write_of, room_after};
ghost use Rattle.writer_record.specs.Promise.{Promise as WritePromise};
ghost use Rattle.writer_answer.specs.Copy.{copy_of};
ghost use Rattle.writer_answer.specs.CopyPromise.{Promise as CopyPromise};
ghost use Rattle.writer_answer.specs.Catalogue.{catalogue_of};
ghost use Rattle.writer_answer.specs.CataloguePromise.{Promise as CataloguePromise};
ghost use Rattle.capellanote_numbers.specs.Numbers.{check_numbers, read_numbers, found_numbers, next_numbers, truth, fed_numbers, written_numbers, copied_numbers, catalogue_numbers};
ghost use Rattle.capellanote.specs.Check.{check_told};
ghost use Rattle.capellanote.specs.Read.{rowed_told};
ghost use Rattle.capellanote.specs.Find.{found_told};
ghost use Rattle.capellanote.specs.Next.{next_told};
ghost use Rattle.capellanote.specs.Feed.{FeedPromise};
ghost use Rattle.capellanote.specs.Write.{written_told};
ghost use Rattle.capellanote.specs.Copy.{copied_told};
ghost use Rattle.capellanote.specs.Catalogue.{catalogue_told};

use reader_cursor::Cursor;
use reader_feed::Counter;

// A whole file: kind 0 is a molfile, kind 1 an SDfile.
#[unsafe(no_mangle)]
pub extern "C" fn capellanote_check(kind: u8, s: &[u8], answer: &mut [u64; 3])
    ensures answer_after { answer.new ≡ check_numbers (check_of kind s.now) }
    ensures checked_as { CheckedAs kind s.now (check_told answer.new) }
{
    *answer = capellanote_numbers::of_check(reader_check::check(kind, s));
}

// One record from the front of a text, into the tables, its pairs into the rows.
#[unsafe(no_mangle)]
pub extern "C" fn capellanote_read(
    kind: u8,
    s: &[u8],
    atoms: &mut [i32],
    bonds: &mut [i32],
    rows: &mut [u64],
    answer: &mut [u64; 10],
)
    ensures answer_after { answer.new ≡ read_numbers (rowed_of kind s.now atoms.old bonds.old rows.old).read (rowed_of kind s.now atoms.old bonds.old rows.old).asked }
    ensures rows_after { rowed_told answer.new atoms.new bonds.new rows.new ≡ rowed_of kind s.now atoms.old bonds.old rows.old }
    ensures rowed_promise { RowedPromise kind s.now atoms.old bonds.old rows.old (rowed_told answer.new atoms.new bonds.new rows.new) }
{
    *answer = capellanote_numbers::of_reading(reader_record::read_record(
        kind, s, atoms, bonds, rows,
    ));
}

// The record of a file that a cursor stands before, into the tables.
#[unsafe(no_mangle)]
pub extern "C" fn capellanote_next(
    s: &[u8],
    at: usize,
    lines: usize,
    records: usize,
    atoms: &mut [i32],
    bonds: &mut [i32],
    answer: &mut [u64; 13],
)
    ensures answer_after { answer.new ≡ next_numbers (record { at = at; lines = lines; records = records }) (next_of (record { at = at; lines = lines; records = records }) (length atoms.old) (length bonds.old) s.now) }
    ensures atoms_after { atoms.new ≡ atoms_next (record { at = at; lines = lines; records = records }) (length bonds.old) s.now atoms.old }
    ensures bonds_after { bonds.new ≡ bonds_next (record { at = at; lines = lines; records = records }) (length atoms.old) s.now bonds.old }
    ensures next_promise { NextPromise (record { at = at; lines = lines; records = records }) s.now atoms.old bonds.old (next_told answer.new) atoms.new bonds.new }
{
    let cursor = Cursor { at, lines, records };
    *answer = capellanote_numbers::of_next(
        reader_file::next_record(cursor, s, atoms, bonds),
        cursor,
    );
}

// The values of a record's first item of a name.
#[unsafe(no_mangle)]
pub extern "C" fn capellanote_find(s: &[u8], name: &[u8], answer: &mut [u64; 3])
    ensures answer_after { answer.new ≡ found_numbers (found_of s.now name.now) }
    ensures fetched { Fetched s.now name.now (found_told answer.new) }
{
    *answer = capellanote_numbers::of_found(reader_item::find_item(s, name));
}

// The records of an SDfile that comes in parts, counted; any byte but 0 says that nothing follows the part.
#[unsafe(no_mangle)]
pub extern "C" fn capellanote_feed(
    records: usize,
    lines: usize,
    part: &[u8],
    ended: u8,
    room: usize,
    answer: &mut [u64; 5],
)
    ensures answer_after { answer.new ≡ fed_numbers (fed_of (record { records = records; lines = lines }) part.now (truth ended) room) }
    ensures feed_promise { FeedPromise (record { records = records; lines = lines }) part.now (truth ended) room answer.new }
{
    let counter = Counter { records, lines };
    *answer = capellanote_numbers::of_fed(counter.take(
        part,
        capellanote_numbers::truth_of(ended),
        room,
    ));
}

// The canonical text of a record, at the front of the room.
#[unsafe(no_mangle)]
pub extern "C" fn capellanote_write_record(
    atoms: &[i32],
    bonds: &[i32],
    n: u32,
    m: u32,
    chiral: u32,
    headers: &[u8],
    items: &[u8],
    room: &mut [u8],
    answer: &mut [u64; 3],
)
    ensures answer_after { answer.new ≡ written_numbers (write_of (record { atoms = atoms.entry.now; bonds = bonds.now; n = n; m = m; chiral = chiral; headers = headers.now; items = items.now }) (length room.old)) }
    ensures write_promise { WritePromise (record { atoms = atoms.entry.now; bonds = bonds.now; n = n; m = m; chiral = chiral; headers = headers.now; items = items.now }) room.old (written_told answer.new) room.new }
{
    *answer = capellanote_numbers::of_written(writer_record::write_record(
        atoms, bonds, n, m, chiral, headers, items, room,
    ));
}

// The record at the front of a text, in its canonical form at the front of the room.
#[unsafe(no_mangle)]
pub extern "C" fn capellanote_copy(
    kind: u8,
    s: &[u8],
    atoms: &mut [i32],
    bonds: &mut [i32],
    room: &mut [u8],
    answer: &mut [u64; 4],
)
    ensures answer_after { answer.new ≡ copied_numbers (copy_of kind (length atoms.old) (length bonds.old) s.now (length room.old)) }
    ensures copy_promise { CopyPromise kind s.now atoms.old bonds.old room.old (copied_told answer.new) atoms.new bonds.new room.new }
{
    *answer = capellanote_numbers::of_copied(writer_copy::copy_record(kind, s, atoms, bonds, room));
}

// The canonical text of a whole SDfile, at the front of the room.
#[unsafe(no_mangle)]
pub extern "C" fn capellanote_write_catalogue(
    s: &[u8],
    atoms: &mut [i32],
    bonds: &mut [i32],
    room: &mut [u8],
    answer: &mut [u64; 3],
)
    ensures answer_after { answer.new ≡ catalogue_numbers (catalogue_of atoms.old bonds.old s.now (length room.old)) }
    ensures catalogue_promise { CataloguePromise s.now atoms.old bonds.old room.old (catalogue_told answer.new) atoms.new bonds.new room.new }
{
    *answer = capellanote_numbers::of_catalogue(writer_catalogue::write_catalogue(
        s, atoms, bonds, room,
    ));
}
