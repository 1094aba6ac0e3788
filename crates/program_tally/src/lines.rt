// The report: as text for people, or as lines of JSON.
use crate::{Book, Month};
use program_io::{System, Target, Text};
use tally_report::REPORT;
use tally_rules::{SUPPLIER, Totals};

pub fn write_report(system: &System, month: &Month) {
    let book = &month.book;
    let mut room = [0u8; REPORT];
    let n = tally_report::put_report(
        &mut room,
        &book.names,
        &book.lengths,
        &book.counts,
        book.totals,
    );
    let _ = system.write(Target::Output, program_io::front(&room, n));
}

// A byte of a string: quote and backslash have a backslash before them, and no supplier has other bytes than 32 to 126.
fn escaped(text: Text, b: u8) -> Text {
    match b {
        b'"' | b'\\' => text.byte(b'\\').byte(b),
        _ => text.byte(b),
    }
}

fn quoted(text: Text, name: &[u8]) -> Text {
    let mut t = text.byte(b'"');
    for b in name {
        t = escaped(t, *b);
    }
    t.byte(b'"')
}

fn supplier(name: &[u8], count: u32) -> Text {
    quoted(Text::new().word(b"{\"supplier\":"), name).print(format_args!(",\"count\":{count}}}\n"))
}

// The room of a name, of which so many bytes are its own.
fn write_supplier(system: &System, names: &[u8], place: usize, length: u32, count: u32) {
    let name = program_io::front(program_io::tail(names, place), length as usize);
    let _ = supplier(name, count).write(system, Target::Output);
}

fn write_suppliers(system: &System, book: &Book) {
    let entries = book.totals.entries as usize;
    let figures = book.lengths.iter().zip(&book.counts);
    for (i, (length, count)) in figures.take(entries).enumerate() {
        write_supplier(system, &book.names, SUPPLIER * i, *length, *count);
    }
}

pub fn write_json(system: &System, month: &Month) {
    write_suppliers(system, &month.book);
    let Totals {
        entries: _,
        missing,
        total,
    } = month.book.totals;
    let files = month.files;
    let refused = month.refused;
    let text = Text::new().print(format_args!(
        "{{\"missing\":{missing},\"total\":{total},\"files\":{files},\"refused\":{refused}}}\n"
    ));
    let _ = text.write(system, Target::Output);
}
