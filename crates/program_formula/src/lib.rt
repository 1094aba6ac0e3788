// A record's formula against its atoms, as a line of JSON.
#![tactic(auto)]

use field_symbols::SYMBOLS;
use formula_drawn::FOUND;
use program_io::{Out, Text};

// The symbol of this number behind a text; nothing where no symbol has it.
pub fn symbol(text: Text, k: u64) -> Text {
    let mut letters = [b' '; 3];
    if k == 0 || k > SYMBOLS as u64 {
        return text;
    }
    field_symbols_put::put_symbol(&mut letters, 0, k as u32);
    let one = text.byte(letters[0]);
    if letters[1] == b' ' {
        return one;
    }
    one.byte(letters[1])
}

// An element that differs: its number, its symbol, how many are written, how many are drawn; a comma before it but for the first.
fn difference(first: bool, element: u32, written: u32, drawn: u32) -> Text {
    let comma = if first { "" } else { "," };
    let begun = Text::new().print(format_args!("{comma}[{element},\""));
    let named = symbol(begun, u64::from(element));
    named.print(format_args!("\",{written},{drawn}]"))
}

// The differences of a record, so many.
pub fn put_differences(
    out: Out,
    room: &mut [u8],
    record: usize,
    count: usize,
    found: &[u32; FOUND],
) -> Out {
    let begun = Text::new().print(format_args!("{{\"record\":{record},\"differs\":["));
    let mut o = out.text(room, begun);
    let (differences, _) = found.as_chunks::<3>();
    for (k, [element, written, drawn]) in differences.iter().take(count).enumerate() {
        o = o.text(room, difference(k == 0, *element, *written, *drawn));
    }
    o.bytes(room, b"]}\n")
}

// A record that is not compared.
pub fn put_refused(out: Out, room: &mut [u8], record: usize, no: u8) -> Out {
    let line = Text::new().print(format_args!("{{\"record\":{record},\"refused\":{no}}}\n"));
    out.text(room, line)
}
