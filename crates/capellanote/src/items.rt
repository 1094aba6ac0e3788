// The items of a record, stepped over for C.
ghost use Rattle.std.specs.Prelude.{◌≡◌};
ghost use Rattle.reader_items.specs.Step.{step_of};
ghost use Rattle.reader_items.specs.Promise.{Stepped};
ghost use Rattle.capellanote.specs.Items.{step_numbers, step_told};

use reader_items::ItemAt;

// The second number tells an item from the end of the record.
fn of_step(x: ItemAt) -> [u64; 8]
    ensures { result ≡ step_numbers x }
{
    match x {
        ItemAt::Item {
            name_from,
            name_to,
            from,
            to,
            next,
            lines,
        } => [
            0,
            1,
            name_from as u64,
            name_to as u64,
            from as u64,
            to as u64,
            next as u64,
            lines as u64,
        ],
        ItemAt::End { next } => [0, 0, 0, 0, 0, 0, next as u64, 1],
        ItemAt::Refused { no, line, column } => [
            no as u64,
            line as u64,
            column as u64,
            0,
            0,
            0,
            0,
            0,
        ],
    }
}

// The item whose data header starts at a position of a text, or the end of the record there.
#[unsafe(no_mangle)]
pub extern "C" fn capellanote_item(s: &[u8], at: usize, answer: &mut [u64; 8])
    ensures answer_after { answer.new ≡ step_numbers (step_of s.now at) }
    ensures stepped { Stepped s.now at (step_told answer.new) }
{
    *answer = of_step(reader_items::item_at(s, at));
}
