// A file mended, for C.
ghost use Rattle.std.specs.Prelude.{◌≡◌};
ghost use Rattle.mend_file.specs.Promise.{Promise, numbers_of};
ghost use Rattle.capellanote.specs.Mend.{mend_numbers, mend_told};

use mend_file::Mended;

fn of_mended(r: Mended) -> [u64; 3]
    ensures { result ≡ mend_numbers r }
{
    match r {
        Mended::Done { length, repairs } => [0, length as u64, repairs as u64],
        Mended::Refused { no, line, column } => [no as u64, line as u64, column as u64],
    }
}

// A whole SDfile, mended into the room, with its list of repairs.
#[unsafe(no_mangle)]
pub extern "C" fn capellanote_mend(
    s: &[u8],
    room: &mut [u8],
    list: &mut [u64],
    answer: &mut [u64; 3],
)
    ensures answer_after { answer.new ≡ mend_numbers (mend_told answer.new) }
    ensures promise { Promise s.now room.old list.old (numbers_of (mend_told answer.new)) room.new list.new }
{
    *answer = of_mended(mend_file::mend_file(s, room, list));
}
