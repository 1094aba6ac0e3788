// A record's formula held against its atoms, for C.
ghost use Rattle.std.specs.Prelude.{◌≡◌, length};
ghost use Rattle.reader_answer.specs.Read.{atoms_after, bonds_after};
ghost use Rattle.formula_record.specs.Said.{answer_of, found_after};
ghost use Rattle.formula_record.specs.Promise.{ComparePromise};
ghost use Rattle.capellanote.specs.Formula.{compared_numbers, compared_told};

use formula_drawn::FOUND;
use judge_file::TextRefusal;

fn of_compared(r: Result<usize, TextRefusal>) -> [u64; 3]
    ensures { result ≡ compared_numbers r }
{
    match r {
        Ok(count) => [0, count as u64, 0],
        Err(TextRefusal { no, line, column }) => [no as u64, line as u64, column as u64],
    }
}

// The formula of the record that the bytes begin with, held against its atoms.
#[unsafe(no_mangle)]
pub extern "C" fn capellanote_formula(
    s: &[u8],
    atoms: &mut [i32],
    bonds: &mut [i32],
    found: &mut [u32; FOUND],
    answer: &mut [u64; 3],
)
    ensures answer_after { answer.new ≡ compared_numbers (answer_of (length atoms.old) (length bonds.old) s.now) }
    ensures found_after { found.new ≡ found_after (length atoms.old) (length bonds.old) s.now found.old }
    ensures atoms_after { atoms.new ≡ atoms_after 1 (length bonds.old) s.now atoms.old }
    ensures bonds_after { bonds.new ≡ bonds_after 1 (length atoms.old) s.now bonds.old }
    ensures compare_promise { ComparePromise s.now atoms.old bonds.old found.old (compared_told answer.new) atoms.new bonds.new found.new }
{
    *answer = of_compared(formula_record::compare_formula(s, atoms, bonds, found));
}
