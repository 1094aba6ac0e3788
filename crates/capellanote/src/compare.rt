// Two SDfiles compared, for C.
ghost use Rattle.std.specs.Prelude.{◌≡◌, length};
ghost use Rattle.compare_files.specs.Compare.{Work, compared_for, answer_by};
ghost use Rattle.compare_files.specs.Promise.{Promise};
ghost use Rattle.capellanote.specs.Compare.{files_numbers, files_told};

use judge_file::TextRefusal;

fn of_files(r: Result<usize, TextRefusal>) -> [u64; 3]
    ensures { result ≡ files_numbers r }
{
    match r {
        Ok(count) => [0, count as u64, 0],
        Err(TextRefusal { no, line, column }) => [no as u64, line as u64, column as u64],
    }
}

// What differs between two SDfiles, seven numbers a difference at the front of the list.
#[unsafe(no_mangle)]
pub extern "C" fn capellanote_compare(
    old: &[u8],
    new: &[u8],
    ta: &mut [i32],
    tb: &mut [i32],
    ua: &mut [i32],
    ub: &mut [i32],
    list: &mut [i64],
    answer: &mut [u64; 3],
)
    ensures answer_after { answer.new ≡ files_numbers (answer_by (compared_for (record { old_atoms = ta.old; old_bonds = tb.old; new_atoms = ua.old; new_bonds = ub.old }) old.now new.now (length list.old))) }
    ensures promise { Promise old.now new.now (record { old_atoms = ta.old; old_bonds = tb.old; new_atoms = ua.old; new_bonds = ub.old }) list.old (files_told answer.new) (record { old_atoms = ta.new; old_bonds = tb.new; new_atoms = ua.new; new_bonds = ub.new }) list.new }
{
    *answer = of_files(compare_files::compare_files(old, new, ta, tb, ua, ub, list));
}
