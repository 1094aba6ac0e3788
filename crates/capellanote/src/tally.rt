// Bottles per supplier for C.
ghost use Rattle.std.specs.Prelude.{◌≡◌};
ghost use Rattle.tally_flat.specs.Flat.{memory};
ghost use Rattle.capellanote.specs.Tally.{tallied_numbers, totals_numbers, TallyHeld};

use tally_file::Tallied;
use tally_rules::Totals;

fn of_tallied(r: Tallied) -> [u64; 4]
    ensures { result ≡ tallied_numbers r }
{
    match r {
        Tallied::Done { records, totals: _ } => [0, records as u64, 0, 0],
        Tallied::Refused {
            no,
            line,
            column,
            record,
        } => [no as u64, line as u64, column as u64, record as u64],
    }
}

// The totals of an answer that has them.
fn of_totals(r: Tallied) -> [u32; 3]
    ensures { result ≡ totals_numbers r }
{
    match r {
        Tallied::Done { records: _, totals } => [totals.entries, totals.missing, totals.total],
        Tallied::Refused {
            no: _,
            line: _,
            column: _,
            record: _,
        } => [0, 0, 0],
    }
}

// The records of an SDfile added to the list, or nothing of it.
#[unsafe(no_mangle)]
pub extern "C" fn capellanote_tally(
    s: &[u8],
    names: &mut [u8],
    lengths: &mut [u32],
    counts: &mut [u32],
    totals: &mut [u32; 3],
    answer: &mut [u64; 4],
)
    ensures { TallyHeld s.now (memory names.old lengths.old counts.old) totals.old answer.new totals.new (memory names.new lengths.new counts.new) }
{
    let handed = Totals {
        entries: totals[0],
        missing: totals[1],
        total: totals[2],
    };
    let r = tally_file::tally_flat(s, names, lengths, counts, handed);
    if tally_file::is_done(r) {
        *totals = of_totals(r);
        *answer = of_tallied(r);
        return;
    }
    *answer = of_tallied(r);
}
