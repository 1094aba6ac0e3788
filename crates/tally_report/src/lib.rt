// The report's text, put into lent room line by line.
#![tactic(auto)]

ghost use Rattle.std.specs.Prelude.{◌≡◌, ◌++◌, ◌+◌, ◌*◌, ◌≤◌, length};
ghost use Rattle.text.specs.Text.{bytes};
ghost use Rattle.writer_lines.specs.Laid.{Laid};
ghost use Rattle.tally_rules.specs.Report.{report_line, supplier_lines};
ghost use Rattle.tally_flat.specs.Flat.{memory, Sized, Looked, tallies_from};
ghost use Rattle.tally_report.specs.Reported.{total_lines, Lines, ReportReady, Reported};

use tally_flat::NAMES;
use tally_rules::{SUPPLIER, SUPPLIERS, Totals};

// The longest report: 64 lines of 32 bytes, and those of the missing records and the total.
pub const REPORT: usize = 2076;

// The count right-aligned in six columns, a space, the name.
fn put_line(room: &mut [u8], at: usize, count: u32, name: &[u8]) -> usize
    requires { at + (8 + length name.now) ≤ length room.old }
    ensures { Laid room.old room.new at (report_line count name.now) result }
{
    field_numbers_put::put_number(room, at, 6, count);
    let a = writer_lines::put_bytes(room, at + 6, b" ");
    let e = writer_lines::put_bytes(room, a, name);
    writer_lines::put_bytes(room, e, b"\n")
}

// A line for each tally in use.
fn put_suppliers(
    room: &mut [u8],
    names: &[u8],
    lengths: &[u32],
    counts: &[u32],
    used: usize,
) -> usize
    requires { Lines (memory names.now lengths.now counts.now) used (length room.old) }
    ensures { Laid room.old room.new 0 (supplier_lines (tallies_from (memory names.now lengths.now counts.now) 0 used)) result }
{
    let mut e: usize = 0;
    for i in 0..used {
        let from = SUPPLIER * i;
        let to = from + lengths[i] as usize;
        e = put_line(room, e, counts[i], &names[from..to]);
    }
    e
}

// The last two lines.
fn put_totals(room: &mut [u8], at: usize, missing: u32, total: u32) -> usize
    requires { at + 28 ≤ length room.old }
    ensures { Laid room.old room.new at (total_lines missing total) result }
{
    let e = put_line(room, at, missing, b"missing");
    put_line(room, e, total, b"total")
}

// The report of a good list.
fn put_good(room: &mut [u8], names: &[u8], lengths: &[u32], counts: &[u32], totals: Totals) -> usize
    requires { ReportReady (memory names.now lengths.now counts.now) totals (length room.old) }
    ensures { Reported (memory names.now lengths.now counts.now) totals room.old result room.new }
{
    let e = put_suppliers(room, names, lengths, counts, totals.entries as usize);
    put_totals(room, e, totals.missing, totals.total)
}

// The report of a list of 64 tallies, at the front of the room, and how many bytes it has: 0, and nothing is put, for a list that is not good or other sizes.
pub fn put_report(
    room: &mut [u8],
    names: &[u8],
    lengths: &[u32],
    counts: &[u32],
    totals: Totals,
) -> usize
    ensures { Reported (memory names.now lengths.now counts.now) totals room.old result room.new }
{
    if room.len() < REPORT {
        return 0;
    }
    if names.len() != NAMES {
        return 0;
    }
    if lengths.len() != SUPPLIERS {
        return 0;
    }
    if counts.len() != SUPPLIERS {
        return 0;
    }
    if tally_good::good_list(names, lengths, counts, totals) {
        return put_good(room, names, lengths, counts, totals);
    }
    0
}
