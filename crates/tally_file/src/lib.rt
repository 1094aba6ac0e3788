// A file's records added to a list of tallies in flat memory: all of them, or a refusal and none.
#![tactic(auto)]

ghost use Rattle.std.specs.Prelude.{◌≡◌, ◌+◌, ◌≤◌, ◌++◌, length, take, drop};
ghost use Rattle.tally_rules.specs.Book.{with_name, record_on};
ghost use Rattle.tally_flat.specs.Flat.{memory, Sized};
ghost use Rattle.tally_good.specs.Judge.{book_of};
ghost use Rattle.tally_file.specs.Count.{CountReady, ListReady, FileReady, PastReady, supplier_at, step_of, Stepped, past_record, told_of, said_of, answer_of, Left, LeftList, is_done};
ghost use Rattle.tally_file.specs.Promise.{Roomy, TallyPromise};

use judge_file::TextRefusal;
use reader_cursor::Cursor;
use reader_first_line::FirstLine;
use reader_walk::Walked;
use rules::{ATOMS, BONDS, LISTED};
use tally_flat::{Added, NAMES};
use tally_rules::{RECORDS, SUPPLIER, SUPPLIERS, Totals};

// One record: the totals with it, or its refusal.
#[derive(Drop)]
pub enum Step {
    Counted(Totals),
    Refused(u8),
}

// A file: how many records it added, and the totals then; or a refusal, with the record that met 23, 24 or 25, else 0.
#[derive(Clone, Copy)]
pub enum Tallied {
    Done {
        records: usize,
        totals: Totals,
    },
    Refused {
        no: u8,
        line: usize,
        column: usize,
        record: usize,
    },
}

// A record without a supplier.
fn missed(totals: Totals) -> Totals
    requires { (totals.missing ≤ 999999) × (totals.total ≤ 999999) }
    ensures { result ≡ record { entries = totals.entries; missing = totals.missing + 1; total = totals.total + 1 } }
{
    Totals {
        entries: totals.entries,
        missing: totals.missing + 1,
        total: totals.total + 1,
    }
}

// A record of this supplier.
fn count_name(
    name: &[u8],
    names: &mut [u8; NAMES],
    lengths: &mut [u32; SUPPLIERS],
    counts: &mut [u32; SUPPLIERS],
    totals: Totals,
) -> Step
    requires { CountReady (memory names.old lengths.old counts.old) totals }
    ensures value { result ≡ step_of (with_name name.now (book_of (memory names.old lengths.old counts.old) totals)) }
    ensures stepped { Stepped (with_name name.now (book_of (memory names.old lengths.old counts.old) totals)) (memory names.old lengths.old counts.old) (memory names.new lengths.new counts.new) }
{
    if SUPPLIER < name.len() {
        return Step::Refused(23);
    }
    match tally_flat::add_in(names, lengths, counts, totals.entries as usize, name) {
        Added::Now(used) => Step::Counted(Totals {
            entries: used as u32,
            missing: totals.missing,
            total: totals.total + 1,
        }),
        Added::Full => Step::Refused(24),
    }
}

// The record that the bytes begin with; one whose first line is not that of a record has no supplier.
pub fn count_record(
    s: &[u8],
    names: &mut [u8; NAMES],
    lengths: &mut [u32; SUPPLIERS],
    counts: &mut [u32; SUPPLIERS],
    totals: Totals,
) -> Step
    requires { ListReady (memory names.old lengths.old counts.old) totals }
    ensures value { result ≡ step_of (record_on (supplier_at s.now) (book_of (memory names.old lengths.old counts.old) totals)) }
    ensures stepped { Stepped (record_on (supplier_at s.now) (book_of (memory names.old lengths.old counts.old) totals)) (memory names.old lengths.old counts.old) (memory names.new lengths.new counts.new) }
{
    if RECORDS <= totals.total {
        return Step::Refused(25);
    }
    match reader_first_line::first_line(s, b"SUPPLIER") {
        FirstLine::Line { from, to } => count_name(&s[from..to], names, lengths, counts, totals),
        FirstLine::Empty => Step::Counted(missed(totals)),
        FirstLine::Refused {
            no: _,
            line: _,
            column: _,
        } => Step::Counted(missed(totals)),
    }
}

// The cursor after the record that the bytes begin with.
fn after_record(s: &[u8], cursor: Cursor) -> Cursor
    requires { PastReady cursor s.now }
    ensures { result ≡ past_record cursor s.now }
{
    let mut atoms = [0i32; ATOMS];
    let mut bonds = [0i32; BONDS];
    let mut listed = [0u32; LISTED];
    match reader_walk::walk_record(true, s, &mut atoms, &mut bonds, &mut listed) {
        Walked::Whole {
            counts: _,
            length,
            lines,
            header_end: _,
            items_start: _,
            items_end: _,
        } => cursor.past(length, lines),
        Walked::Refused {
            no: _,
            line: _,
            column: _,
        } => cursor,
    }
}

// The records of a good file, one after the other, up to the first that is refused.
fn count_records(
    s: &[u8],
    names: &mut [u8; NAMES],
    lengths: &mut [u32; SUPPLIERS],
    counts: &mut [u32; SUPPLIERS],
    totals: Totals,
) -> Tallied
    requires { FileReady s.now (memory names.old lengths.old counts.old) totals }
    ensures value { result ≡ told_of (said_of s.now (book_of (memory names.old lengths.old counts.old) totals)) }
    ensures left { Left (said_of s.now (book_of (memory names.old lengths.old counts.old) totals)) (memory names.old lengths.old counts.old) (memory names.new lengths.new counts.new) }
{
    let mut sums = totals;
    let mut cursor = Cursor::new();
    // The cursor jumps by records of any length: a `for` would need an iterator over them, with a proof of its own.
    while cursor.at < s.len() {
        let at = cursor.at;
        match count_record(&s[at..], names, lengths, counts, sums) {
            Step::Counted(t) => {
                sums = t;
                cursor = after_record(&s[at..], cursor);
            }
            Step::Refused(no) => {
                return Tallied::Refused {
                    no,
                    line: 0,
                    column: 0,
                    record: cursor.records + 1,
                };
            }
        }
    }
    Tallied::Done {
        records: cursor.records,
        totals: sums,
    }
}

// A file, with a good list.
fn tally_listed(
    s: &[u8],
    names: &mut [u8; NAMES],
    lengths: &mut [u32; SUPPLIERS],
    counts: &mut [u32; SUPPLIERS],
    totals: Totals,
) -> Tallied
    requires { ListReady (memory names.old lengths.old counts.old) totals }
    ensures value { result ≡ told_of (said_of s.now (book_of (memory names.old lengths.old counts.old) totals)) }
    ensures left { Left (said_of s.now (book_of (memory names.old lengths.old counts.old) totals)) (memory names.old lengths.old counts.old) (memory names.new lengths.new counts.new) }
{
    match reader_check::check(1, s) {
        Ok(_) => count_records(s, names, lengths, counts, totals),
        Err(TextRefusal { no, line, column }) => Tallied::Refused {
            no,
            line,
            column,
            record: 0,
        },
    }
}

// A list that cannot be added to.
fn no_list() -> Tallied
    ensures { result ≡ Tallied.Refused 2 0 0 0 }
{
    Tallied::Refused {
        no: 2,
        line: 0,
        column: 0,
        record: 0,
    }
}

// A file, with any list; what is left of the list after a refusal is not said.
fn tally_arrays(
    s: &[u8],
    names: &mut [u8; NAMES],
    lengths: &mut [u32; SUPPLIERS],
    counts: &mut [u32; SUPPLIERS],
    totals: Totals,
) -> Tallied
    requires { Sized (memory names.old lengths.old counts.old) }
    ensures value { result ≡ answer_of s.now (memory names.old lengths.old counts.old) totals }
    ensures left_list { LeftList s.now (memory names.old lengths.old counts.old) totals (memory names.new lengths.new counts.new) }
{
    if tally_good::good_list(names, lengths, counts, totals) {
        return tally_listed(s, names, lengths, counts, totals);
    }
    no_list()
}

// The first n of one over those of the other.
fn copy_first<T: Copy>(to: &mut [T], from: &[T], n: usize)
    requires { (n ≤ length to.old) × (n ≤ length from.now) }
    ensures { to.new ≡ take n from.now ++ drop n to.old }
{
    to[..n].copy_from_slice(&from[..n]);
}

// Whether nothing was refused.
pub fn is_done(r: Tallied) -> bool
    ensures { result ≡ is_done r }
{
    match r {
        Tallied::Done {
            records: _,
            totals: _,
        } => true,
        Tallied::Refused {
            no: _,
            line: _,
            column: _,
            record: _,
        } => false,
    }
}

// A file is counted into a copy of the list, which is stored if nothing is refused.
fn tally_copy(
    s: &[u8],
    names: &mut [u8],
    lengths: &mut [u32],
    counts: &mut [u32],
    totals: Totals,
) -> Tallied
    requires { Roomy (memory names.old lengths.old counts.old) }
    ensures { TallyPromise s.now (memory names.old lengths.old counts.old) totals result (memory names.new lengths.new counts.new) }
{
    let mut n = [0u8; NAMES];
    let mut l = [0u32; SUPPLIERS];
    let mut c = [0u32; SUPPLIERS];
    copy_first(&mut n, names, NAMES);
    copy_first(&mut l, lengths, SUPPLIERS);
    copy_first(&mut c, counts, SUPPLIERS);
    let r = tally_arrays(s, &mut n, &mut l, &mut c, totals);
    if is_done(r) {
        copy_first(names, &n, NAMES);
        copy_first(lengths, &l, SUPPLIERS);
        copy_first(counts, &c, SUPPLIERS);
        return r;
    }
    r
}

// A file's records added to the list: number 2 for a list without room or one that is not good, then the file's own refusal, then 25, 23 or 24 at the first record that meets one.
pub fn tally_flat(
    s: &[u8],
    names: &mut [u8],
    lengths: &mut [u32],
    counts: &mut [u32],
    totals: Totals,
) -> Tallied
    ensures { TallyPromise s.now (memory names.old lengths.old counts.old) totals result (memory names.new lengths.new counts.new) }
{
    if names.len() < NAMES {
        return no_list();
    }
    if lengths.len() < SUPPLIERS {
        return no_list();
    }
    if counts.len() < SUPPLIERS {
        return no_list();
    }
    tally_copy(s, names, lengths, counts, totals)
}
