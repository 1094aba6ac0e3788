// What is said of each repair, on standard error.
use crate::cut::LIST;
use program_io::{System, Target, Text};

// Line ends among some bytes.
pub fn ends_in(s: &[u8]) -> u64 {
    memchr::memchr_iter(b'\n', s).count() as u64
}

// Lines of some bytes; what is unfinished is one, too.
pub fn lines_in(s: &[u8]) -> u64 {
    let is_unfinished = s.last().is_some_and(|b| *b != b'\n');
    ends_in(s).saturating_add(u64::from(is_unfinished))
}

// What was done at a line.
#[derive(Clone, Copy)]
pub enum Repair {
    Put,
    Dropped,
    Ended,
}

impl From<u64> for Repair {
    // By its number in the list.
    fn from(what: u64) -> Repair {
        match what {
            1 => Repair::Put,
            2 => Repair::Dropped,
            _ => Repair::Ended,
        }
    }
}

fn words(what: Repair) -> Text {
    let text = Text::new();
    match what {
        Repair::Put => text.word(b": an empty line put before this line\n"),
        Repair::Dropped => text.word(b": blank line dropped\n"),
        Repair::Ended => text.word(b": line end added\n"),
    }
}

// One repair at a line of the file.
pub fn say(system: &System, name: &[u8], line: u64, what: Repair) {
    let _ = system.write(Target::Errors, name);
    let _ = Text::new()
        .byte(b':')
        .number(line)
        .write(system, Target::Errors);
    let _ = words(what).write(system, Target::Errors);
}

// The repairs of a record, before which so many lines stand.
pub fn say_all(system: &System, name: &[u8], before: u64, list: &[u64; LIST], repairs: usize) {
    let (pairs, _) = list.as_chunks::<2>();
    for [line, what] in pairs.iter().take(repairs) {
        say(
            system,
            name,
            before.saturating_add(*line),
            Repair::from(*what),
        );
    }
}
