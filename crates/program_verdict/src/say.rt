// A verdict in words for people, and in one line for programs.
use crate::Verdict;
use program_io::{Reason, System, Target, Text};

// What was judged, as people read it; nothing where the file was not judged.
fn words(begun: Text, v: Verdict) -> Text {
    match v {
        Verdict::Accepted { records } => begun.print(format_args!("accepted {records}")),
        Verdict::Refused { no, line, column } => {
            begun.print(format_args!("refused {no} line {line} column {column}"))
        }
        Verdict::TooLong { record } => begun.print(format_args!("record {record} too long")),
        _ => begun,
    }
}

// The verdict as programs read it.
fn code(v: Verdict) -> Text {
    let text = Text::new();
    match v {
        Verdict::Accepted { records } => text.print(format_args!("accepted {records}")),
        Verdict::Refused { no, line, column } => {
            text.print(format_args!("refused {no} {line} {column}"))
        }
        Verdict::TooLong { record } => text.print(format_args!("too long {record}")),
        Verdict::Unreadable(_) => text.print("unreadable"),
        Verdict::Endless => text.print("endless"),
        Verdict::Once => text.print("once"),
        Verdict::Changed => text.print("changed"),
        Verdict::Unwritten(_) => text.print("unwritten"),
        Verdict::NoRoom => text.print("no room"),
    }
}

// The verdict on the channel of its own.
fn announce(system: &System, v: Verdict) {
    let _ = code(v).byte(b'\n').write(system, Target::Channel);
}

// A line about a file on standard error.
fn complain_of(system: &System, name: &[u8], what: &[u8]) {
    let _ = system.write(Target::Errors, name);
    let _ = system.write(Target::Errors, what);
}

// The reason on standard error where a file was not judged, or not written.
fn complain(system: &System, name: &[u8], v: Verdict) {
    match v {
        Verdict::Unreadable(why) => system.fail(name, why),
        Verdict::Endless => complain_of(system, name, b": has no end that can be counted to\n"),
        Verdict::Once => complain_of(
            system,
            name,
            b": cannot be read twice, so nothing of it is written\n",
        ),
        Verdict::Changed => complain_of(
            system,
            name,
            b": changed while it was read, so what is written is not whole\n",
        ),
        Verdict::Unwritten(why) => {
            system.note(why);
            system.fail(b"standard output", why);
        }
        Verdict::NoRoom => complain_of(
            system,
            name,
            b": a record's canonical text does not fit the room for it\n",
        ),
        _ => {}
    }
}

// Whether a file was read to a verdict on its bytes.
pub fn is_judged(v: Verdict) -> bool {
    matches!(
        v,
        Verdict::Accepted { .. } | Verdict::Refused { .. } | Verdict::TooLong { .. }
    )
}

// The line on standard output, behind the file's name where it is to stand there.
fn line(system: &System, name: &[u8], named: bool, v: Verdict) -> Result<(), Reason> {
    if named {
        system.write(Target::Output, name)?;
        let text = words(Text::new().word(b": "), v);
        return text.byte(b'\n').write(system, Target::Output);
    }
    words(Text::new(), v)
        .byte(b'\n')
        .write(system, Target::Output)
}

// The reason of a failure on standard error, and the verdict on the channel: nothing on standard output.
pub fn tell(system: &System, name: &[u8], v: Verdict) {
    complain(system, name, v);
    announce(system, v);
}

// What was judged goes to standard output, what failed to standard error, and either to the channel.
pub fn report(system: &System, name: &[u8], named: bool, v: Verdict) {
    if is_judged(v) {
        match line(system, name, named, v) {
            Ok(()) => announce(system, v),
            Err(why) => tell(system, name, Verdict::Unwritten(why)),
        }
    } else {
        tell(system, name, v);
    }
}
