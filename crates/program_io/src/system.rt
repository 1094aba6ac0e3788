// What the programs reach of the system: arguments, files, the three standard streams, and the channel on which programs read verdicts.
ghost use Rattle.std.specs.Prelude.{◌≤◌, length};
ghost use Rattle.std.specs.Io.{ReadsAtMost, WritesAtMost};

use crate::channel;
use crate::channel::Channel;
use std::cell::Cell;
use std::env::FillError;
use std::fs::File;
use std::io::{Error, Print, Read, Seek, SeekFrom, Stdin, Stdout, Write};
use std::process::ExitCode;
use std::rt::Env;

// Numbers that the system gives to what fails.
const INTERRUPTED: i32 = 4;

const INVALID: i32 = 22;

const CLOSED: i32 = 32;

const TOO_LONG: i32 = 36;

const NO_TEXT: i32 = 84;

// Why something failed, by the system's number for it.
#[derive(Clone, Copy)]
pub struct Reason {
    code: i32,
}

impl Reason {
    // Nothing failed yet.
    pub fn none() -> Reason {
        Reason { code: 0 }
    }

    pub fn interrupted() -> Reason {
        Reason { code: INTERRUPTED }
    }

    pub fn is_interrupted(self) -> bool {
        self.code == INTERRUPTED
    }

    // Nobody reads any more what is written.
    pub fn is_closed(self) -> bool {
        self.code == CLOSED
    }

    // What std says of itself and not of the system is a call that cannot be made.
    pub fn of(error: Error) -> Reason {
        match error.raw_os_error() {
            Some(code) => Reason { code },
            None => Reason { code: INVALID },
        }
    }

    fn of_argument(error: FillError) -> Reason {
        match error {
            FillError::NotPresent => Reason { code: INVALID },
            FillError::TooLong => Reason { code: TOO_LONG },
        }
    }

    // The system's words for it at the front of a buffer; answers how many bytes they are. std puts the number behind them, in brackets.
    fn words(self, buf: &mut [u8]) -> usize {
        let error = Error::from_raw_os_error(self.code);
        let size = buf.len();
        let mut rest: &mut [u8] = buf;
        let _ = write!(rest, "{error}");
        size.saturating_sub(rest.len())
    }
}

// Where bytes are read from.
#[derive(Clone, Copy)]
pub enum Input<'a> {
    Standard(Stdin),
    Opened(&'a File),
}

impl<'a> Input<'a> {
    // One read to the front of a buffer.
    pub fn read(self, buf: &mut [u8]) -> Result<usize, Reason>
        ensures bound { WritesAtMost result buf.new }
    {
        let got = match self {
            Input::Standard(stdin) => {
                let mut from = stdin;
                from.read(buf)
            }
            Input::Opened(file) => {
                let mut from = file;
                from.read(buf)
            }
        };
        got.map_err(Reason::of)
    }
}

// Where text is written to. What goes to a channel that is not open is lost, and nothing else changes.
#[derive(Clone, Copy)]
pub enum Target {
    Output,
    Errors,
    Channel,
}

// The system, as `main` is given it; and whether someone has stopped reading what is written. From then on no file is opened and nothing is written, and the
// program ends with the status of one that the signal for this ends, which std keeps from its programs.
#[derive(Drop)]
pub struct System {
    rt: HostRuntime,
    channel: Channel,
    cut: Cell<bool>,
}

const CUT: u8 = 141;

fn told(done: std::io::Result<()>) -> Result<(), Reason> {
    done.map_err(Reason::of)
}

// All of some bytes, to standard output.
pub fn put_all(to: Stdout, bytes: &[u8]) -> Result<(), Reason> {
    told(Print::write_all(&to, bytes))
}

impl System {
    pub fn new(rt: HostRuntime) -> System {
        let channel = channel::find(&rt);
        System {
            rt,
            channel,
            cut: Cell::new(false),
        }
    }

    pub fn stdin(&self) -> Input<'static> {
        Input::Standard(self.rt.stdin())
    }

    pub fn stdout(&self) -> Stdout {
        self.rt.stdout()
    }

    // Argument i at the front of a buffer, and how many bytes it has.
    pub fn argument(&self, i: usize, buf: &mut [u8]) -> Result<usize, Reason>
        ensures bound { WritesAtMost result buf.new }
    {
        self.rt.arg(i, buf).map_err(Reason::of_argument)
    }

    // How many arguments there are, with the program's own name.
    pub fn argument_count(&self) -> usize {
        let mut none = [0u8; 1];
        for i in 0..usize::MAX {
            if let Err(FillError::NotPresent) = self.rt.arg(i, &mut none) {
                return i;
            }
        }
        usize::MAX
    }

    // Why a write failed is taken note of.
    pub fn note(&self, why: Reason) {
        if why.is_closed() {
            self.cut.set(true);
        }
    }

    // How the program ends.
    pub fn ending(&self) -> ExitCode {
        if self.cut.get() {
            return ExitCode::from(CUT);
        }
        ExitCode::SUCCESS
    }

    // A file to be read. std takes names that are text.
    pub fn open_read(&self, name: &[u8]) -> Result<File, Reason> {
        if self.cut.get() {
            return Err(Reason { code: CLOSED });
        }
        let Ok(path) = str::from_utf8(name) else {
            return Err(Reason { code: NO_TEXT });
        };
        File::open(&self.rt, path).map_err(Reason::of)
    }

    // All of some bytes.
    pub fn write(&self, to: Target, bytes: &[u8]) -> Result<(), Reason> {
        if self.cut.get() {
            return Err(Reason { code: CLOSED });
        }
        self.put(to, bytes).inspect_err(|why| self.note(*why))
    }

    fn put(&self, to: Target, bytes: &[u8]) -> Result<(), Reason> {
        match to {
            Target::Output => put_all(self.rt.stdout(), bytes),
            Target::Errors => told(Print::write_all(&self.rt.stderr(), bytes)),
            Target::Channel => match &self.channel {
                Channel::Output => put_all(self.rt.stdout(), bytes),
                Channel::Errors => told(Print::write_all(&self.rt.stderr(), bytes)),
                Channel::Opened(file) => {
                    let mut to = file;
                    told(Write::write_all(&mut to, bytes))
                }
                Channel::Nowhere => Ok(()),
            },
        }
    }

    // A line on standard error of what failed, and why.
    pub fn fail(&self, what: &[u8], why: Reason) {
        let mut text = [0u8; 128];
        let n = why.words(&mut text);
        let words = without_number(crate::front(&text, n));
        let mut line = [0u8; LINE];
        let mut rest: &mut [u8] = &mut line;
        for part in [what, b": ", words, b"\n"] {
            let _ = Write::write_all(&mut rest, part);
        }
        let used = LINE.saturating_sub(rest.len());
        // In one piece, so that lines of several programs on one stream stay whole.
        let _ = self.write(Target::Errors, crate::front(&line, used));
    }
}

// Bytes of a line that says what failed: the longest name of a file, and the reason. What does not fit is left out, and
// no name is so long.
const LINE: usize = 4608;

// What stands before the last bracket and the space before it.
fn without_number(text: &[u8]) -> &[u8] {
    match text.iter().rposition(|b| *b == b'(') {
        Some(n) if 0 < n => crate::front(text, n - 1),
        _ => text,
    }
}

// Whether a file has a place to which reading can go back.
pub fn has_place(file: &File) -> bool {
    let mut at = file;
    at.seek(SeekFrom::Current(0)).is_ok()
}

// The file is read from its start again; whether that can be.
pub fn go_back(file: &File) -> bool {
    let mut at = file;
    at.seek(SeekFrom::Start(0)).is_ok()
}
