// Input and output of the programs: a buffer filled from a file or from standard input, text gathered and written.
#![tactic(auto)]

mod channel;
mod system;

ghost use Rattle.std.specs.Prelude.{◌≡◌, true, false, ◌+◌, ◌-◌, ◌<◌, ◌≤◌, ◌^◌, ◌⊎◌, nat_lt, length, take, drop, IfOk};
ghost use Rattle.std.specs.Fmt.{WritesText};
ghost use Rattle.program_io.specs.Moved.{moved};
ghost use Rattle.program_io.specs.Said.{said, said_byte};

use std::fmt;
use std::fmt::Write;
use std::io::Stdout;
pub use system::{Input, Reason, System, Target, go_back, has_place};

// The first n bytes of a buffer; all of it where n is more.
#[tactic(auto, using(std::proofs::lemmas::List::take_min))]
pub fn front(buf: &[u8], n: usize) -> &[u8]
    ensures { result.now ≡ take n buf.now }
{
    &buf[..n.min(buf.len())]
}

// What stands from `from` on; nothing where that lies past the end.
#[tactic(auto, using(std::proofs::lemmas::List::drop_min))]
pub fn tail(buf: &[u8], from: usize) -> &[u8]
    ensures { result.now ≡ drop from buf.now }
{
    &buf[from.min(buf.len())..]
}

// Reads until the buffer is full, the input ends or a read fails; the first `from` bytes stand there already. Answers
// how many stand there then: fewer than the buffer holds once the input has ended.
// A read that a signal interrupts is made again; turns are counted so that the loop ends, and no run uses them up.
pub fn fill(input: Input<'_>, buf: &mut [u8], from: usize) -> Result<usize, Reason>
    ensures { IfOk result (λ n. n ≤ length buf.new) }
{
    let mut at = from;
    for _ in 0..u64::MAX {
        if buf.len() <= at {
            return Ok(buf.len());
        }
        match input.read(&mut buf[at..]) {
            Ok(0) => return Ok(at),
            Ok(n) => at += n,
            Err(why) => {
                if !why.is_interrupted() {
                    return Err(why);
                }
            }
        }
    }
    Err(Reason::interrupted())
}

// Keeps what stands from `from` to before `to`, at the front, and answers how many bytes that is.
#[tactic(auto, using(crate::specs::Moved::moved_none, crate::specs::Moved::moved_whole))]
pub fn keep(buf: &mut [u8], from: usize, to: usize) -> usize
    ensures value { to ≤ length buf.old → result ≡ to - from }
    ensures buf_after { buf.new ≡ moved buf.old from result }
{
    let end = to.min(buf.len());
    if end <= from {
        return 0;
    }
    buf.copy_within(from..end, 0);
    end - from
}

// What stands of an input in a buffer and is not read yet, from `at` to before `filled`; whether nothing follows it.
#[derive(Clone, Copy)]
pub struct Window {
    pub at: usize,
    filled: usize,
    pub ended: bool,
}

impl Window {
    // Before anything is read.
    pub fn new() -> Window
        ensures { (result.at ≡ 0) × (result.filled ≡ 0) × (result.ended ≡ false) }
    {
        Window {
            at: 0,
            filled: 0,
            ended: false,
        }
    }

    pub fn of(self, buf: &[u8]) -> &[u8]
        ensures { result.now ≡ drop self.at (take self.filled buf.now) }
    {
        tail(front(buf, self.filled), self.at)
    }

    // Behind so many bytes of it.
    pub fn past(self, n: usize) -> Window
        ensures at_after { self.at + n < 2 ^ 64 → result.at ≡ self.at + n }
        ensures rest { (result.filled ≡ self.filled) × (result.ended ≡ self.ended) }
    {
        Window {
            at: self.at.saturating_add(n),
            ..self
        }
    }

    // Whether the buffer has no room for more of the input, even if what was read is given up.
    pub fn is_full(self, buf: &[u8]) -> bool
        ensures full { result ≡ true → (self.at ≡ 0) × (length buf.now ≤ self.filled) }
        ensures room { result ≡ false → self.at ≡ 0 → self.filled < length buf.now }
    {
        self.at == 0 && buf.len() <= self.filled
    }

    // What is not read yet moved to the front, and more of the input behind it.
    pub fn refill(self, input: Input<'_>, buf: &mut [u8]) -> Result<Window, Reason>
        ensures { IfOk result (λ w. (w.at ≡ 0) × (w.filled ≤ length buf.new) × (w.ended ≡ nat_lt w.filled (length buf.new))) }
    {
        let kept = keep(buf, self.at, self.filled);
        let filled = fill(input, buf, kept)?;
        Ok(Window {
            at: 0,
            filled,
            ended: filled < buf.len(),
        })
    }
}

// Whether n more stand from `at` on, in so many.
pub fn has_more(length: usize, at: usize, n: usize) -> bool
    ensures { result ≡ true → at + n ≤ length }
{
    n <= length && at <= length - n
}

// Bytes of a short text.
const SHORT: usize = 128;

// A short text, passed on by value; what does not fit is left out, and no text here is so long.
#[derive(Clone, Copy)]
pub struct Text {
    bytes: [u8; SHORT],
    used: usize,
}

impl Text {
    pub fn new() -> Text {
        Text {
            bytes: [0u8; SHORT],
            used: 0,
        }
    }

    #[tactic(auto, using(crate::specs::Said::said_room, crate::specs::Said::said_full))]
    pub fn byte(mut self, b: u8) -> Text
        ensures { result ≡ said_byte self b }
    {
        let at = self.used;
        if at < SHORT {
            self.bytes[at] = b;
            self.used = at + 1;
        }
        self
    }

    // A word more, in place: a format is said piece by piece, and a text has many bytes to be passed on for each.
    #[tactic(auto, using(crate::specs::Said::said_none, crate::specs::Said::room_next, crate::specs::Said::full_next))]
    fn say(&mut self, word: &[u8])
        ensures { self.new ≡ said self.old word.now }
    {
        for b in word {
            let at = self.used;
            if at < SHORT {
                self.bytes[at] = *b;
                self.used += 1;
            }
        }
    }

    pub fn word(mut self, word: &[u8]) -> Text
        ensures { result ≡ said self word.now }
    {
        self.say(word);
        self
    }

    // What a value shows, or several in a format; what cannot be shown says nothing.
    pub fn print<D: fmt::Display + Drop>(self, what: D) -> Text
        ensures { (result ≡ self) ⊎ WritesText (λ t s u. u ≡ said t s) self (D.output what) result }
    {
        let mut text = self;
        match fmt::Write::write(&mut text, what) {
            Ok(()) => text,
            Err(_) => self,
        }
    }

    // A number in decimal digits.
    pub fn number(self, n: u64) -> Text {
        let mut digits = [0u8; 20];
        let k = io::decimal(n, &mut digits);
        self.word(&digits[..k])
    }

    // A byte in two hexadecimal digits.
    pub fn hex(self, b: u8) -> Text {
        let mut digits = [0u8; 16];
        let k = io::hex(b as u64, 2, &mut digits);
        self.word(&digits[..k])
    }

    // All of it is written, or the reason is told why not.
    pub fn write(self, system: &System, to: Target) -> Result<(), Reason> {
        system.write(to, front(&self.bytes, self.used))
    }
}

impl fmt::Write for Text {
    ghost write_str_gives = { λ t s u. u ≡ said t s };

    fn write_str(&mut self, s: &str) -> fmt::Result {
        self.say(s.as_bytes());
        Ok(())
    }
}

// Text gathered in a lent room for standard output: how much of the room is filled, and whether all went well so far, or why a write failed.
#[derive(Clone, Copy)]
pub struct Out {
    stdout: Stdout,
    pub used: usize,
    pub done: Result<(), Reason>,
}

impl Out {
    pub fn new(system: &System) -> Out {
        Out {
            stdout: system.stdout(),
            used: 0,
            done: Ok(()),
        }
    }

    // What is gathered is written, unless a write has failed before; the room is empty then.
    pub fn flush(self, room: &[u8]) -> Out {
        let done = match self.done {
            Ok(()) => system::put_all(self.stdout, front(room, self.used)),
            failed => failed,
        };
        Out {
            used: 0,
            done,
            ..self
        }
    }

    // What is gathered is written unless n bytes are left.
    pub fn clear(self, room: &[u8], n: usize) -> Out {
        if has_more(room.len(), self.used, n) {
            return self;
        }
        self.flush(room)
    }

    // The room is filled up to this place.
    pub fn to(self, used: usize) -> Out {
        Out { used, ..self }
    }

    // Whether nobody reads any more what is written.
    pub fn is_cut(self) -> bool {
        match self.done {
            Ok(()) => false,
            Err(why) => why.is_closed(),
        }
    }

    // It cannot go on, for no reason of the system's unless a write has failed before.
    pub fn failed(self) -> Out {
        Out {
            used: 0,
            done: self.done.and(Err(Reason::none())),
            ..self
        }
    }

    // A byte at the front of an empty room.
    fn first(self, room: &mut [u8], b: u8) -> Out {
        if room.is_empty() {
            return self.failed();
        }
        room[0] = b;
        self.to(1)
    }

    // One byte more; a full room is written first.
    pub fn byte(self, room: &mut [u8], b: u8) -> Out {
        let at = self.used;
        if at < room.len() {
            room[at] = b;
            return self.to(at + 1);
        }
        self.flush(room).first(room, b)
    }

    pub fn bytes(self, room: &mut [u8], text: &[u8]) -> Out {
        let mut out = self;
        for b in text {
            out = out.byte(room, *b);
        }
        out
    }

    // So many bytes more stand in the room already.
    pub fn more(self, room: &[u8], n: usize) -> Out {
        if has_more(room.len(), n, self.used) {
            return self.to(self.used + n);
        }
        self.failed().to(self.used)
    }

    pub fn text(self, room: &mut [u8], text: Text) -> Out {
        self.bytes(room, front(&text.bytes, text.used))
    }
}

// Whether argument i is this word, of at most 64 bytes.
pub fn is_argument(system: &System, i: usize, word: &[u8]) -> bool {
    let mut text = [0u8; 64];
    match system.argument(i, &mut text) {
        Ok(n) => &text[..n] == word,
        Err(_) => false,
    }
}
