// A log that is read through one buffer: where the replay stands in it, and how it ends.
ghost use Rattle.std.specs.Prelude.{◌≡◌};

use program_io::Input;
use program_verdict::Verdict;
use store_replay::Replay;

// The bytes of a log that are held at a time.
pub const SIZE: usize = 65536;

// No event has more bytes.
const LONGEST: usize = 15;

// The replay stands at a place of the buffer, of which so many bytes are filled; whether nothing follows them; and the
// verdict, where the replay goes on no more.
#[derive(Clone, Copy)]
pub struct Reading {
    pub state: Replay,
    filled: usize,
    ended: bool,
    pub over: Option<Verdict>,
}

impl Reading {
    pub fn new() -> Reading {
        Reading {
            state: Replay::new(),
            filled: 0,
            ended: false,
            over: None,
        }
    }

    // The whole of the next event is in the buffer, or all that there is of it.
    pub fn has_event(self) -> bool {
        self.ended || program_io::has_more(self.filled, self.state.at, LONGEST)
    }

    // What stands in the buffer.
    pub fn log(self, buf: &[u8; SIZE]) -> &[u8] {
        program_io::front(buf, self.filled)
    }

    // Behind an event.
    pub fn past(self, next: Replay) -> Reading {
        Reading {
            state: next,
            ..self
        }
    }

    // At a refused event: the verdict's line is its number, and its column 0.
    pub fn refused(self, no: u8, event: usize) -> Reading
        ensures over { result.over ≡ Some (Verdict.Refused no event 0) }
        ensures state { result.state ≡ self.state }
    {
        let verdict = Verdict::Refused {
            no,
            line: event,
            column: 0,
        };
        Reading {
            over: Some(verdict),
            ..self
        }
    }

    // Behind the last event.
    pub fn done(self) -> Reading
        ensures over { result.over ≡ Some (Verdict.Accepted self.state.events) }
        ensures state { result.state ≡ self.state }
    {
        let records = self.state.events;
        Reading {
            over: Some(Verdict::Accepted { records }),
            ..self
        }
    }

    // The rest moved to the front, and more read behind it.
    pub fn refill(self, input: Input<'_>, buf: &mut [u8; SIZE]) -> Reading {
        let mut state = self.state;
        let kept = program_io::keep(buf, state.at, self.filled);
        match program_io::fill(input, buf, kept) {
            Ok(filled) => {
                state.at = 0;
                Reading {
                    state,
                    filled,
                    ended: filled < SIZE,
                    ..self
                }
            }
            Err(why) => Reading {
                over: Some(Verdict::Unreadable(why)),
                ..self
            },
        }
    }

    // The verdict; what still goes on used up its turns.
    pub fn verdict(self) -> Verdict {
        self.over.unwrap_or(Verdict::Endless)
    }
}
