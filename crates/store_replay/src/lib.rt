// The replay of a scanner log, one event a step, over memory that the caller lends.
#![tactic(auto)]

ghost use Rattle.std.specs.Prelude.{◌≡◌, ◌≤◌, ◌<◌, pos, ◌-ℤ◌};
ghost use Rattle.store_replay.specs.Next.{fresh, past, after, receipt_at, issue_at, count_at, Stands, next_at};
ghost use Rattle.store_replay.specs.Promise.{Promise};

use store_event::{Key, Scan};
use store_lots::{KEYS, LOTS};

// The most that paper may say of a lot.
const MOST: u32 = 1000000;

// No replay counts so many events.
const FAR: usize = 9223372036854775808;

// The next event starts at `at`; so many events were before it, and so many lots are in the store.
#[derive(Clone, Copy)]
pub struct Replay {
    pub at: usize,
    pub events: usize,
    pub lots: usize,
}

// What is told of an event, and the state past it. Events count from 1. A count gives the lot's place, which is the number of lots for one never received,
// and paper minus shelf. A skipped event has changed nothing; a refusal and the end change nothing and have no next.
#[derive(Clone, Copy)]
pub enum Step {
    Received {
        quantity: u16,
        next: Replay,
    },
    Issued {
        quantity: u16,
        next: Replay,
    },
    Counted {
        event: usize,
        lot: usize,
        paper: u32,
        shelf: u16,
        difference: i64,
        next: Replay,
    },
    Day {
        next: Replay,
    },
    Skipped {
        no: u8,
        event: usize,
        next: Replay,
    },
    Refused {
        no: u8,
        event: usize,
    },
    End,
}

fn paper_minus_shelf(paper: u32, shelf: u16) -> i64
    ensures { result ≡ pos paper -ℤ pos shelf }
{
    paper as i64 - shelf as i64
}

impl Replay {
    // From an empty store.
    pub fn new() -> Replay
        ensures { result ≡ fresh }
    {
        Replay {
            at: 0,
            events: 0,
            lots: 0,
        }
    }

    // A receipt; the state is the one past it, as in the next two.
    fn receive(
        self,
        key: Key,
        quantity: u16,
        keys: &mut [u32; KEYS],
        papers: &mut [u32; LOTS],
    ) -> Step
        requires { self.lots ≤ 512 }
        ensures { after result keys.new papers.new ≡ receipt_at self key quantity keys.old papers.old }
    {
        let lots = self.lots;
        let lot = store_lots::find_lot(keys, lots, key);
        let paper = store_lots::paper_at(papers, lot, lots);
        let more = quantity as u32;
        if MOST - more < paper {
            return Step::Skipped {
                no: 29,
                event: self.events,
                next: self,
            };
        }
        if lot < lots {
            papers[lot] = paper + more;
            return Step::Received {
                quantity,
                next: self,
            };
        }
        if LOTS <= lots {
            return Step::Skipped {
                no: 30,
                event: self.events,
                next: self,
            };
        }
        store_lots::put_key(keys, lots, key);
        papers[lots] = more;
        Step::Received {
            quantity,
            next: Replay {
                at: self.at,
                events: self.events,
                lots: lots + 1,
            },
        }
    }

    // An issue.
    fn issue(self, key: Key, quantity: u16, keys: &[u32; KEYS], papers: &mut [u32; LOTS]) -> Step
        requires { self.lots ≤ 512 }
        ensures { after result keys.now papers.new ≡ issue_at self key quantity keys.now papers.old }
    {
        let lots = self.lots;
        let lot = store_lots::find_lot(keys, lots, key);
        let paper = store_lots::paper_at(papers, lot, lots);
        let less = quantity as u32;
        if paper < less {
            return Step::Skipped {
                no: 28,
                event: self.events,
                next: self,
            };
        }
        if lot < lots {
            papers[lot] = paper - less;
            return Step::Issued {
                quantity,
                next: self,
            };
        }
        Step::Issued {
            quantity,
            next: self,
        }
    }

    // A count: it changes no memory.
    fn count(self, key: Key, shelf: u16, keys: &[u32; KEYS], papers: &[u32; LOTS]) -> Step
        requires { self.lots ≤ 512 }
        ensures { result ≡ count_at self key shelf keys.now papers.now }
    {
        let lots = self.lots;
        let lot = store_lots::find_lot(keys, lots, key);
        let paper = store_lots::paper_at(papers, lot, lots);
        Step::Counted {
            event: self.events,
            lot,
            paper,
            shelf,
            difference: paper_minus_shelf(paper, shelf),
            next: self,
        }
    }

    // Past an event of so many bytes.
    fn past(self, bytes: usize) -> Replay
        requires { (bytes ≤ 15) × (self.at < 9223372036854775808) × (self.events < 9223372036854775808) }
        ensures { result ≡ past self bytes }
    {
        Replay {
            at: self.at + bytes,
            events: self.events + 1,
            lots: self.lots,
        }
    }

    // The event that starts where the replay stands.
    fn read(self, log: &[u8], keys: &mut [u32; KEYS], papers: &mut [u32; LOTS]) -> Step
        requires { Stands self log.now }
        ensures { after result keys.new papers.new ≡ next_at self log.now keys.old papers.old }
    {
        match store_event::scan_at(log, self.at) {
            Scan::Received { key, quantity } => self.past(15).receive(key, quantity, keys, papers),
            Scan::Issued { key, quantity } => self.past(15).issue(key, quantity, keys, papers),
            Scan::Counted { key, quantity } => self.past(15).count(key, quantity, keys, papers),
            Scan::Day => Step::Day { next: self.past(5) },
            Scan::Unknown => Step::Refused {
                no: 26,
                event: self.events + 1,
            },
            Scan::Cut => Step::Refused {
                no: 27,
                event: self.events + 1,
            },
        }
    }

    // The next event of a log, and the state past it. Nothing is left, or no replay can have come here: the end.
    pub fn next(self, log: &[u8], keys: &mut [u32; KEYS], papers: &mut [u32; LOTS]) -> Step
        ensures { Promise self log.now keys.old papers.old (after result keys.new papers.new) }
    {
        if log.len() <= self.at {
            return Step::End;
        }
        if LOTS < self.lots {
            return Step::End;
        }
        if FAR <= self.events {
            return Step::End;
        }
        self.read(log, keys, papers)
    }
}
