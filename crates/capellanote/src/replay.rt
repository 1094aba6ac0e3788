// The replay of a scanner log for C, one event a call.
ghost use Rattle.std.specs.Prelude.{◌≡◌};
ghost use Rattle.capellanote.specs.Replay.{state_of, state_numbers, step_numbers, step_difference, step_state, Replayed};

use store_lots::{KEYS, LOTS};
use store_replay::{Replay, Step};

fn place(n: u64) -> usize
    ensures { result ≡ n }
{
    n as usize
}

fn state_of(state: &[u64; 3]) -> Replay
    ensures { result ≡ state_of state.now }
{
    Replay {
        at: place(state[0]),
        events: place(state[1]),
        lots: place(state[2]),
    }
}

fn numbers(step: Step) -> [u64; 6]
    ensures { result ≡ step_numbers step }
{
    match step {
        Step::Received { quantity, next } => [0, next.events as u64, 1, quantity as u64, 0, 0],
        Step::Issued { quantity, next } => [0, next.events as u64, 2, quantity as u64, 0, 0],
        Step::Counted {
            event,
            lot,
            paper,
            shelf,
            difference: _,
            next: _,
        } => [0, event as u64, 3, shelf as u64, paper as u64, lot as u64],
        Step::Day { next } => [0, next.events as u64, 4, 0, 0, 0],
        Step::Skipped { no, event, next: _ } => [no as u64, event as u64, 5, 0, 0, 0],
        Step::Refused { no, event } => [no as u64, event as u64, 6, 0, 0, 0],
        Step::End => [0, 0, 0, 0, 0, 0],
    }
}

fn difference_of(step: Step) -> [i64; 1]
    ensures { result ≡ step_difference step }
{
    match step {
        Step::Received {
            quantity: _,
            next: _,
        } => [0],
        Step::Issued {
            quantity: _,
            next: _,
        } => [0],
        Step::Counted {
            event: _,
            lot: _,
            paper: _,
            shelf: _,
            difference,
            next: _,
        } => [difference],
        Step::Day { next: _ } => [0],
        Step::Skipped {
            no: _,
            event: _,
            next: _,
        } => [0],
        Step::Refused { no: _, event: _ } => [0],
        Step::End => [0],
    }
}

fn as_numbers(state: Replay) -> [u64; 3]
    ensures { result ≡ state_numbers state }
{
    [state.at as u64, state.events as u64, state.lots as u64]
}

// The state past the event; at the end and after a refusal that ends the replay, the one before.
fn state_after(step: Step, was: Replay) -> Replay
    ensures { result ≡ step_state was step }
{
    match step {
        Step::Received { quantity: _, next } => next,
        Step::Issued { quantity: _, next } => next,
        Step::Counted {
            event: _,
            lot: _,
            paper: _,
            shelf: _,
            difference: _,
            next,
        } => next,
        Step::Day { next } => next,
        Step::Skipped {
            no: _,
            event: _,
            next,
        } => next,
        Step::Refused { no: _, event: _ } => was,
        Step::End => was,
    }
}

// The next event of a log.
#[unsafe(no_mangle)]
pub extern "C" fn capellanote_replay(
    log: &[u8],
    state: &mut [u64; 3],
    keys: &mut [u32; KEYS],
    papers: &mut [u32; LOTS],
    answer: &mut [u64; 6],
    difference: &mut [i64; 1],
)
    ensures { Replayed log.now state.old keys.old papers.old answer.new difference.new state.new keys.new papers.new }
{
    let was = state_of(state);
    let step = was.next(log, keys, papers);
    *answer = numbers(step);
    *difference = difference_of(step);
    *state = as_numbers(state_after(step, was));
}
