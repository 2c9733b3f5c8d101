//! A long history.

use crate::merging::merged::{Step, comes_to};
use std::alloc::{AllocError, Global};
use std::test::Fail;
use tests_shared::holds;
use tick_merge::SharedAct;

const STEPS: usize = 10_000;

// Two processes that write 7 for ever.
const WRITES: &str = "tickcode 1 2 0 0 1\nPush 7\nPut 0\nJump 0\n";

// They write in turn.
fn history(alloc: Global) -> Result<Vec<Step>, AllocError> {
    let mut steps = Vec::with_capacity(alloc, STEPS)?;
    for place in 0..STEPS {
        steps.push(((place % 2) as u8, SharedAct::Write(0, 7)))?;
    }
    Ok(steps)
}

// The first step of each process has two instructions, each later one three, and the last `Jump` of
// each comes at the end.
fn schedule(alloc: Global) -> Result<Vec<u8>, AllocError> {
    let mut items = vec![in alloc; 0; 3 * STEPS]?;
    for (place, item) in items.iter_mut().enumerate() {
        *item = process_at(place);
    }
    Ok(items)
}

// Whose instruction comes at a place of the schedule.
fn process_at(place: usize) -> u8 {
    match place {
        0 | 1 => 0,
        2 | 3 => 1,
        29_998 => 0,
        29_999 => 1,
        _ => ((place - 4) / 3 % 2) as u8,
    }
}

#[test]
fn a_long_history_is_merged(rt: HostRuntime) -> Result<(), Fail> {
    let history = history(rt.alloc())?;
    let schedule = schedule(rt.alloc())?;
    let turns = [15_000, 15_000];
    let is_so = comes_to(rt.alloc(), WRITES, &history, &turns, Ok(&schedule))?;
    holds(is_so, STEPS)
}
