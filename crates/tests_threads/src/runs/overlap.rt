//! Workers run at the same time: gates hold them until others have gone on, and no gate waits up to its
//! limit. If workers ran one after the other, or two at a time, a gate would reach its limit.

use crate::runs::running::{Wanted, comes_to_one_of};
use code_machine::Ask;
use std::sync::atomic::AtomicU64;
use std::sync::atomic::Ordering::SeqCst;
use std::test::Fail;
use tests_shared::{Polls, is_same};
use tick_run::{Gate, RunEnd};

// put r (me + 7); x = get r ((me + 1) % n); out x;
const PASSES_ON: &str =
    "tickcode 1 6 1 0 1\nMe\nPush 7\nBin +\nPut 0\nMe\nPush 1\nBin +\nCount\nBin %\nGet 0 0\nLoad 0\nOut\nHalt\n";

// How often each of six gates was called.
#[derive(Drop)]
struct Calls {
    of: [AtomicU64; 6],
    polls: Polls,
}

// Waits at each call until all six gates were called as often.
#[derive(Clone, Copy)]
struct Together<'a> {
    calls: &'a Calls,
}

impl Gate for Together<'_> {
    fn before(&mut self, p: u8, _ask: Ask) {
        let Some(own) = self.calls.of.get(p as usize) else {
            return;
        };
        let made = own.fetch_add(1, SeqCst).wrapping_add(1);
        for other in &self.calls.of {
            self.calls.polls.wait(other, made);
        }
    }
}

static PASSED_ON: [Wanted<'static>; 1] = [Wanted {
    outputs: &[&[8], &[9], &[10], &[11], &[12], &[7]],
    ends: &[RunEnd::Ended; 6],
    registers: &[&[7, 8, 9, 10, 11, 12]],
}];

// Whether no gate gave up, and how many were called just twice.
fn called_twice(calls: &Calls) -> (bool, u32) {
    let mut twice = 0u32;
    for own in &calls.of {
        if own.load(SeqCst) == 2 {
            twice = twice.wrapping_add(1);
        }
    }
    (calls.polls.all_came(), twice)
}

#[test]
fn six_workers_go_together(rt: HostRuntime) -> Result<(), Fail> {
    let calls = Calls {
        of: [
            AtomicU64::new(0),
            AtomicU64::new(0),
            AtomicU64::new(0),
            AtomicU64::new(0),
            AtomicU64::new(0),
            AtomicU64::new(0),
        ],
        polls: Polls::new(),
    };
    let gates = Vec::from_array(rt.alloc(), [Together { calls: &calls }; 6])?;
    comes_to_one_of(&rt, PASSES_ON, gates, &PASSED_ON)?;
    is_same(&called_twice(&calls), &(true, 6))
}
