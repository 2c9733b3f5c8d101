//! Two gates, each of which waits before one of its calls for the other.

use crate::runs::running::{Wanted, comes_to_one_of};
use code_machine::Ask;
use std::sync::Wait;
use std::sync::atomic::AtomicU64;
use std::sync::atomic::Ordering::SeqCst;
use std::test::Fail;
use std::thread::Threads;
use tests_shared::{Polls, holds};
use tick_run::Gate;

// How often each of the two was called.
#[derive(Drop)]
struct Calls {
    zero: AtomicU64,
    one: AtomicU64,
    polls: Polls,
}

// Before one of its calls it waits until the other gate was called so often.
#[derive(Drop)]
struct Held<'a> {
    own: &'a AtomicU64,
    other: &'a AtomicU64,
    polls: &'a Polls,
    waits: Waits,
}

/// At which of its calls a gate waits, and for how many of the other's.
pub type Waits = (u64, u64);

impl Gate for Held<'_> {
    fn before(&mut self, _p: u8, _ask: Ask) {
        let (at, until) = self.waits;
        if self.own.fetch_add(1, SeqCst) == at {
            self.polls.wait(self.other, until);
        }
    }
}

fn gates<'a>(calls: &'a Calls, zero: Waits, one: Waits) -> [Held<'a>; 2] {
    [
        Held {
            own: &calls.zero,
            other: &calls.one,
            polls: &calls.polls,
            waits: zero,
        },
        Held {
            own: &calls.one,
            other: &calls.zero,
            polls: &calls.polls,
            waits: one,
        },
    ]
}

/// How often each gate was called in a run of the code that the text is. None of them waited in vain, and the
/// run came to one of these.
pub fn calls_of<R: AllocGlobal + Threads + Wait>(
    rt: &R,
    text: &str,
    zero: Waits,
    one: Waits,
    allowed: &[Wanted<'_>],
) -> Result<[u64; 2], Fail> {
    let calls = Calls {
        zero: AtomicU64::new(0),
        one: AtomicU64::new(0),
        polls: Polls::new(),
    };
    let gates = Vec::from_array(rt.alloc(), gates(&calls, zero, one))?;
    comes_to_one_of(rt, text, gates, allowed)?;
    holds(calls.polls.all_came(), text)?;
    Ok([calls.zero.load(SeqCst), calls.one.load(SeqCst)])
}
