//! A word that comes back on threads: an exchange finds its old word again, and wins.

use crate::runs::running::{Wanted, comes_to_one_of};
use code_machine::Ask;
use std::sync::atomic::AtomicU64;
use std::sync::atomic::Ordering::SeqCst;
use std::test::Fail;
use tests_shared::{Polls, is_same};
use tick_run::{Gate, RunEnd};

// if (me == 0) { stamp; stamp; s = scan; x = older s 1 0; out x; s = scan; }
// else { stamp; stamp; stamp; stamp; stamp; stamp; }
const COMES_BACK: &str =
    "tickcode 1 3 1 1 0\nMe\nPush 0\nBin ==\nJumpZero 18\nLoadWord\nNext\nExchange 4\nLoadWord\nNext\nExchange 7\n\
     Scan 0\nPush 1\nPush 0\nOlder 0 0\nLoad 0\nOut\nScan 0\nJump 36\nLoadWord\nNext\nExchange 18\nLoadWord\nNext\n\
     Exchange 21\nLoadWord\nNext\nExchange 24\nLoadWord\nNext\nExchange 27\nLoadWord\nNext\nExchange 30\nLoadWord\n\
     Next\nExchange 33\nHalt\n";

// Which process makes its steps on what is shared next, and up to which of them. After the last each goes
// on as it likes.
static ORDER: [(u8, u64); 13] = [
    (0, 2),
    (1, 2),
    (2, 2),
    (1, 4),
    (0, 3),
    (2, 4),
    (1, 6),
    (2, 6),
    (1, 8),
    (2, 8),
    (1, 10),
    (0, 4),
    (0, 5),
];

static WANTED: [Wanted<'static>; 1] = [Wanted {
    outputs: &[&[1], &[], &[]],
    ends: &[RunEnd::Ended; 3],
    registers: &[],
}];

// How often each process called its gate, and whether the exchange was asked for.
#[derive(Drop)]
struct Seen {
    called: [AtomicU64; 3],
    comes_back: AtomicU64,
    polls: Polls,
}

// At its j-th call its process has made j - 1 steps, which it tells, and waits until those that come
// before its next were made.
#[derive(Clone, Copy)]
struct InOrder<'a> {
    seen: &'a Seen,
    calls: u64,
}

impl Gate for InOrder<'_> {
    fn before(&mut self, p: u8, ask: Ask) {
        self.calls = self.calls.wrapping_add(1);
        if let Some(called) = self.seen.called.get(p as usize) {
            called.store(self.calls, SeqCst);
        }
        if p == 0 && self.calls == 4 && is_from_the_old_word(ask) {
            self.seen.comes_back.store(1, SeqCst);
        }
        for (process, step) in &ORDER {
            if *process == p && *step >= self.calls {
                return;
            }
            if let Some(called) = self.seen.called.get(*process as usize) {
                self.seen.polls.wait(called, step.wrapping_add(1));
            }
        }
    }
}

fn is_from_the_old_word(ask: Ask) -> bool {
    match ask {
        Ask::Exchange(old, new) => old.bits() == 1_970_324_837_172_224
            && new.bits() == 1_970_324_837_172_230,
        _ => false,
    }
}

#[test]
fn an_exchange_finds_its_word_again(rt: HostRuntime) -> Result<(), Fail> {
    let seen = Seen {
        called: [AtomicU64::new(0), AtomicU64::new(0), AtomicU64::new(0)],
        comes_back: AtomicU64::new(0),
        polls: Polls::new(),
    };
    let gates = Vec::from_array(
        rt.alloc(),
        [InOrder {
            seen: &seen,
            calls: 0,
        }; 3],
    )?;
    comes_to_one_of(&rt, COMES_BACK, gates, &WANTED)?;
    let counts = [seen.comes_back.load(SeqCst), seen.called[0].load(SeqCst)];
    is_same(&(seen.polls.all_came(), counts), &(true, [1, 6]))
}
