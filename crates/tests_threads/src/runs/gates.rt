//! What the gates are told: one call before each step on what is shared, and none besides.

use crate::runs::running::{Wanted, comes_to_one_of};
use code_machine::Ask;
use std::sync::atomic::AtomicU64;
use std::sync::atomic::Ordering::SeqCst;
use std::test::Fail;
use tests_shared::is_same;
use tick_run::{Gate, RunEnd};

// Process 0: put r 9; stamp; s = scan; x = get r me; clear; out x; and process 1 ends.
const EACH_STEP: &str =
    "tickcode 2 2 1 1 1\nMe\nJumpZero 3\nHalt\nPush 9\nPut 0\nLoadWord\nNext\nExchange 5\nScan 0\nMe\nGet 0 0\nClear\nLoad 0\nOut\nHalt\n";

static AS_ASKED: [Wanted<'static>; 1] = [Wanted {
    outputs: &[&[9], &[]],
    ends: &[RunEnd::Ended; 2],
    registers: &[&[9, 0]],
}];

// The asks so far as a number, with a digit for each, and how many gates were let go.
#[derive(Drop)]
struct Seen {
    asks: AtomicU64,
    dropped: AtomicU64,
}

struct Recorded<'a> {
    seen: &'a Seen,
}

impl Gate for Recorded<'_> {
    fn before(&mut self, p: u8, ask: Ask) {
        let digit = if p == 0 { digit_of(ask) } else { 9 };
        let before = self.seen.asks.load(SeqCst);
        self.seen
            .asks
            .store(before.wrapping_mul(10).wrapping_add(digit), SeqCst);
    }
}

fn digit_of(ask: Ask) -> u64 {
    match ask {
        Ask::LoadWord => 1,
        Ask::Exchange(old, new) => exchange_digit(old.bits(), new.bits()),
        Ask::Scan => 3,
        Ask::Get(row, index) => if row == 0 && index == 0 { 4 } else { 8 },
        Ask::Put(row, value) => if row == 0 && value == 9 { 5 } else { 8 },
        Ask::Clear => 6,
    }
}

// The first stamp of process 0 makes it present, with a label of zeros.
fn exchange_digit(old: u64, new: u64) -> u64 {
    if old == 0 && new == 281_474_976_710_656 {
        2
    } else {
        8
    }
}

impl Drop for Recorded<'_> {
    fn drop(self) {
        self.seen.dropped.fetch_add(1, SeqCst);
        let Self { seen: _ } = self;
    }
}

#[test]
fn each_shared_step_is_told_once(rt: HostRuntime) -> Result<(), Fail> {
    let seen = Seen {
        asks: AtomicU64::new(0),
        dropped: AtomicU64::new(0),
    };
    let gates = vec![in rt.alloc(); Recorded { seen: &seen }, Recorded { seen: &seen }]?;
    comes_to_one_of(&rt, EACH_STEP, gates, &AS_ASKED)?;
    let found = [seen.asks.load(SeqCst), seen.dropped.load(SeqCst)];
    is_same(&found, &[512_346, 2])
}
