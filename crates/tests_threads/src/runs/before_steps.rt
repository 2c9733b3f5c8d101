//! A gate is called before the step that it is told of, and for the process that it belongs to. The order of
//! the steps is forced, so a gate called after its step would be noticed.

use crate::runs::held::calls_of;
use crate::runs::running::{Wanted, comes_to_one_of};
use code_machine::Ask;
use std::alloc::{AllocError, Global};
use std::sync::Wait;
use std::sync::atomic::AtomicU64;
use std::sync::atomic::Ordering::SeqCst;
use std::test::Fail;
use std::thread::Threads;
use tests_shared::is_same;
use tick_run::{Gate, RunEnd};

// if me { x = get r me; put r 5; x = get r me; } else { x = get r 1; out x; }
const GETS: &str =
    "tickcode 1 2 1 1 1\nMe\nJumpZero 9\nMe\nGet 0 0\nPush 5\nPut 0\nMe\nGet 0 0\nJump 13\nPush 1\nGet 0 0\nLoad 0\nOut\nHalt\n";

// if me { x = get r me; x = get r 0; out x; x = get r me; } else { put r 5; }
const PUTS: &str =
    "tickcode 1 2 1 1 1\nMe\nJumpZero 11\nMe\nGet 0 0\nPush 0\nGet 0 0\nLoad 0\nOut\nMe\nGet 0 0\nJump 13\nPush 5\nPut 0\nHalt\n";

// if me { x = get r me; stamp; x = get r me; } else { s = scan; x = older s 0 1; out x; }
const SCANS: &str =
    "tickcode 1 2 1 1 1\nMe\nJumpZero 10\nMe\nGet 0 0\nLoadWord\nNext\nExchange 4\nMe\nGet 0 0\nJump 16\nScan 0\nPush 0\nPush 1\nOlder 0 0\nLoad 0\nOut\nHalt\n";

// if me { x = get r me; stamp; x = get r me; } else { stamp; }
const STAMPS: &str =
    "tickcode 1 2 1 1 1\nMe\nJumpZero 10\nMe\nGet 0 0\nLoadWord\nNext\nExchange 4\nMe\nGet 0 0\nJump 13\nLoadWord\nNext\nExchange 10\nHalt\n";

// A code, the call at which gate 0 waits, the calls of gate 1 for which it does, and how often gate 0 is
// called in all. Then what each process gives out, and the registers. Gate 1 waits at its first call until
// gate 0 waits: so its process makes what comes next while process 0 is held before its step.
type Row = (
    &'static str,
    u64,
    u64,
    u64,
    &'static [&'static [u32]],
    &'static [&'static [u32]],
);

static ROWS: [Row; 5] = [
    (GETS, 0, 3, 1, &[&[5], &[]], &[&[0, 5]]),
    (PUTS, 0, 3, 1, &[&[], &[0]], &[&[5, 0]]),
    (SCANS, 0, 4, 1, &[&[1], &[]], &[&[0, 0]]),
    // before the load: the exchange is made
    (STAMPS, 0, 4, 2, &[&[], &[]], &[&[0, 0]]),
    // before the exchange: it is lost, and there are a load and an exchange more
    (STAMPS, 1, 4, 4, &[&[], &[]], &[&[0, 0]]),
];

fn is_held<R: AllocGlobal + Threads + Wait>(rt: &R, row: &Row) -> Result<(), Fail> {
    let (text, at, until, calls, outputs, registers) = *row;
    let wanted = Wanted {
        outputs,
        ends: &[RunEnd::Ended; 2],
        registers,
    };
    let [zero, _one] = calls_of(rt, text, (at, until), (0, at.wrapping_add(1)), &[wanted])?;
    is_same(&zero, &calls)
}

#[test]
fn a_gate_comes_before_its_step(rt: HostRuntime) -> Result<(), Fail> {
    for row in &ROWS {
        is_held(&rt, row)?;
    }
    Ok(())
}

// put r (me + 7); x = get r me;
const OWN: &str = "tickcode 1 6 1 0 1\nMe\nPush 7\nBin +\nPut 0\nMe\nGet 0 0\nHalt\n";

static OWN_WANTED: [Wanted<'static>; 1] = [Wanted {
    outputs: &[&[], &[], &[], &[], &[], &[]],
    ends: &[RunEnd::Ended; 6],
    registers: &[&[7, 8, 9, 10, 11, 12]],
}];

// How often the gates were called for their own process, as a number with a digit for each; and how often for
// another.
#[derive(Drop)]
struct Calls {
    own: AtomicU64,
    others: AtomicU64,
}

// Knows for which process it is. A call for that one is worth `digit`.
#[derive(Drop)]
struct Numbered<'a> {
    number: u8,
    digit: u64,
    calls: &'a Calls,
}

fn is_of(ask: Ask, p: u8) -> bool {
    match ask {
        Ask::Put(row, value) => row == 0 && value == u32::from(p) + 7,
        Ask::Get(row, i) => row == 0 && i == p,
        _ => false,
    }
}

impl Gate for Numbered<'_> {
    fn before(&mut self, p: u8, ask: Ask) {
        if p == self.number && is_of(ask, p) {
            self.calls.own.fetch_add(self.digit, SeqCst);
        } else {
            self.calls.others.fetch_add(1, SeqCst);
        }
    }
}

fn six_gates(alloc: Global, calls: &Calls) -> Result<Vec<Numbered<'_>>, AllocError> {
    let mut gates = Vec::new(alloc);
    let mut digit = 1u64;
    for number in 0..6u8 {
        gates.push(Numbered {
            number,
            digit,
            calls,
        })?;
        digit = digit.wrapping_mul(10);
    }
    Ok(gates)
}

#[test]
fn each_process_calls_its_own_gate(rt: HostRuntime) -> Result<(), Fail> {
    let calls = Calls {
        own: AtomicU64::new(0),
        others: AtomicU64::new(0),
    };
    let gates = six_gates(rt.alloc(), &calls)?;
    comes_to_one_of(&rt, OWN, gates, &OWN_WANTED)?;
    let found = [calls.own.load(SeqCst), calls.others.load(SeqCst)];
    is_same(&found, &[222_222, 0])
}
