//! If some processes stop early, the others go on.

use crate::runs::running::{Wanted, comes_to_one_of};
use code_machine::{Ask, Trap};
use std::test::Fail;
use tick_run::{Gate, RunEnd};

/// A gate that does nothing.
#[derive(Clone, Copy)]
struct Open;

impl Gate for Open {
    fn before(&mut self, _p: u8, _ask: Ask) {}
}

// put r (me + 1); if (me == 1) { x = (0 - 1); } else { if (me == 2) { while 1 { stamp; } } else {
// if (me == 3) { while 1 { out me; } } else { out 5; out 6; } } }
const EACH_ITS_WAY: &str =
    "tickcode 1 4 1 0 1\nMe\nPush 1\nBin +\nPut 0\nMe\nPush 1\nBin ==\nJumpZero 13\nPush 0\nPush 1\nBin -\n\
     Store 0\nJump 38\nMe\nPush 2\nBin ==\nJumpZero 24\nPush 1\nJumpZero 23\nLoadWord\nNext\nExchange 19\nJump 17\n\
     Jump 38\nMe\nPush 3\nBin ==\nJumpZero 34\nPush 1\nJumpZero 33\nMe\nOut\nJump 28\nJump 38\nPush 5\nOut\n\
     Push 6\nOut\nHalt\n";

static ITS_WAY: [Wanted<'static>; 1] = [Wanted {
    outputs: &[&[5, 6], &[], &[], &[3, 3, 3, 3]],
    ends: &[
        RunEnd::Ended,
        RunEnd::Trapped(Trap::Below),
        RunEnd::TurnsSpent,
        RunEnd::OutputsFull,
    ],
    registers: &[&[1, 2, 3, 4]],
}];

// Whoever stops gives back what it has seen, so that the run has an outcome, with all registers.
#[test]
fn each_stops_in_its_way(rt: HostRuntime) -> Result<(), Fail> {
    let gates = Vec::from_array(rt.alloc(), [Open; 4])?;
    comes_to_one_of(&rt, EACH_ITS_WAY, gates, &ITS_WAY)
}
