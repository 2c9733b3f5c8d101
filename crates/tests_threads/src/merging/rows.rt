//! Histories of two processes, one with every kind of step.

use crate::merging::merged::{Step, comes_to};
use std::test::Fail;
use tests_shared::holds;
use tick_merge::{MergeFault, SharedAct};

// The word of two processes of which process 0 has stamped.
const STAMPED: u64 = 281_474_976_710_656;

// The same once process 1 has stamped after it.
const BOTH_STAMPED: u64 = 844_424_930_132_224;

// Two processes that stamp, scan, and tell who is older.
const STAMPS: &str =
    "tickcode 1 2 1 1 0\nLoadWord\nNext\nExchange 0\nScan 0\nPush 0\nPush 1\nOlder 0 0\nLoad 0\nOut\nHalt\n";

const BOTH_STAMP: &[Step] = &[
    (0, SharedAct::Load(0)),
    (1, SharedAct::Load(0)),
    (0, SharedAct::Won(0, STAMPED)),
    (1, SharedAct::Lost(0, STAMPED)),
];

// Process 0 scans between the load and the exchange of process 1.
const BOTH_SCAN: &[Step] = &[
    (0, SharedAct::Load(0)),
    (0, SharedAct::Won(0, STAMPED)),
    (1, SharedAct::Load(STAMPED)),
    (0, SharedAct::Load(STAMPED)),
    (1, SharedAct::Won(STAMPED, BOTH_STAMPED)),
    (1, SharedAct::Load(BOTH_STAMPED)),
];

// An exchange that looks for what isn't there.
const UNLOADED: &[Step] = &[
    (0, SharedAct::Load(0)),
    (0, SharedAct::Won(STAMPED, STAMPED)),
];

// Each process writes 5, stamps, scans, reads what process 0 wrote, and clears.
const ALL_KINDS: &str =
    "tickcode 2 2 1 1 1\nPush 5\nPut 0\nLoadWord\nNext\nExchange 2\nScan 0\nPush 0\nGet 0 0\nClear\nHalt\n";

const OF_ALL_KINDS: &[Step] = &[
    (0, SharedAct::Write(0, 5)),
    (0, SharedAct::Load(0)),
    (1, SharedAct::Write(0, 5)),
    (1, SharedAct::Load(0)),
    (0, SharedAct::Won(0, STAMPED)),
    (1, SharedAct::Lost(0, STAMPED)),
    (1, SharedAct::Load(STAMPED)),
    (1, SharedAct::Won(STAMPED, BOTH_STAMPED)),
    (0, SharedAct::Load(BOTH_STAMPED)),
    (1, SharedAct::Load(BOTH_STAMPED)),
    (1, SharedAct::Read(0, 0, 5)),
    (0, SharedAct::Read(0, 0, 5)),
    (1, SharedAct::Clear(BOTH_STAMPED)),
    (0, SharedAct::Clear(STAMPED)),
];

// A code, a history of it, how many instructions each process makes, and what they are merged to.
type Row = (
    &'static str,
    &'static [Step],
    &'static [u64],
    Result<&'static [u8], MergeFault>,
);

static ROWS: [Row; 5] = [
    (
        ALL_KINDS,
        OF_ALL_KINDS,
        &[10, 13],
        Ok(&[
            0, 0, 0, 1, 1, 1, 0, 0, 1, 1, 1, 1, 1, 0, 1, 1, 1, 0, 0, 1, 0, 0, 1,
        ]),
    ),
    (STAMPS, BOTH_STAMP, &[3, 3], Ok(&[0, 1, 0, 0, 1, 1])),
    // The run of docs/THREADS.md.
    (
        STAMPS,
        BOTH_SCAN,
        &[10, 10],
        Ok(&[0, 0, 0, 1, 0, 1, 1, 1, 0, 0, 0, 0, 0, 0, 1, 1, 1, 1, 1, 1]),
    ),
    (
        STAMPS,
        BOTH_STAMP,
        &[10, 3],
        Err(MergeFault::NotThisCode(0, 4)),
    ),
    (STAMPS, UNLOADED, &[3, 0], Err(MergeFault::NotLegal(1))),
];

#[test]
fn histories_are_merged(rt: HostRuntime) -> Result<(), Fail> {
    for row in &ROWS {
        let (text, steps, turns, wanted) = *row;
        holds(comes_to(rt.alloc(), text, steps, turns, wanted)?, turns)?;
    }
    Ok(())
}
