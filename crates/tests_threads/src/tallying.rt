//! A tally of a scripted runner, of which one run in a given number traps.

use base::{RunEnd, RunOutcome, Trap};
use code_core::Code;
use code_text::read_code;
use searches_hunt::tally;
use std::alloc::{AllocError, Global};
use std::test::Fail;
use tests_shared::is_same;
use tick_run::{RunFault, Runner};

/// Each run whose number can be divided by `every` traps.
#[derive(Drop)]
struct Script {
    alloc: Global,
    calls: u64,
    every: u64,
}

impl Runner for Script {
    ghost use Rattle.std.specs.Prelude.{⊤};

    ghost Ran = { λ _ _ _ _ _ _. ⊤ };

    fn run_next(&mut self, _code: &Code, _turns: u64, _outs: u32) -> Result<RunOutcome, RunFault> {
        self.calls = self.calls.saturating_add(1);
        let end = match self.calls.checked_rem(self.every) {
            Some(0) => RunEnd::Trapped(Trap::Zero),
            _ => RunEnd::Ended,
        };
        Ok(alone(self.alloc, end)?)
    }
}

// The outcome of one process that gives nothing out.
fn alone(alloc: Global, end: RunEnd) -> Result<RunOutcome, AllocError> {
    let mut outputs = Vec::new(alloc);
    outputs.push(Vec::new(alloc))?;
    let mut ends = Vec::new(alloc);
    ends.push(end)?;
    Ok(RunOutcome {
        outputs,
        ends,
        registers: Vec::new(alloc),
    })
}

const ENDED: &str = "outputs 0\nstatus 0 ended\n";

const TRAPPED: &str = "outputs 0\nstatus 0 trapped Zero\n";

// Outcomes that come equally often stand in order of their texts.
#[test]
fn each_run_counts_once(rt: HostRuntime) -> Result<(), Fail> {
    let alloc = rt.alloc();
    let mut script = Script {
        alloc,
        calls: 0,
        every: 2,
    };
    let code = read_code(alloc, "tickcode 2 1 0 0 0\nHalt\n")?;
    let all = tally(alloc, &mut script, &code, 300, 1)?;
    let mut found = Vec::new(alloc);
    for counted in &all {
        found.push((counted.times, counted.outcome.as_str()))?;
    }
    is_same(
        &(script.calls, found.as_slice()),
        &(300, [(150, ENDED), (150, TRAPPED)].as_slice()),
    )
}
