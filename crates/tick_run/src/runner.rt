ghost use Rattle.std.specs.Prelude.{◌≡◌, IfOk, map, vec_len, vec_items, vec_capacity};
ghost use Rattle.base.specs.Observables.{run_observed};
ghost use Rattle.tick_merge.specs.Runs.{IsWholeRun};
ghost use Rattle.tick_run.specs.prover.Turns.{IsFor};
ghost use Rattle.tick_run.specs.prover.Rows.{HasRoom};
ghost use Rattle.tick_run.specs.prover.Work.{Gathers};

use crate::gate::Gate;
use crate::gathering::{Gathered, room_for, run_all};
use crate::jobs::{Limits, jobs_for};
use crate::registers::{Blank, blank_rows, filled_rows};
use base::RunOutcome;
use code_core::Code;
use stamp_table::{StampTable, open};
use std::alloc::Global;
use std::sync::Wait;
use std::thread::Threads;
use tick_merge::RunFault;

/// Runs each process of the code on a thread of its own, all on one table, until it stops, or has made
/// `turns` instructions, or would give out one value more than `outs`. A lost exchange counts as an
/// instruction. Process `p` calls gate `p` once before each instruction that touches what is shared.
///
/// All memory is taken before the first thread starts. Where a thread is refused, those that had
/// started go to their ends first.
pub fn run<G: Gate + Send, R: Threads + Wait>(
    rt: &R,
    alloc: Global,
    code: &Code,
    gates: Vec<G>,
    turns: u64,
    outs: u32,
) -> Result<RunOutcome, RunFault>
    requires { vec_len gates ≡ code.now.sizes.processes }
    ensures { IfOk result (λ outcome. IsWholeRun code.now turns outs (run_observed outcome)) }
{
    let sizes = code.sizes();
    let limits = Limits { turns, outs };
    let none = room_for(alloc, gates.as_slice())?;
    let blank = blank_rows(alloc, sizes.registers(), sizes.processes())?;
    let (table, whole) = open(alloc, sizes.processes(), sizes.registers())?;
    let jobs = jobs_for(alloc, &table, code, limits, whole, gates)?;
    let all = run_all(rt, &table, code, limits, jobs, none)?;
    Ok(outcome_of(code, table, all, blank, limits))
}

// The outcome of a run whose workers have all ended.
fn outcome_of(
    code: &Code,
    table: StampTable,
    all: Gathered,
    blank: Blank,
    limits: Limits,
) -> RunOutcome
    requires fits { IsFor table code.now }
    requires all { Gathers table code.now limits.turns limits.outs code.now.sizes.processes all.passes.items (map (λ values. values.items) all.outputs.items) all.ends.items }
    requires room { HasRoom code.now.sizes.rows code.now.sizes.processes blank.rows.items blank.filled.items (vec_capacity blank.filled) }
    ensures { IsWholeRun code.now limits.turns limits.outs (run_observed result) }
{
    let sizes = code.sizes();
    let Some(met) = table.meet_all(all.passes) else {
        unreachable!()
    };
    let end = table.close(met);
    RunOutcome {
        outputs: all.outputs,
        ends: all.ends,
        registers: filled_rows(&end, blank, sizes.registers(), sizes.processes()),
    }
}
