// What each worker starts with.

ghost use Rattle.std.specs.Prelude.{◌≡◌, ◌≤◌, IfOk, vec_len, vec_items, vec_capacity};
ghost use Rattle.stamp_table.specs.Passes.{whole};
ghost use Rattle.tick_run.specs.prover.Turns.{IsFor};
ghost use Rattle.tick_run.specs.prover.Work.{AreReady};

use crate::gate::Gate;
use code_core::Code;
use code_machine::Proc;
use stamp_table::{Pass, StampTable};
use std::alloc::Global;
use tick_merge::RunFault;

/// How many instructions a process may make, and how many values it may give out.
#[derive(Clone, Copy)]
pub struct Limits {
    pub turns: u64,
    pub outs: u32,
}

/// A process before its first instruction, with a pass of its own and room for all that it may give
/// out.
#[derive(Drop)]
pub struct Job<G> {
    pub process: u8,
    pub proc: Proc,
    pub pass: Pass,
    pub gate: G,
    pub outputs: Vec<u32>,
}

/// A job for each gate.
pub fn jobs_for<G: Gate>(
    alloc: Global,
    table: &StampTable,
    code: &Code,
    limits: Limits,
    all: Pass,
    gates: Vec<G>,
) -> Result<Vec<Job<G>>, RunFault>
    requires fits { IsFor table.now code.now }
    requires few { code.now.sizes.processes ≤ 6 }
    requires all { all ≡ whole table.now }
    requires gates { vec_len gates ≡ code.now.sizes.processes }
    ensures count { IfOk result (λ jobs. vec_len jobs ≡ code.now.sizes.processes) }
    ensures ready { IfOk result (λ jobs. AreReady table.now code.now limits.turns limits.outs jobs.items) }
{
    let room = u64::min(limits.turns, u64::from(limits.outs)) as usize;
    let mut jobs = Vec::with_capacity(alloc, gates.len())?;
    let mut left = all;
    let mut process = 0u8;
    for gate in gates {
        let (rest, pass) = table.split(left, process);
        left = rest;
        let outputs = Vec::with_capacity(alloc, room)?;
        let proc = Proc::at_start(alloc, code, process)?;
        jobs.push_reserved(Job {
            process,
            proc,
            pass,
            gate,
            outputs,
        });
        process += 1;
    }
    Ok(jobs)
}
