ghost use Rattle.std.specs.Prelude.{◌≡◌, IfOk, vec_len};
ghost use Rattle.base.specs.Observables.{run_observed};
ghost use Rattle.tick_merge.specs.Runs.{IsWholeRun};

use crate::gate::Gate;
use crate::runner::run;
use base::RunOutcome;
use code_core::Code;
use code_machine::Ask;
use std::alloc::{AllocError, Global};
use std::sync::Wait;
use std::thread::Threads;
use tick_merge::{OneRun, RunFault, Runner};

/// Runs on threads that the host gives.
#[derive(Drop)]
pub struct OnThreads<'a, R> {
    rt: &'a R,
}

impl<'a, R: AllocGlobal + Threads + Wait> OnThreads<'a, R> {
    pub fn new(rt: &'a R) -> OnThreads<'a, R> {
        OnThreads { rt }
    }
}

impl<'a, R: AllocGlobal + Threads + Wait> OneRun for OnThreads<'a, R> {
    fn run_once(self, code: &Code, turns: u64, outs: u32) -> Result<RunOutcome, RunFault> {
        run_freely(self.rt, code, turns, outs)
    }
}

impl<'a, R: AllocGlobal + Threads + Wait> Runner for OnThreads<'a, R> {
    ghost Ran = { λ _ code turns outs outcome _. IsWholeRun code turns outs outcome };

    fn run_next(&mut self, code: &Code, turns: u64, outs: u32) -> Result<RunOutcome, RunFault> {
        run_freely(self.rt, code, turns, outs)
    }
}

// Nobody waits at it.
#[derive(Drop)]
struct OpenGate;

impl Gate for OpenGate {
    fn before(&mut self, _p: u8, _ask: Ask) {}
}

fn open_gates(alloc: Global, count: u8) -> Result<Vec<OpenGate>, AllocError>
    ensures { IfOk result (λ gates. vec_len gates ≡ count) }
{
    let mut gates = Vec::new(alloc);
    for _ in 0..count {
        gates.push(OpenGate)?;
    }
    Ok(gates)
}

// One run, in which nobody waits.
fn run_freely<R: AllocGlobal + Threads + Wait>(
    rt: &R,
    code: &Code,
    turns: u64,
    outs: u32,
) -> Result<RunOutcome, RunFault>
    ensures { IfOk result (λ outcome. IsWholeRun code.now turns outs (run_observed outcome)) }
{
    let gates = open_gates(rt.alloc(), code.sizes().processes())?;
    run(rt, rt.alloc(), code, gates, turns, outs)
}
