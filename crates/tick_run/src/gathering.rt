// Starts a worker for each process, and gathers what the workers come back with.

ghost use Rattle.std.specs.Prelude.{◌≡◌, ◌≤◌, ◌<◌, ◌+◌, ◌++◌, ◌∷◌, [], IfOk, length, map, vec_len, vec_items, vec_capacity};
ghost use Rattle.tick_run.specs.prover.Turns.{IsFor};
ghost use Rattle.tick_run.specs.prover.Work.{CanStart, CanWork, Gathers, IsWork};

use crate::gate::Gate;
use crate::jobs::{Job, Limits};
use crate::worker::{Worked, work};
use base::RunEnd;
use code_core::Code;
use stamp_table::{Pass, StampTable};
use std::alloc::{AllocError, Global};
use std::sync::Wait;
use std::thread::{self, Promise, PromisedHandle, Scope, Threads};
use tick_merge::RunFault;

/// What the workers of the first processes came back with.
#[derive(Drop)]
pub struct Gathered {
    pub passes: Vec<Pass>,
    pub outputs: Vec<Vec<u32>>,
    pub ends: Vec<RunEnd>,
}

/// Room for what the workers behind these gates come back with.
pub fn room_for<G>(alloc: Global, gates: &[G]) -> Result<Gathered, AllocError>
    ensures empty { IfOk result (λ none. (none.passes.items ≡ []) × (none.outputs.items ≡ []) × (none.ends.items ≡ [])) }
    ensures room { IfOk result (λ none. (length gates.now ≤ vec_capacity none.passes) × (length gates.now ≤ vec_capacity none.outputs) × (length gates.now ≤ vec_capacity none.ends)) }
{
    Ok(Gathered {
        passes: Vec::with_capacity(alloc, gates.len())?,
        outputs: Vec::with_capacity(alloc, gates.len())?,
        ends: Vec::with_capacity(alloc, gates.len())?,
    })
}

// What a worker of this process keeps.
#[derive(Clone, Copy)]
struct WorkOf<'a> {
    table: &'a StampTable,
    code: &'a Code,
    limits: Limits,
    process: u8,
}

impl<'a> Promise<Worked> for WorkOf<'a> {
    ghost use Rattle.tick_run.specs.prover.Work.{IsWork};

    ghost kept_by = { λ w r. IsWork w.table.now w.code.now w.process w.limits.turns w.limits.outs r.pass r.outputs.items r.end };
}

/// Runs a worker for each job; all have ended then.
pub fn run_all<G: Gate + Send, R: Threads + Wait>(
    rt: &R,
    table: &StampTable,
    code: &Code,
    limits: Limits,
    jobs: Vec<Job<G>>,
    none: Gathered,
) -> Result<Gathered, RunFault>
    requires start { CanStart table.now code.now limits.turns limits.outs jobs none }
    ensures { IfOk result (λ all. Gathers table.now code.now limits.turns limits.outs (vec_len jobs) all.passes.items (map (λ values. values.items) all.outputs.items) all.ends.items) }
{
    thread::scope(
        thread::scope_env(),
        rt,
        |scope| -> Result<Gathered, RunFault>
            requires start { CanStart table.now code.now limits.turns limits.outs jobs none }
            ensures { IfOk result (λ all. Gathers table.entry.now code.entry.now limits.turns limits.outs (vec_len jobs) all.passes.items (map (λ values. values.items) all.outputs.items) all.ends.items) }
        { run_jobs(rt, scope, table, code, limits, jobs, none) },
    )
}

// Starts a worker for the last job and, while it is under way, for each of the others, and then joins
// it.
fn run_jobs<'s, 'e, G: Gate + Send + 's, R: Threads>(
    rt: &R,
    scope: &'s Scope<'s, &'e ()>,
    table: &'s StampTable,
    code: &'s Code,
    limits: Limits,
    mut jobs: Vec<Job<G>>,
    none: Gathered,
) -> Result<Gathered, RunFault>
    requires start { CanStart table.now code.now limits.turns limits.outs jobs none }
    ensures gathers { IfOk result (λ all. Gathers table.now code.now limits.turns limits.outs (vec_len jobs) all.passes.items (map (λ values. values.items) all.outputs.items) all.ends.items) }
    ensures room { IfOk result (λ all. (vec_capacity all.passes ≡ vec_capacity none.passes) × (vec_capacity all.outputs ≡ vec_capacity none.outputs) × (vec_capacity all.ends ≡ vec_capacity none.ends)) }
{
    let Some(job) = jobs.pop() else {
        return Ok(none);
    };
    let worker = started(scope, table, code, limits, job)?;
    let others = run_jobs(rt, scope, table, code, limits, jobs, none);
    let worked = worker.join(rt);
    Ok(with_worked(others?, worked))
}

// Starts a worker for this job.
fn started<'s, 'e, G: Gate + Send + 's>(
    scope: &'s Scope<'s, &'e ()>,
    table: &'s StampTable,
    code: &'s Code,
    limits: Limits,
    job: Job<G>,
) -> Result<PromisedHandle<Worked, WorkOf<'s>>, RunFault>
    requires fits { IsFor table.now code.now }
    requires can { CanWork table.now code.now job.process limits.turns limits.outs job.proc job.pass job.outputs.items (vec_capacity job.outputs) }
    ensures { IfOk result (λ worker. (worker.promise.table.now ≡ table.now) × (worker.promise.code.now ≡ code.now) × (worker.promise.limits ≡ limits) × (worker.promise.process ≡ job.process)) }
{
    let process = job.process;
    let promise = WorkOf {
        table,
        code,
        limits,
        process,
    };
    Ok(scope.spawn_with(promise, move || work(table, code, limits, job))?)
}

// What one more worker came back with is added.
fn with_worked(before: Gathered, worked: Worked) -> Gathered
    requires passes_room { vec_len before.passes < vec_capacity before.passes }
    requires outputs_room { vec_len before.outputs < vec_capacity before.outputs }
    requires ends_room { vec_len before.ends < vec_capacity before.ends }
    ensures passes { result.passes.items ≡ before.passes.items ++ worked.pass ∷ [] }
    ensures outputs { map (λ values. values.items) result.outputs.items ≡ map (λ values. values.items) before.outputs.items ++ worked.outputs.items ∷ [] }
    ensures ends { result.ends.items ≡ before.ends.items ++ worked.end ∷ [] }
    ensures room { (vec_capacity result.passes ≡ vec_capacity before.passes) × (vec_capacity result.outputs ≡ vec_capacity before.outputs) × (vec_capacity result.ends ≡ vec_capacity before.ends) }
{
    let Gathered {
        mut passes,
        mut outputs,
        mut ends,
    } = before;
    passes.push_reserved(worked.pass);
    outputs.push_reserved(worked.outputs);
    ends.push_reserved(worked.end);
    Gathered {
        passes,
        outputs,
        ends,
    }
}
