//! Threads are made to keep an order of their steps on what is shared. The outcome is the one that the machine has in that
//! order. The steps are noted, and merged to a schedule of the code. Under this schedule the code has the same outcome. Its
//! report is that of the program under the schedule that `drop` makes.

ghost use Rattle.std.specs.Prelude.{◌≡◌, ◌<◌, All};
ghost use Rattle.tick_kinds.specs.Resolution.{resolved};
ghost use Rattle.tick_lower.specs.Lowered.{lowered, lowered_sizes};

use crate::in_order::run_in_order;
use crate::orders::any_order;
use crate::played::Played;
use crate::programs::{Small, Tried, try_each};
use code_machine::Code;
use std::alloc::Global;
use std::sync::Wait;
use std::test::Fail;
use std::thread::Threads;
use tests_shared::{Checked, is_same};
use tick_kinds::Program;
use tick_lower::lower;
use tick_merge::{Shared, merge};
use tick_play::{play_code, play_source, read_schedule, write_schedule};
use tick_run::RunOutcome;
use tick_sim::drop;

const SEED: u64 = 20_261_123;

const ORDERS: u64 = 100;

// The schedule of the code, as a text.
fn merged(alloc: Global, code: &Code, history: &[Shared], turns: &[u64]) -> Result<String, Fail> {
    if turns.len() != usize::from(code.sizes().processes()) {
        return Err(Fail::from("a number of instructions for each process"));
    }
    let schedule = merge(alloc, code, history, turns)?;
    Ok(write_schedule(alloc, &schedule)?)
}

// What a run on threads comes to, and its schedule.
fn recorded_run<R: AllocGlobal + Threads + Wait>(
    rt: &R,
    code: &Code,
    small: &Small,
    seed: u64,
) -> Result<(RunOutcome, String), Fail> {
    let ordered = any_order(rt.alloc(), code, small, seed)?;
    let (outcome, history) = run_in_order(rt, code, small, &ordered.order)?;
    is_same(
        &(small.0, seed, &outcome),
        &(small.0, seed, &ordered.outcome),
    )?;
    let schedule = merged(rt.alloc(), code, &history, &ordered.turns)?;
    Ok((outcome, schedule))
}

// The code's report along the schedule is the program's along the projected one.
fn has_report(alloc: Global, program: &Program, code: &Code, steps: &[u8]) -> Result<(), Fail>
    requires code { code.now ≡ record { sizes = lowered_sizes (resolved program.now); instructions = lowered (resolved program.now) } }
    requires processes { All (λ p. p < (resolved program.now).processes) steps.now }
{
    let kept = drop(alloc, program, code, steps)?;
    let of_code = play_code(alloc, code, steps)?;
    is_same(&of_code, &play_source(alloc, program, &kept)?)
}

fn is_one_run<R: AllocGlobal + Threads + Wait>(
    rt: &R,
    program: &Program,
    code: &Code,
    small: &Small,
    seed: u64,
) -> Result<(), Fail>
    requires { code.now ≡ record { sizes = lowered_sizes (resolved program.now); instructions = lowered (resolved program.now) } }
{
    let alloc = rt.alloc();
    let (outcome, schedule) = recorded_run(rt, code, small, seed)?;
    let steps = read_schedule(alloc, &schedule, program.processes())?;
    is_same(&outcome, &Played::outcome_of(alloc, code, small, &steps)?)?;
    has_report(alloc, program, code, &steps)
}

fn are_runs<R: AllocGlobal + Threads + Wait>(rt: &R, tried: Tried) -> Result<(), Fail> {
    let small = tried.small();
    let checked = Checked::new(rt.alloc(), small.0)?;
    let code = lower(rt.alloc(), &checked.program)?;
    for seed in tried.seeds {
        is_one_run(rt, &checked.program, &code, small, seed)?;
    }
    Ok(())
}

#[test]
fn each_recorded_run_is_one_of_code_and_program(rt: HostRuntime) -> Result<(), Fail> {
    try_each(SEED, ORDERS, |tried| are_runs(&rt, tried))
}
