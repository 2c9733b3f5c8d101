//! `hunt`: the first run of a plan that comes to a fault, and what is left of its schedule.
ghost use Rattle.std.specs.Prelude.{◌≡◌, ◌<◌, ◌≤◌, IfNone, IfOk, IfSome, length};
ghost use Rattle.std.specs.List.{All};
ghost use Rattle.tick_kinds.specs.Resolution.{resolved};
ghost use Rattle.tick_source.specs.Source.{source};
ghost use Rattle.searches_explore.specs.Lines.{lines_of};
ghost use Rattle.searches_explore.specs.Never.{IfBreaks, IfTraps, schedule_of};
ghost use Rattle.searches_hunt.specs.Draws.{random_schedule};
ghost use Rattle.searches_hunt.specs.Hunts.{IsPartOf};
ghost use Rattle.searches_hunt.specs.Never.{IsFirstFault, IsMinimalBroken, IsMinimalTrapped, NeedsAll, NoRunFaults};
ghost use Rattle.searches_hunt.specs.prover.Parts.{IsFault};
ghost use Rattle.searches_hunt.specs.prover.Tries.{FaultsWithin};

use crate::drawing::draw;
use crate::plan::Plan;
use crate::shrinking::shrink;
use crate::trials::{Sought, Trials};
use crate::tried::Tried;
use crate::trying::steps_to_fault;
use base::NoMemory;
use language_properties::Property;
use searches_explore::Fault;
use std::alloc::Global;
use tick_kinds::Program;

// Shrinks the first steps of a run, after which there is a fault.
fn shrunk(
    alloc: Global,
    program: &Program,
    lines: &[Property],
    plan: Plan,
    run: u32,
    steps: u32,
) -> Result<Vec<u8>, NoMemory>
    requires { FaultsWithin (resolved program.now) (lines_of lines.now) plan run steps }
    ensures fault { IfOk result (λ s. IsFault (resolved program.now) (lines_of lines.now) s.items) }
    ensures needed { IfOk result (λ s. NeedsAll (resolved program.now) (lines_of lines.now) s.items) }
    ensures part { IfOk result (λ s. IsPartOf s.items (random_schedule plan (resolved program.now).processes run)) }
{
    let schedule = draw(alloc, plan, program.processes(), run, steps)?;
    shrink(alloc, program, lines, schedule)
}

// The program after this schedule.
fn led_to<'a>(
    alloc: Global,
    program: &'a Program,
    lines: &'a [Property],
    schedule: &[u8],
) -> Result<Tried<'a>, NoMemory>
    requires { All (λ p. p < (resolved program.now).processes) schedule.now }
    ensures led { IfOk result (λ t. t.machine ≡ source (resolved program.now) schedule.now) }
    ensures lines { IfOk result (λ t. t.lines.now ≡ lines.now) }
{
    let mut tried = Tried::new(alloc, program, lines)?;
    for &p in schedule {
        tried.step(p)?;
    }
    Ok(tried)
}

/// What is wrong after this schedule: a process has trapped, or else a line is broken.
pub fn told(
    alloc: Global,
    program: &Program,
    lines: &[Property],
    schedule: Vec<u8>,
) -> Result<Fault, NoMemory>
    requires fault { IsFault (resolved program.now) (lines_of lines.now) schedule.items }
    requires needed { NeedsAll (resolved program.now) (lines_of lines.now) schedule.items }
    ensures fault { IfOk result (λ f. schedule_of f ≡ schedule) }
    ensures trapped { IfOk result (λ f. IfTraps f (IsMinimalTrapped (resolved program.now) (lines_of lines.now))) }
    ensures broken { IfOk result (λ f. IfBreaks f (IsMinimalBroken (resolved program.now) (lines_of lines.now))) }
{
    let tried = led_to(alloc, program, lines, &schedule)?;
    if tried.has_trapped() {
        return Ok(Fault::Trapped(schedule));
    }
    match tried.first_broken() {
        Some((line, value)) => Ok(Fault::Broken {
            schedule,
            line,
            value,
        }),
        None => Ok(Fault::Trapped(schedule)),
    }
}

/// Runs the program under random schedules until a process traps or a line is broken: the runs of the plan from this
/// one on, which `trials` tries. A line is a property that must never hold: it is broken where its value isn't 0, or
/// its evaluation traps. Lines are asked at the start and after each step. A trap is told before a broken line. A
/// run ends where all processes have stopped. The answer has the first run that comes to one, counted from 0, and what is
/// left of its schedule when each step is left out without which there still is a fault; or there is none, which says
/// nothing of other schedules.
pub fn hunt<T: Trials>(
    trials: &T,
    alloc: Global,
    program: &Program,
    lines: &[Property],
    plan: Plan,
    from: u32,
) -> Result<Option<(u32, Fault)>, NoMemory>
    ensures first { IfOk result (λ h. IfSome h (λ f. IsFirstFault (resolved program.now) (lines_of lines.now) plan from f.0)) }
    ensures trapped { IfOk result (λ h. IfSome h (λ f. IfTraps f.1 (IsMinimalTrapped (resolved program.now) (lines_of lines.now)))) }
    ensures broken { IfOk result (λ h. IfSome h (λ f. IfBreaks f.1 (IsMinimalBroken (resolved program.now) (lines_of lines.now)))) }
    ensures part { IfOk result (λ h. IfSome h (λ f.
        IsPartOf (schedule_of f.1).items (random_schedule plan (resolved program.now).processes f.0))) }
    ensures short { IfOk result (λ h. IfSome h (λ f. length (schedule_of f.1).items ≤ plan.steps)) }
    ensures nothing { IfOk result (λ h. IfNone h (NoRunFaults (resolved program.now) (lines_of lines.now) plan from)) }
{
    let sought = Sought {
        alloc,
        program,
        lines,
    };
    let Some(run) = trials.first_fault(sought, plan, from)? else {
        return Ok(None);
    };
    let Some(steps) = steps_to_fault(alloc, program, lines, plan, run)? else {
        unreachable!()
    };
    let schedule = shrunk(alloc, program, lines, plan, run, steps)?;
    let fault = told(alloc, program, lines, schedule)?;
    Ok(Some((run, fault)))
}
