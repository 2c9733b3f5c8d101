//! One run of a plan or of a schedule, up to the first fault.
ghost use Rattle.std.specs.Prelude.{◌≡◌, ◌⊎◌, ◌<◌, ◌++◌, ◌∷◌, [], false, IfOk, MatchOption};
ghost use Rattle.std.specs.List.{All};
ghost use Rattle.searches_hunt.specs.Draws.{next_drawing, random_schedule};
ghost use Rattle.searches_hunt.specs.Never.{IsFaultless};
ghost use Rattle.searches_hunt.specs.prover.Parts.{IsFaultOf};
ghost use Rattle.searches_hunt.specs.prover.Tries.{FaultsWithin};
ghost use Rattle.tick_kinds.specs.Resolution.{resolved};
ghost use Rattle.tick_source.specs.Source.{source_step};
ghost use Rattle.searches_explore.specs.Explored.{has_trapped, is_trap};
ghost use Rattle.searches_explore.specs.Lines.{is_fault, lines_of};

use crate::drawing::ScheduleDraw;
use crate::plan::Plan;
use crate::tried::Tried;
use base::{NoMemory, Status};
use language_properties::Property;
use std::alloc::Global;
use tick_kinds::Program;

// Makes the next step of a run, and answers whether its process goes on.
fn step_drawn(
    program: &Program,
    plan: Plan,
    drawing: &mut ScheduleDraw,
    tried: &mut Tried<'_>,
) -> Result<Status, NoMemory>
    requires processes { tried.old.processes ≡ (resolved program.now).processes }
    requires process { drawing.old.process < (resolved program.now).processes }
    ensures drew { drawing.new ≡ next_drawing plan.mode (resolved program.now).processes drawing.old }
    ensures process { drawing.new.process < (resolved program.now).processes }
    ensures next { IfOk result (λ s. tried.new.machine ≡ source_step (resolved program.now).processes drawing.new.process tried.old.machine) }
    ensures trapped { has_trapped tried.old.machine ≡ false → IfOk result (λ s. has_trapped tried.new.machine ≡ is_trap s) }
    ensures lines { tried.new.lines ≡ tried.old.lines }
    ensures processes { tried.new.processes ≡ tried.old.processes }
{
    let p = drawing.step(plan.mode, program.processes());
    tried.step(p)
}

/// After how many steps of its schedule this run has a fault, if it has one: a process has trapped or a line is
/// broken.
pub fn steps_to_fault(
    alloc: Global,
    program: &Program,
    lines: &[Property],
    plan: Plan,
    run: u32,
) -> Result<Option<u32>, NoMemory>
    ensures { IfOk result (λ o. MatchOption o
        (IsFaultless (resolved program.now) (lines_of lines.now) (random_schedule plan (resolved program.now).processes run))
        (FaultsWithin (resolved program.now) (lines_of lines.now) plan run)) }
{
    let mut tried = Tried::new(alloc, program, lines)?;
    if tried.is_fault(Status::Running) {
        return Ok(Some(0));
    }
    let mut drawing = ScheduleDraw::new(plan.seed, run);
    for made in 0..plan.steps {
        let status = step_drawn(program, plan, &mut drawing, &mut tried)?;
        if tried.is_fault(status) {
            return Ok(Some(made + 1));
        }
        if let Status::Ended = status {
            if tried.have_stopped() {
                return Ok(None);
            }
        }
    }
    Ok(None)
}

// Makes a step of process `p` and notes it, but not where the process has stopped: then it does nothing. Answers
// whether there is a fault now.
fn advance(tried: &mut Tried<'_>, made: &mut Vec<u8>, p: u8) -> Result<bool, NoMemory>
    requires process { p < tried.old.processes }
    requires none { is_fault (lines_of tried.old.lines.now) tried.old.machine ≡ false }
    ensures next { IfOk result (λ b. tried.new.machine ≡ source_step tried.old.processes p tried.old.machine) }
    ensures noted { IfOk result (λ b. (made.new.items ≡ made.old.items ++ p ∷ [])
        ⊎ ((made.new.items ≡ made.old.items) × (tried.new.machine ≡ tried.old.machine))) }
    ensures fault { IfOk result (λ b. b ≡ is_fault (lines_of tried.old.lines.now) tried.new.machine) }
    ensures lines { tried.new.lines ≡ tried.old.lines }
    ensures processes { tried.new.processes ≡ tried.old.processes }
{
    match tried.status(p) {
        Status::Running => {
            let status = tried.step(p)?;
            made.push(p)?;
            Ok(tried.is_fault(status))
        }
        _ => Ok(false),
    }
}

/// The steps of a schedule that do something, up to the first fault; `None` where it leads to no fault.
pub fn to_fault(
    alloc: Global,
    program: &Program,
    lines: &[Property],
    schedule: &[u8],
) -> Result<Option<Vec<u8>>, NoMemory>
    requires { All (λ p. p < (resolved program.now).processes) schedule.now }
    ensures { IfOk result (λ o. MatchOption o
        (IsFaultless (resolved program.now) (lines_of lines.now) schedule.now)
        (λ made. IsFaultOf (resolved program.now) (lines_of lines.now) schedule.now made.items)) }
{
    let mut tried = Tried::new(alloc, program, lines)?;
    let mut made = Vec::with_capacity(alloc, schedule.len())?;
    if tried.is_fault(Status::Running) {
        return Ok(Some(made));
    }
    for &p in schedule {
        if advance(&mut tried, &mut made, p)? {
            return Ok(Some(made));
        }
    }
    Ok(None)
}
