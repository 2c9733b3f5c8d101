ghost use Rattle.std.specs.Prelude.{◌≡◌, ℕ, IfOk, max, min};
ghost use Rattle.tick_kinds.specs.Resolution.{resolved};
ghost use Rattle.searches_explore.specs.Lines.{lines_of};
ghost use Rattle.searches_hunt.specs.Never.{TellsFirst};

use crate::plan::Plan;
use crate::trying::steps_to_fault;
use base::NoMemory;
use language_properties::Property;
use std::alloc::Global;
use tick_kinds::Program;

/// A program, and the lines that must never hold in its states: a fault of it is sought.
#[derive(Clone, Copy)]
pub struct Sought<'a> {
    pub alloc: Global,
    pub program: &'a Program,
    pub lines: &'a [Property],
}

/// Tries runs of a plan. Each run stands alone, so it doesn't matter in which order they are tried.
pub trait Trials: Drop + Sized {
    // How many runs it tries at once at most.
    ghost at_once: { Self → ℕ };

    /// The same, that tries at most so many runs at once; 0 counts as 1.
    fn with_jobs(&self, jobs: u32) -> Self
        ensures { Self.at_once result ≡ min (max 1 jobs) (Self.at_once self.now) };

    /// The first run of the plan, from this one on, under which a process traps or a line is broken.
    fn first_fault(&self, sought: Sought, plan: Plan, from: u32) -> Result<Option<u32>, NoMemory>
        ensures { IfOk result (TellsFirst (resolved sought.entry.program.now) (lines_of sought.entry.lines.now) plan from) };
}

/// Tries one run after the other.
#[derive(Clone, Copy)]
pub struct InTurn;

impl Trials for InTurn {
    ghost at_once = { λ in_turn. 1 };

    fn with_jobs(&self, _jobs: u32) -> InTurn {
        InTurn
    }

    fn first_fault(&self, sought: Sought, plan: Plan, from: u32) -> Result<Option<u32>, NoMemory> {
        first_in_turn(sought, plan, from)
    }
}

fn first_in_turn(sought: Sought, plan: Plan, from: u32) -> Result<Option<u32>, NoMemory>
    ensures { IfOk result (TellsFirst (resolved sought.entry.program.now) (lines_of sought.entry.lines.now) plan from) }
{
    let Sought {
        alloc,
        program,
        lines,
    } = sought;
    for run in from..from.saturating_add(plan.runs) {
        if let Some(_) = steps_to_fault(alloc, program, lines, plan, run)? {
            return Ok(Some(run));
        }
    }
    Ok(None)
}
