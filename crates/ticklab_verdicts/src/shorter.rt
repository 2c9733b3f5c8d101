//! A shorter schedule than the one that merged steps have found.
ghost use Rattle.std.specs.Prelude.{◌≡◌, ◌<◌, IfOk, true};
ghost use Rattle.tick_source.specs.Source.{source};
ghost use Rattle.tick_kinds.specs.Resolution.{resolved};
ghost use Rattle.searches_explore.specs.Lines.{is_fault, lines_of};
ghost use Rattle.searches_explore.specs.Never.{schedule_of};
ghost use Rattle.ticklab_verdicts.specs.Found.{TellsOn, TellsShorter};
ghost use Rattle.ticklab_verdicts.specs.Hearing.{IsHeard, hearing};
ghost use Rattle.ticklab_verdicts.specs.Lines.{minimal_break_line_by, minimal_line_by};
ghost use Rattle.ticklab_verdicts.specs.Shorter.{is_bounded, is_break, limits_within, most_states};
ghost use Rattle.ticklab_verdicts.specs.Sought.{IsLawful, IsSound, sought_by};

use crate::exploring::{break_line, fault_said, trap_line};
use crate::hunting::{MINIMAL, MINIMAL_BREAK};
use crate::progress::Progress;
use crate::search::{Answered, Task};
use searches_explore::{Fault, Limits, StepKind, Verdict, explore};
use searches_hunt::shrink_fault;

/// So many states single steps see in any case, if the limit lets them.
const SOON_SEEN: u32 = 1_000_000;

/// How a trap is told that needs all its steps, where `--single` would look further for a shorter one.
const BOUNDED: &str =
    "a process traps under this schedule, and where any one step is left out none does; --single looks for a shortest one:";

/// The same where a line breaks.
const BOUNDED_BREAK: &str =
    "a #! never line breaks under this schedule, and where any one step is left out none does; --single looks for a shortest one:";

/// What is told of a fault that merged steps have found in so many states. The progress hears which it is, and then of a
/// search by single steps for a shortest schedule. Where that meets a limit, or has seen twice as many states and a
/// million, what is told is what is left of this schedule when each step is left out that can be.
pub fn shorter_found<W: Progress>(
    task: &Task<'_, '_>,
    merged: u32,
    fault: Fault,
    progress: &mut W,
) -> Answered
    requires sound { IsSound task.now.search }
    requires lawful { IsLawful task.now.search (schedule_of fault).items }
    requires fault { is_fault (lines_of task.now.search.lines.now.properties.items) (source (resolved task.now.search.spelled.now.program) (schedule_of fault).items) ≡ true }
    ensures { IfOk result (λ response. IsHeard (hearing W.begins W.finds W.hears) progress.old progress.new (TellsOn (sought_by task.now.search) task.now.limits (is_break fault) merged response)) }
{
    progress.found(is_break(&fault));
    shorter_sought(task, merged, into_schedule(fault), progress)
}

// The same of the search by single steps alone.
fn shorter_sought<W: Progress>(
    task: &Task<'_, '_>,
    merged: u32,
    schedule: Vec<u8>,
    progress: &mut W,
) -> Answered
    requires sound { IsSound task.now.search }
    requires lawful { IsLawful task.now.search schedule.items }
    requires fault { is_fault (lines_of task.now.search.lines.now.properties.items) (source (resolved task.now.search.spelled.now.program) schedule.items) ≡ true }
    ensures { IfOk result (λ response. IsHeard (hearing W.begins W.finds W.hears) progress.old progress.new (TellsShorter (sought_by task.now.search) task.now.limits merged response)) }
{
    let Task { search, limits } = *task;
    let alloc = search.alloc;
    let program = &search.spelled.program;
    let properties = search.lines.properties.as_slice();
    let kind = StepKind::Single;
    let within = limits_within(limits, merged);
    progress.begin(false);
    let explored = explore(alloc, program, properties, kind, within, progress)?;
    match explored {
        Verdict::Found { found: fault, .. } => {
            fault_said(&search, &fault, trap_line(false), break_line(false))
        }
        Verdict::Nowhere { .. } => unreachable!(),
        Verdict::Limit { states } => {
            let minimal = shrink_fault(alloc, program, properties, schedule)?;
            let bounded = is_bounded(limits, merged, states);
            let trap = minimal_line(bounded);
            fault_said(&search, &minimal, trap, minimal_break_line(bounded))
        }
    }
}

// How many states single steps see at most, where merged ones have seen so many.
fn most_states(limits: Limits, merged: u32) -> u32
    ensures { result ≡ most_states limits merged }
{
    let twice = merged.saturating_mul(2);
    twice.max(SOON_SEEN).min(limits.states)
}

fn limits_within(limits: Limits, merged: u32) -> Limits
    ensures { result ≡ limits_within limits merged }
{
    Limits {
        states: most_states(limits, merged),
        bytes: limits.bytes,
    }
}

// Whether they were stopped by that alone, as so many states are told.
fn is_bounded(limits: Limits, merged: u32, states: u32) -> bool
    ensures { result ≡ is_bounded limits merged states }
{
    states == most_states(limits, merged) && states < limits.states
}

fn is_break(fault: &Fault) -> bool
    ensures { result ≡ is_break fault.now }
{
    match fault {
        Fault::Trapped(_) => false,
        Fault::Broken { .. } => true,
    }
}

// The schedule of a fault.
fn into_schedule(fault: Fault) -> Vec<u8>
    ensures { result ≡ schedule_of fault }
{
    match fault {
        Fault::Trapped(schedule) => schedule,
        Fault::Broken { schedule, .. } => schedule,
    }
}

fn minimal_line(bounded: bool) -> &'static str
    ensures { result.now ≡ minimal_line_by bounded }
{
    if bounded { BOUNDED } else { MINIMAL }
}

fn minimal_break_line(bounded: bool) -> &'static str
    ensures { result.now ≡ minimal_break_line_by bounded }
{
    if bounded {
        BOUNDED_BREAK
    } else {
        MINIMAL_BREAK
    }
}
