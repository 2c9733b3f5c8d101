//! `ticklab hunt` without `--threads`: random schedules, and how the first with a fault is told.
ghost use Rattle.std.specs.Prelude.{◌≡◌, ◌<◌, ◌++◌, IfErr, IfOk, IfSome, length, string_bytes};
ghost use Rattle.searches_explore.specs.Never.{IfBreaks, schedule_of};
ghost use Rattle.ticklab_files.specs.Asking.{texts_of};
ghost use Rattle.ticklab_files.specs.Asking.{IsUnexplored};
ghost use Rattle.ticklab_json.specs.Found.{head_members};
ghost use Rattle.ticklab_files.specs.Faults.{IsOfFile, IsUnread};
ghost use Rattle.ticklab_verdicts.specs.Hunting.{Hunts, IsHunted, plan_of};
ghost use Rattle.ticklab_verdicts.specs.Lines.{from_text, minimal_break_line, minimal_line, nothing_line, plan_text, runs_from, unasked_text};
ghost use Rattle.ticklab_verdicts.specs.Shown.{IsEmptyAnswer, ShowsFault, ShowsHunt};
ghost use Rattle.ticklab_verdicts.specs.Sought.{IsLawful, IsSound, sought_by};
ghost use Rattle.ticklab_files.specs.Stops.{IfRefused};

use crate::counts::push_many;
use crate::exploring::push_safe;
use crate::search::{Answered, Search};
use crate::trapping::{broken_shown, trap_shown};
use base::push_number;
use searches_explore::Fault;
use searches_hunt::{Mode, Plan, Trials, hunt};
use std::alloc::{AllocError, Global};
use ticklab_check::asked_for;
use ticklab_files::{
    DONE, Files, LabFault, NoAnswer, Response, answer, asked_program, bytes_of, settled,
};
use ticklab_json::{Head, empty_hunt};
use ticklab_line::Output;

/// How a trap is told whose schedule needs all its steps.
pub const MINIMAL: &str =
    "a process traps under this schedule, and where any one step is left out none does:";

/// The same where a line breaks.
pub const MINIMAL_BREAK: &str =
    "a #! never line breaks under this schedule, and where any one step is left out none does:";

/// The plan that a command line asks for.
pub fn plan_of(seed: u64, runs: u32, steps: u32, is_uniform: bool) -> Plan
    ensures { result ≡ plan_of seed runs steps is_uniform }
{
    let mode = if is_uniform {
        Mode::Uniform
    } else {
        Mode::Bursts
    };
    Plan {
        seed,
        runs,
        steps,
        mode,
    }
}

/// Whether a process of the program traps under a schedule of the plan, from this run on, or a line `#! never` of the
/// file breaks or one of these texts that are the same. Where none does, the answer says whether a line `#! ends` of the
/// file isn't asked. `trials` tries the runs.
pub fn hunted<F: Files, T: Trials>(
    alloc: Global,
    files: &mut F,
    trials: &T,
    file: &str,
    never: &[&str],
    plan: Plan,
    from: u32,
    output: Output,
) -> Result<Response, LabFault>
    ensures ok { IfOk result (Hunts F.Reads F.ReadsInput files.old files.new file.now (texts_of never.now) plan from output) }
    ensures err { IfErr result (IsOfFile (IsUnread F.Reads F.ReadsInput F.Lists F.Fails) file.now) }
{
    let input = bytes_of(alloc, files, file)?;
    let bytes = input.as_slice();
    let hunted = random_schedules(alloc, trials, file, never, bytes, plan, from, output);
    Ok(settled(alloc, hunted)?)
}

fn random_schedules<T: Trials>(
    alloc: Global,
    trials: &T,
    name: &str,
    never: &[&str],
    input: &[u8],
    plan: Plan,
    from: u32,
    output: Output,
) -> Result<Response, NoAnswer>
    ensures ok { IfOk result (IsHunted name.now (texts_of never.now) plan from output input.now) }
    ensures refused { IfErr result (λ stop. IfRefused stop (IsUnexplored name.now (texts_of never.now) input.now)) }
{
    let asked = match asked_program(alloc, name, input, never) {
        Ok(asked) => asked,
        Err(stop) => return Err(stop),
    };
    let spelled = &asked.spelled;
    let lines = &asked.lines;
    let properties = lines.properties.as_slice();
    let hunted = hunt(trials, alloc, &spelled.program, properties, plan, from)?;
    let search = Search {
        alloc,
        spelled,
        input,
        lines,
        output,
    };
    let ends_unasked = asked_for(asked.ends).is_some();
    Ok(shown(&search, plan, from, ends_unasked, &hunted)?)
}

// The answer that tells what the hunt came to.
fn shown(
    search: &Search<'_, '_>,
    plan: Plan,
    from: u32,
    ends_unasked: bool,
    hunted: &Option<(u32, Fault)>,
) -> Answered
    requires sound { IsSound search.now }
    requires schedule { IfSome hunted.now (λ f. IsLawful search.now (schedule_of f.1).items) }
    requires line { IfSome hunted.now (λ f. IfBreaks f.1 (λ schedule line v. line < length search.now.lines.now.places.items)) }
    ensures { IfOk result (ShowsHunt (sought_by search.now) plan from ends_unasked hunted.now) }
{
    match hunted {
        Some((_run, fault)) => fault_shown(search, Head::Runs { plan, from }, fault),
        None => {
            let text = empty_answer(search, plan, from, ends_unasked)?;
            Ok(answer(search.alloc, DONE, text))
        }
    }
}

// A fault whose schedule needs all its steps.
fn fault_shown(search: &Search<'_, '_>, head: Head<'_>, fault: &Fault) -> Answered
    requires sound { IsSound search.now }
    requires schedule { IsLawful search.now (schedule_of fault.now).items }
    requires line { IfBreaks fault.now (λ schedule line v. line < length search.now.lines.now.places.items) }
    ensures { IfOk result (ShowsFault minimal_line minimal_break_line (head_members head.entry) (sought_by search.now) fault.now) }
{
    match fault {
        Fault::Trapped(schedule) => trap_shown(search, MINIMAL, head, schedule),
        Fault::Broken {
            schedule,
            line,
            value,
        } => {
            let found = MINIMAL_BREAK;
            broken_shown(search, found, head, schedule, *line, *value)
        }
    }
}

// No process traps and no line breaks, and this says whether a line `#! ends` isn't asked.
fn empty_answer(
    search: &Search<'_, '_>,
    plan: Plan,
    from: u32,
    ends_unasked: bool,
) -> Result<String, AllocError>
    ensures { IfOk result (λ text. IsEmptyAnswer search.now.output (length search.now.lines.now.places.items) plan from ends_unasked (string_bytes text)) }
{
    let alloc = search.alloc;
    let lines = search.lines.places.len();
    match search.output {
        Output::Text => nothing_line(alloc, lines, plan, from, ends_unasked),
        Output::ScheduleAlone => Ok(String::new(alloc)),
        Output::Json => empty_hunt(alloc, plan, from, lines, ends_unasked),
    }
}

// How many runs there are from this one on: the number of a run is at most 4294967294.
fn runs_from(plan: Plan, from: u32) -> u32
    ensures { result ≡ runs_from plan from }
{
    u32::min(plan.runs, u32::MAX - from)
}

fn nothing_line(
    alloc: Global,
    lines: usize,
    plan: Plan,
    from: u32,
    ends_unasked: bool,
) -> Result<String, AllocError>
    ensures { IfOk result (λ line. string_bytes line ≡ nothing_line lines plan from ends_unasked) }
{
    let mut line = String::new(alloc);
    push_safe(&mut line, lines)?;
    line.push_str(" in ")?;
    push_many(&mut line, runs_from(plan, from), "run", "runs")?;
    push_plan(&mut line, plan, from)?;
    line.push_str(unasked_text(ends_unasked))?;
    line.push_str("\n")?;
    Ok(line)
}

// Whether a line `#! ends` isn't asked.
fn unasked_text(ends_unasked: bool) -> &'static str
    ensures { result.now ≡ unasked_text ends_unasked }
{
    if ends_unasked {
        "; #! ends is not asked"
    } else {
        ""
    }
}

// How long the runs are, the seed, and which run is the first.
fn push_plan(line: &mut String, plan: Plan, from: u32) -> Result<(), AllocError>
    ensures { IfOk result (λ _. string_bytes line.new ≡ string_bytes line.old ++ plan_text plan from) }
{
    line.push_str(" of at most ")?;
    push_many(line, plan.steps, "step", "steps")?;
    line.push_str(" of seed ")?;
    push_number(line, plan.seed)?;
    push_from(line, from)
}

// The first run, where that isn't 0.
fn push_from(line: &mut String, from: u32) -> Result<(), AllocError>
    ensures { IfOk result (λ _. string_bytes line.new ≡ string_bytes line.old ++ from_text from) }
{
    if from > 0 {
        line.push_str(", from run ")?;
        push_number(line, u64::from(from))?;
    }
    Ok(())
}
