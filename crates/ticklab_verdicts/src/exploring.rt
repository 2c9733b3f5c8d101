//! `ticklab explore`: whether some schedule leads to a trap or breaks a line, and how that is told.
ghost use Rattle.std.specs.Prelude.{◌≡◌, if◌then◌else◌, ◌<◌, ◌++◌, IfErr, IfOk, OnOk, length, string_bytes};
ghost use Rattle.searches_explore.specs.Never.{IfBreaks, IfBroken, IfFault, schedule_of};
ghost use Rattle.base.specs.Lines.{line_end};
ghost use Rattle.ticklab_files.specs.Asking.{texts_of};
ghost use Rattle.ticklab_verdicts.specs.BySteps.{break_line_by, line_by};
ghost use Rattle.ticklab_verdicts.specs.Exploring.{Explores};
ghost use Rattle.ticklab_files.specs.Faults.{IsOfFile, IsUnread};
ghost use Rattle.ticklab_verdicts.specs.Found.{IsFound};
ghost use Rattle.ticklab_verdicts.specs.Hearing.{IsHeard, hearing};
ghost use Rattle.ticklab_verdicts.specs.Lines.{counted_text, larger_text, limit_line, more_text, next_line, safe_line, safe_text, states_text, try_text};
ghost use Rattle.ticklab_files.specs.Responses.{Gives};
ghost use Rattle.ticklab_verdicts.specs.Shown.{IsStatesAnswer, SaysBroken, SaysFault, SaysTrap, Shows, ShowsLimit, ShowsSafe};
ghost use Rattle.ticklab_verdicts.specs.Sought.{IsLawful, IsSound, sought_by};

use crate::counts::push_many;
use crate::ends::ends_found;
use crate::extent::{SearchExtent, begins_merged, extent_of, kind_of};
use crate::progress::Progress;
use crate::search::{Answered, Search, Task};
use crate::shorter::shorter_found;
use crate::trapping::{broken_shown, trap_shown};
use base::{Trap, push_number};
use searches_explore::{Fault, Limits, Verdict, explore};
use std::alloc::{AllocError, Global};
use ticklab_check::asked_for;
use ticklab_files::{
    DONE, Files, LIMIT, LabFault, Response, answer, asked_program, bytes_of, settled,
};
use ticklab_json::{Head, found_states};
use ticklab_line::{Output, Steps};

/// How a trap is told that comes under no shorter schedule.
const SHORTEST: &str = "a process traps under this schedule, and under no shorter one:";

const SOME: &str = "a process traps under this schedule:";

/// The same where a line breaks.
const SHORTEST_BREAK: &str =
    "a #! never line breaks under this schedule, and under no shorter one:";

const SOME_BREAK: &str = "a #! never line breaks under this schedule:";

/// Whether a process of the program traps under some schedule, or a line `#! never` of the file breaks or one of
/// these texts that are the same, as far as `limits` let a search go. Where the lines `#! ends` of the file
/// name somebody, what comes of that is asked too. The progress is told of each search. By merged steps the private
/// ones of a process go with the step before them: there are fewer states, and a schedule that is found need not be a
/// shortest one.
pub fn explored<'a, F: Files, W: Progress>(
    alloc: Global,
    files: &mut F,
    progress: &mut W,
    file: &'a str,
    never: &'a [&'a str],
    limits: Limits,
    steps: Steps,
    output: Output,
) -> Result<Response, LabFault>
    ensures ok { IfOk result (Explores F.Reads F.ReadsInput (hearing W.begins W.finds W.hears) files.old files.new progress.old progress.new file.now (texts_of never.now) limits steps output) }
    ensures err { IfErr result (IsOfFile (IsUnread F.Reads F.ReadsInput F.Lists F.Fails) file.now) }
{
    let input = bytes_of(alloc, files, file)?;
    let bytes = input.as_slice();
    let asked = match asked_program(alloc, file, bytes, never) {
        Ok(asked) => asked,
        Err(stop) => return Ok(settled(alloc, Err(stop))?),
    };
    let search = Search {
        alloc,
        spelled: &asked.spelled,
        input: bytes,
        lines: &asked.lines,
        output,
    };
    let task = Task { search, limits };
    match asked_for(asked.ends) {
        Some(conditions) => {
            let response = ends_found(&task, conditions, steps, progress)?;
            progress.end();
            Ok(response)
        }
        None => {
            let response = found(&task, steps, progress)?;
            progress.end();
            Ok(response)
        }
    }
}

// What is found of the program by steps of one kind, or by merged ones first, and by single ones where these find a
// fault.
fn found<W: Progress>(task: &Task<'_, '_>, steps: Steps, progress: &mut W) -> Answered
    requires sound { IsSound task.now.search }
    ensures { IfOk result (λ response. IsHeard (hearing W.begins W.finds W.hears) progress.old progress.new (IsFound (sought_by task.now.search) task.now.limits steps response)) }
{
    let Task { search, limits } = *task;
    let program = &search.spelled.program;
    let properties = search.lines.properties.as_slice();
    let is_merged = begins_merged(steps);
    let kind = kind_of(is_merged);
    progress.begin(is_merged);
    let explored = explore(search.alloc, program, properties, kind, limits, progress)?;
    match steps {
        Steps::Single => shown(task, false, &explored),
        Steps::Merged => shown(task, true, &explored),
        Steps::MergedFirst => match explored {
            Verdict::Found { states, found } => shorter_found(task, states, found, progress),
            Verdict::Nowhere { states, .. } => safe_shown(&search, true, states),
            Verdict::Limit { states } => limit_shown(task, true, states),
        },
    }
}

// The answer that tells what was explored.
fn shown(task: &Task<'_, '_>, is_merged: bool, explored: &Verdict<Fault, ()>) -> Answered
    requires sound { IsSound task.now.search }
    requires schedule { IfFault explored.now (IsLawful task.now.search) }
    requires line { IfBroken explored.now (λ schedule line v. line < length task.now.search.lines.now.places.items) }
    ensures { IfOk result (Shows is_merged (sought_by task.now.search) task.now.limits explored.now) }
{
    let search = &task.search;
    match explored {
        Verdict::Nowhere { states, .. } => safe_shown(search, is_merged, *states),
        Verdict::Found { found: fault, .. } => {
            fault_said(search, fault, trap_line(is_merged), break_line(is_merged))
        }
        Verdict::Limit { states } => limit_shown(task, is_merged, *states),
    }
}

/// A fault, with its schedule, and what is said of how it was found: this of a trap, and that of a line that breaks.
pub fn fault_said(search: &Search<'_, '_>, fault: &Fault, trap: &str, breaks: &str) -> Answered
    requires sound { IsSound search.now }
    requires schedule { IsLawful search.now (schedule_of fault.now).items }
    requires line { IfBreaks fault.now (λ schedule line v. line < length search.now.lines.now.places.items) }
    ensures { IfOk result (SaysFault trap.now breaks.now (sought_by search.now) fault.now) }
{
    match fault {
        Fault::Trapped(schedule) => trap_said(search, schedule, trap),
        Fault::Broken {
            schedule,
            line,
            value,
        } => broken_said(search, schedule, *line, *value, breaks),
    }
}

// A schedule under which a process traps, and what is said of how it was found.
fn trap_said(search: &Search<'_, '_>, schedule: &[u8], says: &str) -> Answered
    requires sound { IsSound search.now }
    requires schedule { IsLawful search.now schedule.now }
    ensures { IfOk result (SaysTrap says.now (sought_by search.now) schedule.now) }
{
    trap_shown(search, says, Head::Says(says), schedule)
}

// The same of a schedule after which the line of this number breaks.
fn broken_said(
    search: &Search<'_, '_>,
    schedule: &[u8],
    line: usize,
    value: Result<u32, Trap>,
    says: &str,
) -> Answered
    requires sound { IsSound search.now }
    requires schedule { IsLawful search.now schedule.now }
    requires line { line < length search.now.lines.now.places.items }
    ensures { IfOk result (SaysBroken says.now (sought_by search.now) schedule.now line value) }
{
    broken_shown(search, says, Head::Says(says), schedule, line, value)
}

// Nothing is wrong, and there are so many states.
fn safe_shown(search: &Search<'_, '_>, is_merged: bool, states: u32) -> Answered
    ensures { IfOk result (ShowsSafe (sought_by search.now) is_merged states) }
{
    let extent = extent_of(search, is_merged, states);
    let says = safe_line(search.alloc, extent)?;
    states_shown(search, DONE, "safe", extent, &says, "")
}

/// There are more states than these.
pub fn limit_shown(task: &Task<'_, '_>, is_merged: bool, states: u32) -> Answered
    ensures { IfOk result (ShowsLimit (sought_by task.now.search) is_merged task.now.limits states) }
{
    let search = &task.search;
    let places = search.lines.places.as_slice();
    let extent = SearchExtent {
        lines: places.len(),
        is_merged,
        states,
    };
    let says = limit_line(search.alloc, is_merged, states)?;
    let more = next_line(search.alloc, task.limits, extent)?;
    states_shown(search, LIMIT, "limit", extent, &says, &more)
}

/// An answer without a schedule: what is said in a line, with more behind it; an object has the states in place of that,
/// and the lines.
pub fn states_shown(
    search: &Search<'_, '_>,
    status: u8,
    word: &str,
    extent: SearchExtent,
    says: &str,
    more: &str,
) -> Answered
    ensures { IfOk result (Gives status (IsStatesAnswer search.now.output word.now says.now extent.is_merged extent.states extent.lines more.now)) }
{
    let alloc = search.alloc;
    let text = match search.output {
        Output::Text => lines_of(alloc, says, more)?,
        Output::ScheduleAlone => String::new(alloc),
        Output::Json => {
            let SearchExtent {
                lines,
                is_merged,
                states,
            } = extent;
            found_states(alloc, word, says, is_merged, states, lines)?
        }
    };
    Ok(answer(alloc, status, text))
}

// A line, with more behind it.
fn lines_of(alloc: Global, line: &str, more: &str) -> Result<String, AllocError>
    ensures { IfOk result (λ text. string_bytes text ≡ line.now ++ line_end ++ more.now) }
{
    let mut text = String::from_str(alloc, line)?;
    text.push_str("\n")?;
    text.push_str(more)?;
    Ok(text)
}

/// How a trap was found.
pub fn trap_line(is_merged: bool) -> &'static str
    ensures { result.now ≡ line_by is_merged }
{
    if is_merged { SOME } else { SHORTEST }
}

/// How a line was found that breaks.
pub fn break_line(is_merged: bool) -> &'static str
    ensures { result.now ≡ break_line_by is_merged }
{
    if is_merged {
        SOME_BREAK
    } else {
        SHORTEST_BREAK
    }
}

// Adds so many states; those between merged steps are told as merged.
fn push_states(text: &mut String, is_merged: bool, states: u32) -> Result<(), AllocError>
    ensures { OnOk result (string_bytes text.new ≡ string_bytes text.old ++ states_text is_merged states) }
{
    if is_merged {
        push_many(text, states, "merged state", "merged states")
    } else {
        push_many(text, states, "state", "states")
    }
}

fn safe_line(alloc: Global, extent: SearchExtent) -> Result<String, AllocError>
    ensures { IfOk result (λ line. string_bytes line ≡ safe_line extent.is_merged extent.lines extent.states) }
{
    let mut line = String::new(alloc);
    push_safe(&mut line, extent.lines)?;
    line.push_str(" under any schedule")?;
    push_counted(&mut line, extent)?;
    Ok(line)
}

/// Adds how many states there are.
pub fn push_counted(text: &mut String, extent: SearchExtent) -> Result<(), AllocError>
    ensures { OnOk result (string_bytes text.new ≡ string_bytes text.old ++ counted_text extent.is_merged extent.states) }
{
    text.push_str(" (")?;
    push_states(text, extent.is_merged, extent.states)?;
    text.push_str(")")
}

/// Adds what holds, where so many lines `#! never` are asked.
pub fn push_safe(text: &mut String, lines: usize) -> Result<(), AllocError>
    ensures { OnOk result (string_bytes text.new ≡ string_bytes text.old ++ safe_text lines) }
{
    if lines == 0 {
        return text.push_str("no process traps");
    }
    text.push_str("no process traps and no #! never line (of ")?;
    push_number(text, lines as u64)?;
    text.push_str(") breaks")
}

// Adds that there are more states than these.
fn push_more(text: &mut String, is_merged: bool, states: u32) -> Result<(), AllocError>
    ensures { OnOk result (string_bytes text.new ≡ string_bytes text.old ++ more_text is_merged states) }
{
    text.push_str("there are more than ")?;
    push_states(text, is_merged, states)?;
    Ok(())
}

fn limit_line(alloc: Global, is_merged: bool, states: u32) -> Result<String, AllocError>
    ensures { IfOk result (λ line. string_bytes line ≡ limit_line is_merged states) }
{
    let mut line = String::new(alloc);
    push_more(&mut line, is_merged, states)?;
    line.push_str(": nothing is said of all schedules")?;
    Ok(line)
}

// What may help where this limit was met, as so many states are told.
fn larger(limits: Limits, states: u32) -> &'static str
    ensures { result.now ≡ larger_text limits states }
{
    either(
        states == limits.states,
        "a larger --limit",
        "a larger --memory",
    )
}

fn try_text(is_merged: bool) -> &'static str
    ensures { result.now ≡ try_text is_merged }
{
    either(is_merged, "try ", "try it without --single, ")
}

// What may help where a limit was met.
fn next_line(alloc: Global, limits: Limits, extent: SearchExtent) -> Result<String, AllocError>
    ensures { IfOk result (λ line. string_bytes line ≡ next_line extent.is_merged limits extent.states) }
{
    let mut line = String::from_str(alloc, try_text(extent.is_merged))?;
    line.push_str(larger(limits, extent.states))?;
    line.push_str(", hunt, or fewer processes or rounds\n")?;
    Ok(line)
}

/// The first text where this holds, else the other.
pub fn either(first: bool, one: &'static str, other: &'static str) -> &'static str
    ensures { result.now ≡ (if first then one.now else other.now) }
{
    if first { one } else { other }
}
