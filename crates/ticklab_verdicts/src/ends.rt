//! `ticklab explore --ends`: whether processes end, under a progress condition.
ghost use Rattle.std.specs.Prelude.{◌≡◌, ◌<◌, [], IfErr, IfOk, MatchResult, None, length, true};
ghost use Rattle.tick_kinds.specs.Resolution.{resolved};
ghost use Rattle.searches_explore.specs.Never.{IfBroken, IfFault, IfKnown};
ghost use Rattle.ticklab_files.specs.Asking.{texts_of};
ghost use Rattle.searches_wait_free.specs.declared.answer.OwnSteps.TheVariants.{Stop};
ghost use Rattle.ticklab_verdicts.specs.Ends.{ExploresEnds, IsEndsExplored, IsEndsFound, IsEndsFoundBy, IsEndsFoundFirst, IsEndsRefused, IsPast, IsThere, asked_by, line_of, under};
ghost use Rattle.ticklab_files.specs.Faults.{IsOfFile, IsUnread};
ghost use Rattle.ticklab_verdicts.specs.Hearing.{IsHeard, hearing};
ghost use Rattle.ticklab_verdicts.specs.Shown.{ShowsAllEnd, ShowsEndless, ShowsEnds, ShowsKnown, ShowsNotAlone, ShowsNotWaitFree, ShowsOwn, ShowsStuck};
ghost use Rattle.ticklab_verdicts.specs.Sought.{AreLawful, IsLawful, IsSound, sought_by};
ghost use Rattle.ticklab_files.specs.Stops.{IfRefused, IsRefusal};
ghost use Rattle.ticklab_verdicts.specs.prover.Searches.{AreEndsSearchedBy, IsOwnShowable, IsShowable};

mod loops;
mod wording;

use crate::exploring::{break_line, fault_said, limit_shown, states_shown, trap_line};
use crate::extent::{extent_of, kind_of};
use crate::progress::Progress;
use crate::search::{Answered, Search, Task};
use crate::shorter::shorter_found;
use base::{NoMemory, set_at};
use language_questions::{Condition, Ends, EndsLines};
use loops::loop_shown;
pub use loops::loop_text;
use searches_explore::{
    Conditions, Fault, Known, Limits, Liveness, MustStop, OwnSteps, Verdict, explore_ends,
};
use std::alloc::Global;
use ticklab_check::named_by;
use ticklab_files::{
    AnswerFault, DONE, Files, LabFault, NoAnswer, Response, bytes_of, never_lines, settled,
    spelled_program_of,
};
use ticklab_json::Loop;
use ticklab_line::{Output, Steps};
pub use wording::push_processes;
use wording::{
    endless_line, ends_line, no_process_line, not_alone_line, not_wait_free_line, stuck_line,
};

/// Whether those processes of the program end that its file asks, or this one, under this condition. Under the fair one it is
/// asked whether they still can after every schedule, and whether they do where each process that runs steps again and again.
/// It is found out as far as `limits` let a search go. A trap is told first, and a line `#! never` of the file that breaks, or one of these texts that are
/// the same. The progress is told of each search.
pub fn explored_ends<F: Files, W: Progress>(
    alloc: Global,
    files: &mut F,
    progress: &mut W,
    file: &str,
    never: &[&str],
    process: Option<u8>,
    condition: Condition,
    limits: Limits,
    steps: Steps,
    output: Output,
) -> Result<Response, LabFault>
    ensures ok { IfOk result (ExploresEnds F.Reads F.ReadsInput (hearing W.begins W.finds W.hears) files.old files.new progress.old progress.new
        file.now (texts_of never.now) process condition limits steps output) }
    ensures err { IfErr result (IsOfFile (IsUnread F.Reads F.ReadsInput F.Lists F.Fails) file.now) }
{
    let input = bytes_of(alloc, files, file)?;
    let searched = all_ends(
        alloc,
        file,
        never,
        input.as_slice(),
        process,
        condition,
        limits,
        steps,
        output,
        progress,
    );
    Ok(concluded(alloc, progress, searched)?)
}

// The answer, or the report of what is refused; the search is over.
fn concluded<W: Progress>(
    alloc: Global,
    progress: &W,
    searched: Result<Response, NoAnswer>,
) -> Result<Response, AnswerFault>
    ensures { IfOk result (λ response. MatchResult searched (λ given. response ≡ given) (IsRefusal response)) }
{
    let response = settled(alloc, searched)?;
    progress.end();
    Ok(response)
}

fn all_ends<W: Progress>(
    alloc: Global,
    name: &str,
    never: &[&str],
    input: &[u8],
    process: Option<u8>,
    condition: Condition,
    limits: Limits,
    steps: Steps,
    output: Output,
    progress: &mut W,
) -> Result<Response, NoAnswer>
    ensures ok { IfOk result (λ response. IsHeard (hearing W.begins W.finds W.hears) progress.old progress.new
        (IsEndsExplored steps name.now (texts_of never.now) process condition limits output input.now response)) }
    ensures refused { IfErr result (λ stop. IfRefused stop (λ report. IsEndsRefused name.now (texts_of never.now) process input.now report × (progress.old ≡ progress.new))) }
{
    let (spelled, questions) = spelled_program_of(alloc, name, input)?;
    let line = line_of(condition, questions.ends);
    let named = asked_of(alloc, line, process, spelled.program.processes())?;
    let lines = never_lines(alloc, name, input, &spelled.program, questions, never)?;
    let search = Search {
        alloc,
        spelled: &spelled,
        input,
        lines: &lines,
        output,
    };
    let task = Task { search, limits };
    Ok(ends_found(&task, under(condition, named), steps, progress)?)
}

/// What is found of the program where these processes are asked for.
pub fn ends_found<W: Progress>(
    task: &Task<'_, '_>,
    asked: Conditions,
    steps: Steps,
    progress: &mut W,
) -> Answered
    requires sound { IsSound task.now.search }
    ensures { IfOk result (λ response. IsHeard (hearing W.begins W.finds W.hears) progress.old progress.new (IsEndsFound (sought_by task.now.search) task.now.limits asked steps response)) }
{
    match steps {
        Steps::Single => found_by(task, asked, false, progress),
        Steps::Merged => found_by(task, asked, true, progress),
        Steps::MergedFirst => found_first(task, asked, progress),
    }
}

// By steps of one kind alone.
fn found_by<W: Progress>(
    task: &Task<'_, '_>,
    asked: Conditions,
    is_merged: bool,
    progress: &mut W,
) -> Answered
    requires sound { IsSound task.now.search }
    ensures { IfOk result (λ response. IsHeard (hearing W.begins W.finds W.hears) progress.old progress.new
        (IsEndsFoundBy (sought_by task.now.search) task.now.limits asked is_merged response)) }
{
    let explored = explored_by(task, asked, is_merged, progress)?;
    shown(task, asked, is_merged, explored)
}

// By merged steps first, and by single ones where these find a fault.
fn found_first<W: Progress>(task: &Task<'_, '_>, asked: Conditions, progress: &mut W) -> Answered
    requires sound { IsSound task.now.search }
    ensures { IfOk result (λ response. IsHeard (hearing W.begins W.finds W.hears) progress.old progress.new (IsEndsFoundFirst (sought_by task.now.search) task.now.limits asked response)) }
{
    let explored = explored_by(task, asked, true, progress)?;
    match explored {
        Verdict::Found { states, found } => shorter_found(task, states, found, progress),
        Verdict::Nowhere { states, known } => known_shown(task, asked, true, states, known),
        Verdict::Limit { states } => limit_shown(task, true, states),
    }
}

// By merged steps, or by single ones.
fn explored_by<W: Progress>(
    task: &Task<'_, '_>,
    asked: Conditions,
    is_merged: bool,
    progress: &mut W,
) -> Result<Verdict<Fault, Known>, NoMemory>
    ensures { IfOk result (AreEndsSearchedBy is_merged (resolved task.now.search.spelled.now.program)
        task.now.search.lines.now.properties.items asked task.now.limits (hearing W.begins W.finds W.hears) progress.old progress.new) }
{
    let Task { search, limits } = *task;
    let alloc = search.alloc;
    let program = &search.spelled.program;
    let properties = search.lines.properties.as_slice();
    let kind = kind_of(is_merged);
    progress.begin(is_merged);
    let explored = explore_ends(alloc, program, properties, asked, kind, limits, progress)?;
    Ok(explored)
}

// The line of this condition.
fn line_of(condition: Condition, lines: EndsLines) -> Option<Ends>
    ensures { result ≡ line_of condition lines }
{
    match condition {
        Condition::Fair => lines.fair,
        Condition::WaitFree => lines.wait_free,
        Condition::Alone => lines.alone,
    }
}

// These, under this condition alone.
fn under(condition: Condition, asked: MustStop) -> Conditions
    ensures { result ≡ under condition asked }
{
    let nobody = MustStop::Each([false; 6]);
    let nobody = Conditions {
        fair: nobody,
        wait_free: nobody,
        alone: nobody,
    };
    match condition {
        Condition::Fair => Conditions {
            fair: asked,
            ..nobody
        },
        Condition::WaitFree => Conditions {
            wait_free: asked,
            ..nobody
        },
        Condition::Alone => Conditions {
            alone: asked,
            ..nobody
        },
    }
}

// Who is asked for, of so many processes; a file says this of it.
fn asked_of(
    alloc: Global,
    line: Option<Ends>,
    process: Option<u8>,
    n: u8,
) -> Result<MustStop, NoAnswer>
    ensures asked { IfOk result (λ asked. asked ≡ asked_by line process) }
    ensures there { IfOk result (λ asked. IsThere n process) }
    ensures refused { IfErr result (λ stop. IfRefused stop (IsPast n process)) }
{
    match process {
        None => Ok(asked_in(line)),
        Some(process) if process < n => {
            let mut marks = [false; 6];
            set_at(&mut marks, usize::from(process), true);
            Ok(MustStop::Each(marks))
        }
        Some(process) => {
            let line = no_process_line(alloc, process)?;
            Err(NoAnswer::Refused(line.into_bytes()))
        }
    }
}

/// Who is asked for by a line of a file; all, where there is none.
pub fn asked_in(line: Option<Ends>) -> MustStop
    ensures { result ≡ asked_by line None }
{
    match line {
        None => MustStop::All,
        Some(_) => named_by(line),
    }
}

// The answer that tells what was explored. What `explore` would find it tells in the same way.
fn shown(
    task: &Task<'_, '_>,
    asked: Conditions,
    is_merged: bool,
    explored: Verdict<Fault, Known>,
) -> Answered
    requires sound { IsSound task.now.search }
    requires schedule { IfFault explored (IsLawful task.now.search) }
    requires line { IfBroken explored (λ schedule line v. line < length task.now.search.lines.now.places.items) }
    requires shown { IfKnown explored (IsShowable task.now.search) }
    ensures { IfOk result (ShowsEnds is_merged asked (sought_by task.now.search) task.now.limits explored) }
{
    match explored {
        Verdict::Found { found: fault, .. } => {
            let trap = trap_line(is_merged);
            fault_said(&task.search, &fault, trap, break_line(is_merged))
        }
        Verdict::Nowhere { states, known } => known_shown(task, asked, is_merged, states, known),
        Verdict::Limit { states } => limit_shown(task, is_merged, states),
    }
}

// Nothing is wrong in so many states, and this is known of ends.
fn known_shown(
    task: &Task<'_, '_>,
    asked: Conditions,
    is_merged: bool,
    states: u32,
    known: Known,
) -> Answered
    requires sound { IsSound task.now.search }
    requires shown { IsShowable task.now.search known }
    ensures { IfOk result (ShowsKnown is_merged asked (sought_by task.now.search) states known) }
{
    let Known {
        fair,
        wait_free,
        alone,
    } = known;
    let search = &task.search;
    match fair {
        Liveness::Stuck {
            schedule,
            lead_in,
            cycle,
        } => {
            let looped = Loop {
                schedule: &schedule,
                lead_in: &lead_in,
                cycle: &cycle,
            };
            stuck_shown(search, asked.fair, is_merged, looped)
        }
        Liveness::Endless { prefix, cycle } => endless_shown(search, asked.fair, &prefix, &cycle),
        Liveness::Ends => own_shown(search, asked, is_merged, states, &wait_free, &alone),
    }
}

// The same where they end under fair schedules, and this is known of their own steps.
fn own_shown(
    search: &Search<'_, '_>,
    asked: Conditions,
    is_merged: bool,
    states: u32,
    wait_free: &OwnSteps,
    alone: &OwnSteps,
) -> Answered
    requires sound { IsSound search.now }
    requires wait_free { IsOwnShowable search.now wait_free.now }
    requires alone { IsOwnShowable search.now alone.now }
    ensures { IfOk result (ShowsOwn is_merged asked (sought_by search.now) states wait_free.now alone.now) }
{
    match wait_free {
        OwnSteps::ForEver {
            process,
            prefix,
            cycle,
        } => not_wait_free_shown(search, asked, *process, prefix, cycle),
        OwnSteps::Stop => alone_shown(search, asked, is_merged, states, alone),
    }
}

// The same where they are wait-free.
fn alone_shown(
    search: &Search<'_, '_>,
    asked: Conditions,
    is_merged: bool,
    states: u32,
    alone: &OwnSteps,
) -> Answered
    requires sound { IsSound search.now }
    requires alone { IsOwnShowable search.now alone.now }
    ensures { IfOk result (ShowsOwn is_merged asked (sought_by search.now) states Stop alone.now) }
{
    match alone {
        OwnSteps::ForEver {
            process,
            prefix,
            cycle,
        } => not_alone_shown(search, asked, *process, prefix, cycle),
        OwnSteps::Stop => ends_shown(search, asked, is_merged, states),
    }
}

// They can't end any more, and these steps repeat for ever.
fn stuck_shown(
    search: &Search<'_, '_>,
    asked: MustStop,
    is_merged: bool,
    looped: Loop<'_>,
) -> Answered
    requires sound { IsSound search.now }
    requires lawful { AreLawful (resolved search.now.spelled.now.program).processes looped }
    ensures { IfOk result (ShowsStuck (sought_by search.now) is_merged asked looped.entry.schedule.now looped.entry.lead_in.now looped.entry.cycle.now) }
{
    let says = stuck_line(search.alloc, is_merged, search.lines.places.len(), asked)?;
    loop_shown(search, "stuck", &says, looped)
}

// They can end, and where the cycle is gone round for ever they don't.
fn endless_shown(search: &Search<'_, '_>, asked: MustStop, prefix: &[u8], cycle: &[u8]) -> Answered
    requires sound { IsSound search.now }
    requires prefix { IsLawful search.now prefix.now }
    requires cycle { IsLawful search.now cycle.now }
    ensures { IfOk result (ShowsEndless (sought_by search.now) asked prefix.now cycle.now) }
{
    let says = endless_line(search.alloc, search.lines.places.len(), asked)?;
    loop_shown(search, "endless", &says, cycle_after(prefix, cycle))
}

// Where the cycle is gone round for ever this process doesn't end, though it steps again and again.
fn not_wait_free_shown(
    search: &Search<'_, '_>,
    asked: Conditions,
    process: u8,
    prefix: &[u8],
    cycle: &[u8],
) -> Answered
    requires sound { IsSound search.now }
    requires prefix { IsLawful search.now prefix.now }
    requires cycle { IsLawful search.now cycle.now }
    ensures { IfOk result (ShowsNotWaitFree (sought_by search.now) asked process prefix.now cycle.now) }
{
    let says = not_wait_free_line(search.alloc, search.lines.places.len(), asked, process)?;
    loop_shown(search, "not_wait_free", &says, cycle_after(prefix, cycle))
}

// Where the cycle is gone round for ever this process doesn't end, though it steps alone.
fn not_alone_shown(
    search: &Search<'_, '_>,
    asked: Conditions,
    process: u8,
    prefix: &[u8],
    cycle: &[u8],
) -> Answered
    requires sound { IsSound search.now }
    requires prefix { IsLawful search.now prefix.now }
    requires cycle { IsLawful search.now cycle.now }
    ensures { IfOk result (ShowsNotAlone (sought_by search.now) asked process prefix.now cycle.now) }
{
    let says = not_alone_line(search.alloc, search.lines.places.len(), asked, process)?;
    loop_shown(search, "not_alone", &says, cycle_after(prefix, cycle))
}

// The cycle comes right behind the prefix.
fn cycle_after<'a>(prefix: &'a [u8], cycle: &'a [u8]) -> Loop<'a>
    ensures schedule { result.schedule.now ≡ prefix.now }
    ensures lead_in { result.lead_in.now ≡ [] }
    ensures cycle { result.cycle.now ≡ cycle.now }
{
    Loop {
        schedule: prefix,
        lead_in: &[],
        cycle,
    }
}

// They end, each under its condition.
fn ends_shown(search: &Search<'_, '_>, asked: Conditions, is_merged: bool, states: u32) -> Answered
    ensures { IfOk result (ShowsAllEnd (sought_by search.now) is_merged asked states) }
{
    let extent = extent_of(search, is_merged, states);
    let says = ends_line(search.alloc, asked, extent)?;
    states_shown(search, DONE, "ends", extent, &says, "")
}
