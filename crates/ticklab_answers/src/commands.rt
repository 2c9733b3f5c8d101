//! The answer to a command line: each command reads its files and makes its answer.
ghost use Rattle.std.specs.Prelude.{◌≡◌, ℕ, IfErr, IfOk, List};
ghost use Rattle.ticklab_line.specs.Commands.{plain_request};
ghost use Rattle.ticklab_answers.specs.Answers.{IsOfLine, RespondsTo, form_of, is_data, is_drawn, limits_of};
ghost use Rattle.ticklab_answers.specs.Hearing.{WritesAll};
ghost use Rattle.ticklab_files.specs.Faults.{IsUnread};
ghost use Rattle.ticklab_verdicts.specs.Hearing.{hearing};

mod checking;
mod explaining;
mod labels;

use crate::host::Host;
pub use checking::checked;
pub use explaining::explained;
pub use labels::labelled;
use searches_explore::Limits;
use searches_hunt::Trials;
use std::alloc::Global;
use std::io::Write;
use tick_merge::Runner;
use ticklab_check::Checks;
use ticklab_files::{Files, Form, LabFault, Response, help, no_command};
use ticklab_line::{Line, Output, Request};
use ticklab_runs::{Telling, Tracing, told};
use ticklab_verdicts::{Progress, explored, explored_ends, hunted, lassoed, plan_of, tallied};

/// The answer to a command line. Runs of a code are made by the runner alone, random ones of a program are tried by
/// `trials`, and files are checked by `checks`. What they come to is written before the answer is there; nothing else is.
pub fn response_to<F: Files, O: Write, T, M: Runner, S: Trials, C: Checks, W: Progress>(
    alloc: Global,
    host: &mut Host<F, O, T>,
    runner: &mut M,
    trials: &S,
    checks: &C,
    progress: &mut W,
    line: Line<'_>,
) -> Result<Response, LabFault>
    ensures ok { IfOk result (λ response. (written : List (List ℕ))
        × RespondsTo F.Reads F.ReadsInput F.Lists M.Ran (hearing W.begins W.finds W.hears) host.old.files host.new.files runner.old runner.new progress.old progress.new line.entry written response
        × WritesAll O.contents host.old host.new written) }
    ensures err { IfErr result (IsOfLine (IsUnread F.Reads F.ReadsInput F.Lists F.Fails) line.entry) }
{
    let (request, output) = match line {
        Line::Request(request, output) => (request, output),
        Line::Help(text) => return Ok(help(alloc, text)),
        Line::Version(text) => return Ok(help(alloc, text)),
        Line::Refused(text) => return Ok(no_command(alloc, text)),
    };
    let form = form_of(output);
    let files = &mut host.files;
    // (one arm a command, and nothing else)
    match request {
        Request::Explore {
            file,
            never,
            limit,
            memory,
            steps,
        } => {
            let limits = limits_of(limit, memory);
            explored(alloc, files, progress, file, &never, limits, steps, output)
        }
        Request::Ends {
            file,
            never,
            process,
            condition,
            limit,
            memory,
            steps,
        } => {
            let never = never.as_slice();
            let limits = limits_of(limit, memory);
            explored_ends(
                alloc, files, progress, file, never, process, condition, limits, steps, output,
            )
        }
        Request::Check {
            paths,
            limit,
            memory,
            jobs,
        } => {
            let limits = limits_of(limit, memory);
            let checks = checks.with_jobs(jobs);
            checked(alloc, host, &checks, &paths, limits, form)
        }
        Request::Lasso {
            file,
            prefix,
            cycle,
        } => lassoed(alloc, files, file, prefix, cycle),
        Request::Hunt {
            file,
            never,
            seed,
            runs,
            from,
            steps,
            is_uniform,
            jobs,
        } => {
            let plan = plan_of(seed, runs, steps, is_uniform);
            let trials = trials.with_jobs(jobs);
            hunted(alloc, files, &trials, file, &never, plan, from, output)
        }
        Request::Runs { file, times, turns } => tallied(alloc, files, runner, file, times, turns),
        Request::Trace { run, is_shared } => {
            let tracing = Tracing { form, is_shared };
            told(alloc, files, &run, &Telling::Trace(tracing))
        }
        Request::Draw(run, drawing) => told(alloc, files, &run, &Telling::Picture(drawing)),
        Request::Page(run, paging) => told(alloc, files, &run, &Telling::Page(paging)),
        Request::Explain { file, schedule } => explained(alloc, files, file, schedule, form),
        Request::Labels { processes, moves } => labelled(alloc, processes, moves),
    }
}

// So many states, in so many megabytes.
fn limits_of(states: u32, megabytes: u32) -> Limits
    ensures { result ≡ limits_of states megabytes }
{
    Limits {
        states,
        bytes: u64::from(megabytes) * 1_000_000,
    }
}

// The form of an answer that has no schedule of its own.
fn form_of(output: Output) -> Form
    ensures { result ≡ form_of output }
{
    match output {
        Output::Text | Output::ScheduleAlone => Form::Text,
        Output::Json => Form::Json,
    }
}

/// Whether the answer is for programs, and no text for people: JSON, SVG or HTML.
pub fn is_data(line: &Line<'_>) -> bool
    ensures { result ≡ is_data line.now }
{
    match line {
        Line::Request(request, output) => is_drawn(request) || matches!(output, Output::Json),
        Line::Help(_) | Line::Version(_) | Line::Refused(_) => false,
    }
}

// Whether a picture or a page is asked for.
fn is_drawn(request: &Request<&str, Vec<&str>>) -> bool
    ensures { result ≡ is_drawn (plain_request request.now) }
{
    matches!(
        request,
        Request::Draw(..) | Request::Page(..) | Request::Labels { .. }
    )
}
