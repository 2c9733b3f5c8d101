//! The whole program, from the words that the host gave to the exit status. `main` only calls it.
ghost use Rattle.std.specs.Prelude.{◌≡◌, IfErr, IfOk};
ghost use Rattle.std.specs.Process.{exit_status};
ghost use Rattle.std.specs.Vec.Iter.{into_iter_items};
ghost use Rattle.ticklab_answers.specs.Answers.{GivesWords};
ghost use Rattle.ticklab_files.specs.Faults.{IsOfMemory, IsOfWords, IsUnread, status_of};
ghost use Rattle.ticklab_verdicts.specs.Hearing.{hearing};
ghost use Rattle.ticklab_answers.specs.Colours.{colours_for};
ghost use Rattle.ticklab_answers.specs.Serving.{Ends, Exits, Fails};

use crate::colours::colours_for;
use crate::commands::{is_data, response_to};
use crate::host::Host;
use crate::writing::told;
use searches_hunt::Trials;
use std::alloc::{AllocError, Global};
use std::env::Args;
use std::io;
use std::io::Write;
use std::process::ExitCode;
use tick_merge::Runner;
use ticklab_check::Checks;
use ticklab_files::{Files, LabFault};
use ticklab_line::asked;
use ticklab_verdicts::Progress;

/// Answers the words of the command line, as `std::env::args` gave them. Why there is no answer is told on
/// standard error. Runs of a code are made by the runner alone, random ones of a program are tried by `trials`, and files
/// are checked by `checks`.
pub fn ended<F: Files, O: Write, T: Write, M: Runner, S: Trials, C: Checks, W: Progress>(
    alloc: Global,
    host: &mut Host<F, O, T>,
    runner: &mut M,
    trials: &S,
    checks: &C,
    progress: &mut W,
    given: io::Result<Args>,
) -> ExitCode
    ensures { Exits (Ends F.Reads F.ReadsInput F.Lists M.Ran (hearing W.begins W.finds W.hears) host.old.files host.new.files runner.old runner.new progress.old progress.new (record { out = O.contents host.old.out; err = T.contents host.old.err }) (record { out = O.contents host.new.out; err = T.contents host.new.err }) host.old.version.now host.old.colours given) (Fails F.Reads F.ReadsInput F.Lists M.Ran (hearing W.begins W.finds W.hears) host.old.files host.new.files runner.old runner.new progress.old progress.new (IsUnread F.Reads F.ReadsInput F.Lists F.Fails) host.old.version.now host.old.colours given) (exit_status result) }
{
    let words = match words_of(alloc, given) {
        Ok(words) => words,
        Err(fault) => return failed(&mut host.err, &fault),
    };
    let line = match asked(alloc, words.as_slice(), host.version) {
        Ok(line) => line,
        Err(error) => return failed(&mut host.err, &LabFault::from(error)),
    };
    let colours = colours_for(host.colours, is_data(&line));
    match response_to(alloc, host, runner, trials, checks, progress, line) {
        Ok(response) => {
            match told(alloc, &mut host.out, &mut host.err, colours, &response) {
                Ok(status) => ExitCode::from(status),
                Err(fault) => failed(&mut host.err, &fault),
            }
        }
        Err(fault) => failed(&mut host.err, &fault),
    }
}

// Tells why there is no answer. Where standard error can't be written the status alone tells it.
fn failed<T: Write>(err: &mut T, fault: &LabFault) -> ExitCode
    ensures { exit_status result ≡ status_of fault.now }
{
    let _written = writeln!(err, "ticklab: {fault}");
    ExitCode::from(fault.status())
}

fn words_of(alloc: Global, given: io::Result<Args>) -> Result<Vec<String>, LabFault>
    ensures ok { IfOk result (GivesWords given) }
    ensures err { IfErr result (IsOfWords given) }
{
    match given {
        Ok(given) => words_in(alloc, given),
        Err(error) => Err(LabFault::of_words(error)),
    }
}

fn words_in(alloc: Global, given: Args) -> Result<Vec<String>, LabFault>
    ensures ok { IfOk result (λ words. words.items ≡ into_iter_items given) }
    ensures err { IfErr result IsOfMemory }
{
    let mut words = Vec::new(alloc);
    for word in given {
        words.reserve(1)?;
        words.push_reserved(word);
    }
    Ok(words)
}
