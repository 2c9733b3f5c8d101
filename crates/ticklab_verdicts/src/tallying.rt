//! `ticklab hunt --threads`.
ghost use Rattle.std.specs.Prelude.{◌≡◌, ◌++◌, IfErr, IfOk, OnOk, string_bytes};
ghost use Rattle.ticklab_files.specs.Faults.{IsOfFile, IsUnread};
ghost use Rattle.ticklab_verdicts.specs.Lines.{count_text, count_texts};
ghost use Rattle.ticklab_files.specs.Responses.{Gives};
ghost use Rattle.ticklab_files.specs.Stops.{IfRefused};
ghost use Rattle.ticklab_verdicts.specs.Tallies.{IsTally, IsUncoded, Tallies};

use crate::counts::push_many;
use base::NoMemory;
use searches_hunt::{Counted, tally};
use std::alloc::{AllocError, Global};
use std::fmt::Write;
use tick_merge::Runner;
use ticklab_files::{
    DONE, Files, LabFault, NoAnswer, Response, answer, bytes_of, code_of, program_of, settled,
};

/// How often each outcome came of so many runs of the program's code, each process for at most `turns`
/// instructions. The runner makes just these.
pub fn tallied<F: Files, M: Runner>(
    alloc: Global,
    files: &mut F,
    runner: &mut M,
    file: &str,
    times: u32,
    turns: u64,
) -> Result<Response, LabFault>
    ensures ok { IfOk result (Tallies F.Reads F.ReadsInput M.Ran files.old files.new runner.old runner.new file.now times turns) }
    ensures err { IfErr result (IsOfFile (IsUnread F.Reads F.ReadsInput F.Lists F.Fails) file.now) }
{
    let input = bytes_of(alloc, files, file)?;
    let counted = runs_counted(alloc, runner, file, input.as_slice(), times, turns);
    Ok(settled(alloc, counted)?)
}

fn runs_counted<M: Runner>(
    alloc: Global,
    runner: &mut M,
    name: &str,
    input: &[u8],
    times: u32,
    turns: u64,
) -> Result<Response, NoAnswer>
    ensures ok { IfOk result (Gives 0 (IsTally M.Ran runner.old runner.new times turns input.now)) }
    ensures refused { IfErr result (λ stop. IfRefused stop (λ report. IsUncoded name.now input.now report × (runner.new ≡ runner.old))) }
{
    let program = program_of(alloc, name, input)?;
    let code = code_of(alloc, name, &program)?;
    let counts = tally(alloc, runner, &code, times, turns)?;
    let text = counts_text(alloc, times, counts.as_slice())?;
    Ok(answer(alloc, DONE, text))
}

fn counts_text(alloc: Global, times: u32, counts: &[Counted]) -> Result<String, AllocError>
    ensures { IfOk result (λ text. string_bytes text ≡ count_texts times counts.now) }
{
    let mut text = String::new(alloc);
    for counted in counts {
        push_counted(&mut text, times, counted)?;
    }
    Ok(text)
}

fn push_counted(text: &mut String, times: u32, counted: &Counted) -> Result<(), AllocError>
    ensures { OnOk result (string_bytes text.new ≡ string_bytes text.old ++ count_text times counted.now) }
{
    write!(text, "{} of ", counted.times)?;
    push_many(text, times, "run", "runs")?;
    text.push_str(":\n")?;
    text.push_str(&counted.outcome)
}
