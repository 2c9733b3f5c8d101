ghost use Rattle.std.specs.Prelude.{◌≡◌, List, String, length, map, IfOk, string_bytes};
ghost use Rattle.std.specs.Global.{Global};
ghost use Rattle.std.specs.List.{sum_by};
ghost use Rattle.base.specs.Observables.{RunObservables};
ghost use Rattle.tick_play.specs.Outcome.{outcome_lines};
ghost use Rattle.searches_hunt.specs.Tallies.{AreCounted, AreRuns};

use crate::tallying::counting::{Counted, count_texts};
use base::NoMemory;
use code_core::Code;
use std::alloc::Global;
use tick_merge::{RunFault, Runner};
use tick_play::outcome_text;

/// How many values a process gives out at most.
const OUTPUTS: u32 = 10_000;

// What the next run lets others see, as a text.
fn next_outcome<M: Runner>(
    alloc: Global,
    runner: &mut M,
    code: &Code,
    turns: u64,
) -> Result<String, RunFault>
    ensures { IfOk result (λ text. (outcome : RunObservables) × M.Ran runner.old code.now turns 10000 outcome runner.new × (string_bytes text ≡ outcome_lines outcome)) }
{
    let outcome = runner.run_next(code, turns, OUTPUTS)?;
    match outcome_text(alloc, &outcome) {
        Ok(text) => Ok(text),
        Err(NoMemory) => Err(RunFault::NoMemory),
    }
}

// The outcomes of so many runs, one after the other.
fn outcomes<M: Runner>(
    alloc: Global,
    runner: &mut M,
    code: &Code,
    times: u32,
    turns: u64,
) -> Result<Vec<String>, RunFault>
    ensures { IfOk result (λ texts. (seen : List RunObservables) × (length seen ≡ times)
        × AreRuns (λ old. M.Ran old code.now turns 10000) runner.old seen runner.new × (map string_bytes texts.items ≡ map outcome_lines seen)) }
{
    let mut texts = Vec::new(alloc);
    for _ in 0..times {
        let text = next_outcome(alloc, runner, code, turns)?;
        texts.reserve(1)?;
        texts.push_reserved(text);
    }
    Ok(texts)
}

/// Has a code run so many times, each process for at most `turns` instructions, and counts equal
/// outcomes: the commonest first, and those that came equally often in order of their texts. Each call of
/// the runner counts once, and there are just so many.
pub fn tally<M: Runner>(
    alloc: Global,
    runner: &mut M,
    code: &Code,
    times: u32,
    turns: u64,
) -> Result<Vec<Counted>, RunFault>
    ensures times { IfOk result (λ all. sum_by (λ c. c.times) all.items ≡ times) }
    ensures counted { IfOk result (λ all. (seen : List RunObservables) × (length seen ≡ times)
        × AreRuns (λ old. M.Ran old code.now turns 10000) runner.old seen runner.new × AreCounted seen all.items) }
{
    let texts = outcomes(alloc, runner, code, times, turns)?;
    Ok(count_texts(alloc, texts)?)
}
