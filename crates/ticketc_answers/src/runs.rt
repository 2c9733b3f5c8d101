//! A run on threads: the code of the input is run, and the text of its outcome is the answer. The run uses up
//! the `OneRun` that makes it, so it is made once.
ghost use Rattle.std.specs.Prelude.{true};
ghost use Rattle.ticketc_answers.specs.Codes.{OnCode};
ghost use Rattle.ticketc_answers.specs.Runs.{IsOutcomeOf};
ghost use Rattle.ticketc_answers.specs.Stop.{Tells};

use crate::codes::runnable_code;
use crate::stop::Reply;
use code_core::Code;
use std::alloc::Global;
use tick_merge::OneRun;
use tick_play::outcome_text;

/// How many values a process gives out at most.
const OUTPUTS: u32 = 10_000;

/// What a run of the code that an input is, or of the code of the program that it is, lets others see.
pub fn run_text<O: OneRun>(alloc: Global, one: O, input: &[u8], turns: u64) -> Reply
    ensures { Tells true (OnCode (IsOutcomeOf turns) input.now) result }
{
    let code = runnable_code(alloc, input)?;
    told(alloc, one, &code, turns)
}

fn told<O: OneRun>(alloc: Global, one: O, code: &Code, turns: u64) -> Reply
    ensures { Tells true (IsOutcomeOf turns code.now) result }
{
    let outcome = one.run_once(code, turns, OUTPUTS)?;
    let text = outcome_text(alloc, &outcome)?;
    Ok(text)
}
