//! The texts that the commands on a code, and on the code of a program, answer.
ghost use Rattle.std.specs.Prelude.{◌≡◌, false, IfErr, IfOk};
ghost use Rattle.ticketc_refusals.specs.Refusals.{CodeIn, IsCodeRefused};
ghost use Rattle.ticketc_answers.specs.Codes.{IsCodeOf, IsLowered, IsNoCode, IsNotLowered, OnCode, OnLowered, code_answer, code_of, emit_answer};
ghost use Rattle.ticketc_answers.specs.Inputs.{Is, Refuses};
ghost use Rattle.ticketc_answers.specs.Stop.{IfTold, Tells};

use crate::program::program_of;
use crate::stop::{Reply, Stop};
use code_core::Code;
use code_text::write_code;
use language_schedules::read_schedule;
use std::alloc::Global;
use tick_kinds::Program;
use tick_lower::lower;
use tick_play::play_code;
use ticketc_refusals::{begins_code, code_in};

/// The text of the code that an accepted program becomes.
pub fn emit_text(alloc: Global, input: &[u8]) -> Reply
    ensures { Tells false (OnLowered (Is emit_answer) input.now) result }
{
    let code = lowered_code(alloc, input)?;
    written(alloc, &code)
}

fn written(alloc: Global, code: &Code) -> Reply
    ensures { Tells false (Is emit_answer code.now) result }
{
    let text = write_code(alloc, code)?;
    Ok(text)
}

/// The report of the run of a code, or of the code of a program, under the schedule that a text spells.
pub fn code_report(alloc: Global, input: &[u8], schedule: &str) -> Reply
    ensures { Tells false (OnCode (Is (code_answer schedule.now)) input.now) result }
{
    let code = runnable_code(alloc, input)?;
    report_of_code(alloc, &code, schedule)
}

fn report_of_code(alloc: Global, code: &Code, schedule: &str) -> Reply
    ensures { Tells false (Is (code_answer schedule.now) code.now) result }
{
    let steps = read_schedule(alloc, schedule, code.sizes().processes())?;
    let text = play_code(alloc, code, steps.as_slice())?;
    Ok(text)
}

/// The code that an input is, or the code of the program that it is.
pub fn runnable_code(alloc: Global, input: &[u8]) -> Result<Code, Stop>
    ensures code { IfOk result (λ code. IsCodeOf input.now code) }
    ensures refused { IfErr result (IfTold false (IsNoCode input.now)) }
{
    if begins_code(input) {
        read(alloc, input)
    } else {
        lowered_code(alloc, input)
    }
}

// The code that an input is.
fn read(alloc: Global, input: &[u8]) -> Result<Code, Stop>
    ensures code { IfOk result (λ code. CodeIn input.now code) }
    ensures refused { IfErr result (IfTold false (Refuses (IsCodeRefused input.now))) }
{
    match code_in(alloc, input)? {
        Ok(code) => Ok(code),
        Err(refusal) => Err(Stop::Refused(refusal)),
    }
}

// The code of the accepted program that an input is.
fn lowered_code(alloc: Global, input: &[u8]) -> Result<Code, Stop>
    ensures code { IfOk result (λ code. IsLowered input.now code) }
    ensures refused { IfErr result (IfTold false (IsNotLowered input.now)) }
{
    let (_program, code) = lowering_of(alloc, input)?;
    Ok(code)
}

/// The accepted program that an input is, with its code.
pub fn lowering_of(alloc: Global, input: &[u8]) -> Result<(Program, Code), Stop>
    ensures code { IfOk result (λ both. both.1 ≡ code_of both.0) }
    ensures lowered { IfOk result (λ both. IsLowered input.now both.1) }
    ensures refused { IfErr result (IfTold false (IsNotLowered input.now)) }
{
    let program = program_of(alloc, input)?;
    let code = lower(alloc, &program)?;
    Ok((program, code))
}
