//! The texts that the commands on a program answer.
ghost use Rattle.std.specs.Prelude.{false, IfErr, IfOk};
ghost use Rattle.ticketc_refusals.specs.Refusals.{IsProgramRefused, ProgramIn};
ghost use Rattle.ticketc_answers.specs.Inputs.{Is, OnProgram, Refuses};
ghost use Rattle.ticketc_answers.specs.Programs.{check_answer, source_answer};
ghost use Rattle.ticketc_answers.specs.Stop.{IfTold, Tells};

use crate::stop::{Reply, Stop};
use language_schedules::read_schedule;
use std::alloc::Global;
use tick_kinds::Program;
use tick_play::play_source;
use tick_syntax::print;
use ticketc_refusals::program_in;

/// The printed form of an accepted program.
pub fn check_text(alloc: Global, input: &[u8]) -> Reply
    ensures { Tells false (OnProgram (Is check_answer) input.now) result }
{
    let program = program_of(alloc, input)?;
    printed(alloc, &program)
}

/// The report of the run of the accepted program that an input is, under the schedule that a text spells.
pub fn source_text(alloc: Global, input: &[u8], schedule: &str) -> Reply
    ensures { Tells false (OnProgram (Is (source_answer schedule.now)) input.now) result }
{
    let program = program_of(alloc, input)?;
    played(alloc, &program, schedule)
}

fn printed(alloc: Global, program: &Program) -> Reply
    ensures { Tells false (Is check_answer program.now) result }
{
    let text = print(alloc, program.tree())?;
    Ok(text)
}

fn played(alloc: Global, program: &Program, schedule: &str) -> Reply
    ensures { Tells false (Is (source_answer schedule.now) program.now) result }
{
    let steps = read_schedule(alloc, schedule, program.processes())?;
    let text = play_source(alloc, program, steps.as_slice())?;
    Ok(text)
}

/// The accepted program that an input is.
pub fn program_of(alloc: Global, input: &[u8]) -> Result<Program, Stop>
    ensures ok { IfOk result (λ program. ProgramIn input.now program) }
    ensures refused { IfErr result (IfTold false (Refuses (IsProgramRefused input.now))) }
{
    match program_in(alloc, input)? {
        Ok(program) => Ok(program),
        Err(refusal) => Err(Stop::Refused(refusal)),
    }
}
