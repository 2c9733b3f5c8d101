//! The response to a command on an input, with one case for each command.
ghost use Rattle.std.specs.Prelude.{false};
ghost use Rattle.ticketc_line.specs.Asked.{Fits, plain_command};
ghost use Rattle.ticketc_line.specs.declared.command.Request.TheVariants.{Alone, Run};
ghost use Rattle.ticketc_answers.specs.Commands.{CommandAnswers};
ghost use Rattle.ticketc_answers.specs.Stop.{Tells};
ghost use Rattle.ticketc_answers.specs.prover.Responses.{IsAnswered};

use crate::codes::{code_report, emit_text};
use crate::fault::EngineFault;
use crate::maps::{Way, carried_text};
use crate::order::order_text;
use crate::program::{check_text, source_text};
use crate::response::{StatusText, stop_response};
use crate::runs::run_text;
use crate::stop::Reply;
use std::alloc::Global;
use tick_merge::OneRun;
use ticketc_line::Command;

/// The whole response to a command, by its input.
pub fn response_to(
    alloc: Global,
    command: Command<&str>,
    input: &[u8],
) -> Result<StatusText, EngineFault>
    requires fits { Fits (plain_command command) }
    ensures { IsAnswered (Alone (plain_command command.entry)) input.now result }
{
    match text_answer(alloc, command, input) {
        Ok(text) => Ok(StatusText { status: 0, text }),
        Err(stop) => stop_response(alloc, stop),
    }
}

fn text_answer(alloc: Global, command: Command<&str>, input: &[u8]) -> Reply
    requires fits { Fits (plain_command command) }
    ensures { Tells false (CommandAnswers (plain_command command.entry) input.now) result }
{
    match command {
        Command::Order(n) => order_text(alloc, n, input),
        Command::Check => check_text(alloc, input),
        Command::Emit => emit_text(alloc, input),
        Command::Source(schedule) => source_text(alloc, input, schedule),
        Command::Code(schedule) => code_report(alloc, input, schedule),
        Command::Lift(schedule) => carried_text(alloc, Way::Lift, input, schedule),
        Command::Drop(schedule) => carried_text(alloc, Way::Drop, input, schedule),
    }
}

/// The whole response to a run on threads of the code that an input has, which `one` makes.
pub fn run_response<O: OneRun>(
    alloc: Global,
    one: O,
    turns: u64,
    input: &[u8],
) -> Result<StatusText, EngineFault>
    ensures { IsAnswered (Run turns) input.now result }
{
    match run_text(alloc, one, input, turns) {
        Ok(text) => Ok(StatusText { status: 0, text }),
        Err(stop) => stop_response(alloc, stop),
    }
}
