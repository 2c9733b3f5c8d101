//! What a terminal is told besides an answer: which command says more about a refusal.
ghost use Rattle.std.specs.Prelude.{◌≡◌, IfOk};
ghost use Rattle.std.specs.Process.{exit_status};
ghost use Rattle.ticketc_line.specs.Asked.{plain_asked, plain_command, plain_request};
ghost use Rattle.ticketc_answers.specs.Advice.{advice_of, advice_on, command_advice, line_advice, request_advice, text_of};

use crate::fault::EngineFault;
use crate::whole::words_of;
use std::alloc::Global;
use std::env::Args;
use std::io;
use std::process::ExitCode;
use ticketc_line::{Command, LineFault, Request, asked};

const OF_INPUT: &str =
    "ticketc: if the input can't be read, `ticklab explain -` says where and why, on the same input";

const OF_SCHEDULE: &str =
    "ticketc: if the input or the schedule can't be read, `ticklab explain - SCHEDULE` says where and why, on the same input";

const OF_STAMPS: &str = "ticketc: `ticklab labels N STAMPS` says where and why";

const OF_STANDARD_INPUT: &str =
    "ticketc: no command takes a file: it reads its standard input, as in `ticketc check < lock.tick`";

/// What a terminal is told about an answer with this status, which the words asked for. It is told of refusals
/// alone. Its line has no end.
pub fn advice(
    alloc: Global,
    given: io::Result<Args>,
    status: ExitCode,
) -> Result<Option<&'static str>, EngineFault>
    ensures { IfOk result (λ told. text_of told ≡ advice_of given (exit_status status)) }
{
    let Ok(given) = given else {
        return Ok(None);
    };
    let words = words_of(alloc, given)?;
    let asked = asked(alloc, words.as_slice())?;
    if status == ExitCode::from(1) || status == ExitCode::from(2) {
        Ok(Some(advice_on(asked)))
    } else {
        Ok(None)
    }
}

fn advice_on(asked: Result<Request<&str>, LineFault>) -> &'static str
    ensures { result.now ≡ advice_on (plain_asked asked.entry) }
{
    match asked {
        Ok(request) => request_advice(request),
        Err(fault) => line_advice(fault),
    }
}

fn request_advice(request: Request<&str>) -> &'static str
    ensures { result.now ≡ request_advice (plain_request request.entry) }
{
    match request {
        Request::Alone(command) => command_advice(command),
        Request::Run(_) => OF_INPUT,
    }
}

fn command_advice(command: Command<&str>) -> &'static str
    ensures { result.now ≡ command_advice (plain_command command.entry) }
{
    match command {
        Command::Order(_) => OF_STAMPS,
        Command::Check | Command::Emit => OF_INPUT,
        Command::Source(_) | Command::Code(_) | Command::Lift(_) | Command::Drop(_) => OF_SCHEDULE,
    }
}

fn line_advice(fault: LineFault) -> &'static str
    ensures { result.now ≡ line_advice fault }
{
    match fault {
        LineFault::Usage => OF_STANDARD_INPUT,
        LineFault::Processes => OF_STAMPS,
    }
}
