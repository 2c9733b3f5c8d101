//! A response: the text to write, and the status that goes with it.
ghost use Rattle.std.specs.Prelude.{◌≡◌, IfErr, IfOk};
ghost use Rattle.ticketc_answers.specs.Answer.{no_processes, refused, too_long, usage};
ghost use Rattle.ticketc_answers.specs.Commands.{line_answer};
ghost use Rattle.ticketc_answers.specs.prover.Responses.{IsFaultOf, Says, SaysStop};

use crate::fault::EngineFault;
use crate::stop::Stop;
use std::alloc::{AllocError, Global};
use ticketc_line::LineFault;
use ticketc_refusals::{Refusal, line_of};

/// A text and a status, 0 to 2.
#[derive(Drop)]
pub struct StatusText {
    pub status: u8,
    pub text: String,
}

/// The response to what stops a command. Want of memory or of a thread has none.
pub fn stop_response(alloc: Global, stop: Stop) -> Result<StatusText, EngineFault>
    ensures ok { IfOk result (λ response. SaysStop response stop) }
    ensures err { IfErr result (IsFaultOf stop) }
{
    match stop {
        Stop::Refused(refusal) => Ok(refusal_response(alloc, refusal)?),
        Stop::TooLong => Ok(too_long_response(alloc)?),
        Stop::Memory => Err(EngineFault::Memory),
        Stop::Thread => Err(EngineFault::Thread),
    }
}

fn refusal_response(alloc: Global, refusal: Refusal) -> Result<StatusText, AllocError>
    ensures { IfOk result (λ response. Says response (refused refusal)) }
{
    let text = line_of(alloc, refusal)?;
    Ok(StatusText { status: 1, text })
}

fn too_long_response(alloc: Global) -> Result<StatusText, AllocError>
    ensures { IfOk result (λ response. Says response too_long) }
{
    let text = String::from_str(alloc, "refused 31 TooLong\n")?;
    Ok(StatusText { status: 1, text })
}

/// The response to a command line that is refused.
pub fn line_response(alloc: Global, fault: LineFault) -> Result<StatusText, AllocError>
    ensures { IfOk result (λ response. Says response (line_answer fault)) }
{
    match fault {
        LineFault::Usage => usage_response(alloc),
        LineFault::Processes => processes_response(alloc),
    }
}

fn processes_response(alloc: Global) -> Result<StatusText, AllocError>
    ensures { IfOk result (λ response. Says response no_processes) }
{
    let text = String::from_str(alloc, "refused 11 Processes\n")?;
    Ok(StatusText { status: 1, text })
}

fn usage_response(alloc: Global) -> Result<StatusText, AllocError>
    ensures { IfOk result (λ response. Says response usage) }
{
    let text = String::from_str(
        alloc,
        "usage: ticketc order N | check | emit | source S | code S | lift S | drop S | run TURNS\n",
    )?;
    Ok(StatusText { status: 2, text })
}
