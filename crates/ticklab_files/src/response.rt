ghost use Rattle.std.specs.Prelude.{◌≡◌, IfOk, MatchResult, [], string_bytes};
ghost use Rattle.ticklab_files.specs.Responses.{Gives, Refuses};
ghost use Rattle.ticklab_files.specs.Stops.{IsRefusal};

use crate::fault::AnswerFault;
use crate::stop::NoAnswer;
use std::alloc::{AllocError, Global};

/// The whole answer to a command.
#[derive(Drop)]
pub struct Response {
    /// The exit status.
    pub status: u8,
    /// What goes to standard output.
    pub out: Vec<u8>,
    /// What goes to standard error.
    pub told: Vec<u8>,
}

/// It is done, and this is the answer.
pub const DONE: u8 = 0;
/// An input is refused.
pub const REFUSED: u8 = 1;
/// What is given is no loop.
pub const NO_LOOP: u8 = 1;
/// The command line is refused.
const REFUSED_LINE: u8 = 2;
/// A schedule was found under which a process traps.
pub const TRAPPED: u8 = 5;
/// There are more states than were to be seen.
pub const LIMIT: u8 = 6;
/// A schedule was found after which the processes asked for can't end any more, or a loop in which they don't.
pub const STUCK: u8 = 7;

/// An answer on standard output.
pub fn answer(alloc: Global, status: u8, text: String) -> Response
    ensures status { result.status ≡ status }
    ensures out { result.out.items ≡ string_bytes text }
    ensures told { result.told.items ≡ [] }
{
    output(alloc, status, text.into_bytes())
}

/// The same of bytes.
pub fn output(alloc: Global, status: u8, out: Vec<u8>) -> Response
    ensures status { result.status ≡ status }
    ensures out { result.out ≡ out }
    ensures told { result.told.items ≡ [] }
{
    Response {
        status,
        out,
        told: Vec::new(alloc),
    }
}

/// A report on standard error, with nothing on standard output.
pub fn refused(alloc: Global, status: u8, report: Vec<u8>) -> Response
    ensures status { result.status ≡ status }
    ensures out { result.out.items ≡ [] }
    ensures told { result.told ≡ report }
{
    Response {
        status,
        out: Vec::new(alloc),
        told: report,
    }
}

/// The help that was asked for, or the version.
pub fn help(alloc: Global, text: String) -> Response
    ensures { Gives 0 (λ out. out ≡ string_bytes text) result }
{
    answer(alloc, DONE, text)
}

/// The words are no command, and why.
pub fn no_command(alloc: Global, text: String) -> Response
    ensures { Refuses 2 (λ told. told ≡ string_bytes text) result }
{
    refused(alloc, REFUSED_LINE, text.into_bytes())
}

/// The answer of a command, or the report of what it refuses.
pub fn settled(alloc: Global, answered: Result<Response, NoAnswer>) -> Result<Response, AnswerFault>
    ensures { IfOk result (λ response. MatchResult answered (λ given. response ≡ given) (IsRefusal response)) }
{
    match answered {
        Ok(response) => Ok(response),
        Err(NoAnswer::Refused(report)) => Ok(refused(alloc, REFUSED, report)),
        Err(NoAnswer::Fault(fault)) => Err(fault),
    }
}
