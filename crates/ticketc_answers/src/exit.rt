//! The exit status of the program.
ghost use Rattle.std.specs.Prelude.{◌≡◌};
ghost use Rattle.std.specs.Process.{exit_status};
ghost use Rattle.ticketc_answers.specs.Exit.{exit_of};

use crate::fault::EngineFault;
use std::process::ExitCode;

/// The engine's status, 3 where reading or writing failed, and 4 where memory or a thread was refused.
pub fn exit_code(outcome: Result<u8, EngineFault>) -> ExitCode
    ensures { exit_status result ≡ exit_of outcome }
{
    match outcome {
        Ok(status) => ExitCode::from(status),
        Err(EngineFault::Read | EngineFault::Write) => ExitCode::from(3),
        Err(EngineFault::Memory | EngineFault::Thread) => ExitCode::from(4),
    }
}
