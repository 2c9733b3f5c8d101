ghost use Rattle.std.specs.Prelude.{◌≡◌};
ghost use Rattle.ticketc_answers.specs.declared.fault.EngineFault.TheVariants.{Memory};
ghost use Rattle.ticketc_answers.specs.prover.Faults.{end_fault};

use std::alloc::{AllocError, AllocFailed};
use std::fmt;
use thiserror::Error;
use ticketc_io::EndFault;

/// Why the engine has no status to give.
#[derive(Clone, Copy, Debug, PartialEq, Eq, Error)]
pub enum EngineFault {
    /// A read failed, or 2,000,000 reads came to no end.
    Read,
    /// A write failed, took nothing, or was interrupted more than 1,000 times in a row.
    Write,
    /// Memory was refused.
    Memory,
    /// A thread was refused.
    Thread,
}

impl EngineFault {
    fn told(self) -> &'static str {
        match self {
            EngineFault::Read => "reading failed",
            EngineFault::Write => "writing failed",
            EngineFault::Memory => "out of memory",
            EngineFault::Thread => "no thread could be started",
        }
    }
}

impl fmt::Display for EngineFault {
    fn fmt<W: fmt::Write>(&self, f: &mut fmt::Formatter<W>) -> fmt::Result {
        f.write_str(self.told())
    }
}

impl From<AllocError> for EngineFault {
    ghost from_gives = { λ _ fault. fault ≡ Memory };

    fn from(_error: AllocError) -> EngineFault {
        EngineFault::Memory
    }
}

impl<T: Drop> From<AllocFailed<T>> for EngineFault {
    ghost from_gives = { λ _ fault. fault ≡ Memory };

    fn from(_error: AllocFailed<T>) -> EngineFault {
        EngineFault::Memory
    }
}

impl From<EndFault> for EngineFault {
    ghost from_gives = { λ error fault. fault ≡ end_fault error };

    fn from(error: EndFault) -> EngineFault {
        match error {
            EndFault::Read => EngineFault::Read,
            EndFault::Write => EngineFault::Write,
            EndFault::Memory => EngineFault::Memory,
        }
    }
}
