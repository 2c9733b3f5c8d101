ghost use Rattle.std.specs.Prelude.{◌≡◌};
ghost use Rattle.ticklab_files.specs.declared.fault.AnswerFault.TheVariants as answer;
ghost use Rattle.ticklab_files.specs.declared.stop.NoAnswer.TheVariants.{Fault};
ghost use Rattle.ticklab_files.specs.Stops.{fault_of};

use crate::fault::AnswerFault;
use base::NoMemory;
use std::alloc::{AllocError, AllocFailed};
use tick_merge::RunFault;

/// Why a command comes to no answer of its own.
#[derive(Drop)]
pub enum NoAnswer {
    /// An input is refused; the report says why.
    Refused(Vec<u8>),
    Fault(AnswerFault),
}

impl From<NoMemory> for NoAnswer {
    ghost from_gives = { λ _ stop. stop ≡ Fault answer.NoMemory };

    fn from(fault: NoMemory) -> NoAnswer {
        NoAnswer::Fault(AnswerFault::from(fault))
    }
}

impl From<AllocError> for NoAnswer {
    ghost from_gives = { λ _ stop. stop ≡ Fault answer.NoMemory };

    fn from(error: AllocError) -> NoAnswer {
        NoAnswer::Fault(AnswerFault::from(error))
    }
}

impl<T: Drop> From<AllocFailed<T>> for NoAnswer {
    ghost from_gives = { λ _ stop. stop ≡ Fault answer.NoMemory };

    fn from(error: AllocFailed<T>) -> NoAnswer {
        NoAnswer::Fault(AnswerFault::from(error))
    }
}

impl From<RunFault> for NoAnswer {
    ghost from_gives = { λ run stop. stop ≡ Fault (fault_of run) };

    fn from(fault: RunFault) -> NoAnswer {
        NoAnswer::Fault(AnswerFault::from(fault))
    }
}
