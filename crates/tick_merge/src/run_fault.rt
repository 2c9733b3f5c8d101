ghost use Rattle.std.specs.Prelude.{◌≡◌};
ghost use Rattle.tick_merge.specs.declared.run_fault.RunFault.TheVariants.{NoMemory, NoThread};

use stamp_table::OpenFault;
use std::alloc::AllocError;
use std::thread::SpawnError;
use thiserror::Error;

/// Why a run was not made.
#[derive(Clone, Copy, PartialEq, Eq, Debug, Error)]
pub enum RunFault {
    /// Memory was refused.
    #[error("out of memory")]
    NoMemory,
    /// A thread was refused. Those that had started have ended.
    #[error("no thread")]
    NoThread,
}

impl From<AllocError> for RunFault {
    ghost from_gives = { λ _ fault. fault ≡ NoMemory };

    fn from(_: AllocError) -> RunFault {
        RunFault::NoMemory
    }
}

impl From<OpenFault> for RunFault {
    ghost from_gives = { λ _ fault. fault ≡ NoMemory };

    fn from(_: OpenFault) -> RunFault {
        RunFault::NoMemory
    }
}

impl<F: Drop> From<SpawnError<F>> for RunFault {
    ghost from_gives = { λ _ fault. fault ≡ NoThread };

    fn from(_: SpawnError<F>) -> RunFault {
        RunFault::NoThread
    }
}
