ghost use Rattle.std.specs.Prelude.{◌≡◌};
ghost use Rattle.tick_merge.specs.declared.fault.MergeFault.TheVariants.{NoMemory as Refused};

use base::NoMemory;
use std::alloc::{AllocError, AllocFailed};
use thiserror::Error;

/// Why a history and numbers of instructions are no run of a code. Places of steps count from 0.
#[derive(Clone, Copy, PartialEq, Eq, Debug, Error)]
pub enum MergeFault {
    /// The step can't come next: what is shared doesn't answer so after the steps before it, or its
    /// process, its row or its index is out of range.
    #[error("step {0} can't come next")]
    NotLegal(usize),
    /// The process doesn't make the step of this place next, or not within its instructions. Where the
    /// place is the history's length: it doesn't make the rest of its instructions alone.
    #[error("process {0} doesn't go so at step {1}")]
    NotThisCode(u8, usize),
    /// Memory was refused.
    #[error("out of memory")]
    NoMemory,
}

impl From<AllocError> for MergeFault {
    ghost from_gives = { λ _ fault. fault ≡ Refused };

    fn from(_: AllocError) -> MergeFault {
        MergeFault::NoMemory
    }
}

impl<T: Drop> From<AllocFailed<T>> for MergeFault {
    ghost from_gives = { λ _ fault. fault ≡ Refused };

    fn from(_: AllocFailed<T>) -> MergeFault {
        MergeFault::NoMemory
    }
}

impl From<NoMemory> for MergeFault {
    ghost from_gives = { λ _ fault. fault ≡ Refused };

    fn from(_: NoMemory) -> MergeFault {
        MergeFault::NoMemory
    }
}
