ghost use Rattle.std.specs.Prelude.{◌≡◌};
ghost use Rattle.ticklab_check.specs.declared.fault.CheckFault.TheVariants as fault;

use base::NoMemory;
use std::alloc::{AllocError, AllocFailed};
use std::io;

/// Why files aren't checked to the last.
#[derive(Debug, Drop)]
pub enum CheckFault {
    /// The listener can hear no more: the host says this.
    Unheard(io::Error),
    NoMemory,
}

impl From<NoMemory> for CheckFault {
    ghost from_gives = { λ _ given. given ≡ fault.NoMemory };

    fn from(_fault: NoMemory) -> CheckFault {
        CheckFault::NoMemory
    }
}

impl From<AllocError> for CheckFault {
    ghost from_gives = { λ _ given. given ≡ fault.NoMemory };

    fn from(_error: AllocError) -> CheckFault {
        CheckFault::NoMemory
    }
}

impl<T: Drop> From<AllocFailed<T>> for CheckFault {
    ghost from_gives = { λ _ given. given ≡ fault.NoMemory };

    fn from(_error: AllocFailed<T>) -> CheckFault {
        CheckFault::NoMemory
    }
}
