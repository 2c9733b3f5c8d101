use std::alloc::AllocError;
use thiserror::Error;

/// Why a program has no code.
#[derive(Clone, Copy, PartialEq, Eq, Debug, Error)]
pub enum LowerFault {
    /// The code would have more than 65,535 instructions.
    #[error("the code is too long")]
    TooLong,
    /// Memory was refused.
    #[error("out of memory")]
    NoMemory,
}

impl From<AllocError> for LowerFault {
    ghost use Rattle.std.specs.Prelude.{◌≡◌};
    ghost use Rattle.tick_lower.specs.declared.fault.LowerFault.TheVariants.{NoMemory};

    ghost from_gives = { λ _ e. e ≡ NoMemory };

    fn from(_: AllocError) -> LowerFault {
        LowerFault::NoMemory
    }
}
