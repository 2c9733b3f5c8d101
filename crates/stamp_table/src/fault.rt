use std::alloc::AllocError;
use thiserror::Error;

/// Why a table was not made.
#[derive(Clone, Copy, PartialEq, Eq, Debug, Error)]
pub enum OpenFault {
    /// Memory was refused.
    #[error("out of memory")]
    NoMemory,
}

impl From<AllocError> for OpenFault {
    fn from(_: AllocError) -> OpenFault {
        OpenFault::NoMemory
    }
}
