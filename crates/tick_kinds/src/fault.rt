use crate::kind::Kind;
use base::span::Span;
use std::alloc::{AllocError, AllocFailed};
use std::fmt;
use thiserror::Error;

/// Why a program is refused. Spans are in bytes of the text that it was read from.
#[derive(Clone, Copy, PartialEq, Eq, Error)]
pub enum KindFault {
    /// The number of processes is not 1 to 6.
    #[error("the number of processes at bytes {0} is not 1 to 6")]
    Processes(Span),
    /// The name was declared before, in whichever section.
    #[error("the name at bytes {0} was declared before")]
    Twice(Span),
    /// A name that is not declared.
    #[error("the name at bytes {0} is not declared")]
    Unknown(Span),
    /// A name of another kind than its place wants.
    #[error("the name at bytes {span} is declared as {found}, and a {wanted} stands here")]
    WrongKind {
        span: Span,
        wanted: Kind,
        found: Kind,
    },
    /// The 65th variable, the 17th scan or the 9th register row.
    #[error("the name at bytes {0} is one too many of its kind")]
    TooMany(Span),
    /// Memory was refused.
    #[error("out of memory")]
    NoMemory,
}

impl fmt::Debug for KindFault {
    fn fmt<W: fmt::Write>(&self, f: &mut fmt::Formatter<W>) -> fmt::Result {
        fmt::Display::fmt(self, f)
    }
}

impl From<AllocError> for KindFault {
    ghost use Rattle.std.specs.Prelude.{◌≡◌};
    ghost use Rattle.tick_kinds.specs.declared.fault.KindFault.TheVariants.{NoMemory};

    ghost from_gives = { λ _ e. e ≡ NoMemory };

    fn from(_: AllocError) -> KindFault {
        KindFault::NoMemory
    }
}

impl<T: Drop> From<AllocFailed<T>> for KindFault {
    ghost use Rattle.std.specs.Prelude.{◌≡◌};
    ghost use Rattle.tick_kinds.specs.declared.fault.KindFault.TheVariants.{NoMemory};

    ghost from_gives = { λ _ e. e ≡ NoMemory };

    fn from(_: AllocFailed<T>) -> KindFault {
        KindFault::NoMemory
    }
}
