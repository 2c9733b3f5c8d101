use base::span::Span;
use std::alloc::{AllocError, AllocFailed};
use std::fmt;
use thiserror::Error;

/// Why a text is refused. Places and spans are in bytes of the text, from 0.
#[derive(Clone, Copy, PartialEq, Eq, Error)]
pub enum TextFault {
    /// The text has more than 1,000,000 bytes.
    #[error("the text has more than 1000000 bytes")]
    TextTooLong,
    /// No token begins with the character at this place.
    #[error("no token begins at byte {0}")]
    BadCharacter(usize),
    /// A number above 4294967295.
    #[error("the number at bytes {0} is above 4294967295")]
    NumberTooBig(Span),
    /// A name of more than 64 bytes.
    #[error("the name at bytes {0} has more than 64 bytes")]
    NameTooLong(Span),
    /// The first token at which no program goes on, or the empty span at the
    /// text's end where the text ends too early.
    #[error("no program goes on with bytes {0}")]
    Unexpected(Span),
    /// The first opening `(` or `{` that would be the 65th open at once.
    #[error("the bracket at bytes {0} is the 65th open at once")]
    TooDeep(Span),
    /// Memory was refused.
    #[error("out of memory")]
    NoMemory,
}

impl fmt::Debug for TextFault {
    fn fmt<W: fmt::Write>(&self, f: &mut fmt::Formatter<W>) -> fmt::Result {
        fmt::Display::fmt(self, f)
    }
}

impl From<AllocError> for TextFault {
    ghost use Rattle.std.specs.Prelude.{◌≡◌};
    ghost use Rattle.tick_syntax.specs.declared.fault.TextFault.TheVariants.{NoMemory};

    ghost from_gives = { λ _ e. e ≡ NoMemory };

    fn from(_: AllocError) -> TextFault {
        TextFault::NoMemory
    }
}

impl<T: Drop> From<AllocFailed<T>> for TextFault {
    ghost use Rattle.std.specs.Prelude.{◌≡◌};
    ghost use Rattle.tick_syntax.specs.declared.fault.TextFault.TheVariants.{NoMemory};

    ghost from_gives = { λ _ e. e ≡ NoMemory };

    fn from(_: AllocFailed<T>) -> TextFault {
        TextFault::NoMemory
    }
}
