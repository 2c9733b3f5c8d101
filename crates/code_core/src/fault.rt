use std::alloc::{AllocError, AllocFailed};
use std::fmt;
use thiserror::Error;

/// Why a list of instructions or a text is no code. Places of instructions count from 0, lines from 1.
#[derive(Clone, Copy, PartialEq, Eq, Error)]
pub enum CodeFault {
    /// There is no instruction.
    Empty,
    /// There are more than 65,535 instructions.
    TooLong,
    /// It jumps to a place that there is not.
    BadJump(u16),
    /// It takes more values than the stack has at its place.
    StackShort(u16),
    /// It is reached, or reaches another place, with two heights of the stack.
    HeightsDiffer(u16),
    /// It names a variable, a scan or a register row that there is not.
    BadSlot(u16),
    /// It is the last, and neither jumps nor ends the process.
    FallsOff(u16),
    /// It is part of a stamp that is not whole, or jumps into one.
    BadStamp(u16),
    /// The line is not of the form.
    BadLine(usize),
    /// Memory was refused.
    NoMemory,
}

impl CodeFault {
    // What is said before a place or a line, which one, and what after it.
    fn told(self) -> (&'static str, Option<usize>, &'static str) {
        match self {
            CodeFault::Empty => ("the code is empty", None, ""),
            CodeFault::TooLong => ("the code is too long", None, ""),
            CodeFault::BadJump(at) => ("instruction ", Some(at as usize), " jumps past the end"),
            CodeFault::StackShort(at) => (
                "instruction ",
                Some(at as usize),
                " takes more values than there are",
            ),
            CodeFault::HeightsDiffer(at) => (
                "instruction ",
                Some(at as usize),
                " is reached, or jumps, with another height of the stack",
            ),
            CodeFault::BadSlot(at) => (
                "instruction ",
                Some(at as usize),
                " names a slot that there is not",
            ),
            CodeFault::FallsOff(at) => (
                "the code goes on past instruction ",
                Some(at as usize),
                ", its last",
            ),
            CodeFault::BadStamp(at) => ("instruction ", Some(at as usize), " breaks a stamp"),
            CodeFault::BadLine(at) => ("line ", Some(at), " is no line of a code"),
            CodeFault::NoMemory => ("out of memory", None, ""),
        }
    }
}

impl fmt::Display for CodeFault {
    fn fmt<W: fmt::Write>(&self, f: &mut fmt::Formatter<W>) -> fmt::Result {
        let (before, at, after) = self.told();
        match at {
            None => f.write_str(before),
            Some(at) => write!(f, "{before}{at}{after}"),
        }
    }
}

impl fmt::Debug for CodeFault {
    fn fmt<W: fmt::Write>(&self, f: &mut fmt::Formatter<W>) -> fmt::Result {
        fmt::Display::fmt(self, f)
    }
}

impl From<AllocError> for CodeFault {
    ghost use Rattle.std.specs.Prelude.{◌≡◌};
    ghost use Rattle.code_core.specs.declared.fault.CodeFault.TheVariants.{NoMemory};

    ghost from_gives = { λ _ e. e ≡ NoMemory };

    fn from(_: AllocError) -> CodeFault {
        CodeFault::NoMemory
    }
}

impl<T: Drop> From<AllocFailed<T>> for CodeFault {
    ghost use Rattle.std.specs.Prelude.{◌≡◌};
    ghost use Rattle.code_core.specs.declared.fault.CodeFault.TheVariants.{NoMemory};

    ghost from_gives = { λ _ e. e ≡ NoMemory };

    fn from(_: AllocFailed<T>) -> CodeFault {
        CodeFault::NoMemory
    }
}
