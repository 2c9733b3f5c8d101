use crate::token::Sign;
use base::span::Span;
use std::alloc::{AllocError, AllocFailed};
use std::fmt;
use thiserror::Error;

/// What may stand where something else stands.
#[derive(Clone, Copy, PartialEq, Eq)]
pub enum Missing {
    /// A value: a number, a name, a word that is asked of a process, or what is in brackets.
    Operand,
    /// The name of a quantifier.
    Name,
    Sign(Sign),
    /// The end of a property.
    End,
    /// The number of a process.
    Process,
    /// The end of the line, behind a word that says all.
    LineEnd,
    /// What may stand behind those that are asked whether they end: `wait_free`, `alone`, or the end of the line.
    Condition,
}

/// Why a question can't be read. Spans are in bytes of the text that it stands in, a file or an option.
#[derive(Clone, Copy, PartialEq, Eq, Error)]
pub enum QuestionFault {
    /// A character that no token begins with.
    #[error("no token begins with the character at bytes {0}")]
    BadCharacter(Span),
    /// A number above 4294967295.
    #[error("the number at bytes {0} is above 4294967295")]
    NumberTooBig(Span),
    /// What may stand there, and the token that can't, or the empty span at the end of a question that ends too early.
    #[error("no question goes on with bytes {1}")]
    Unexpected(Missing, Span),
    /// What opens the 65th level, a bracket, a colon, or an `and` or `or` of a chain; or the 9th quantifier
    /// within one another.
    #[error("the question is nested too deeply at bytes {0}")]
    TooDeep(Span),
    /// A name that nothing has.
    #[error("nothing has the name at bytes {0}")]
    Unknown(Span),
    /// A variable or a scan of the program.
    #[error("no other process sees what the name at bytes {0} names")]
    NotShared(Span),
    /// The name of a quantifier that is a register row's, or that of a quantifier around it.
    #[error("the name at bytes {0} is in use")]
    Twice(Span),
    /// A word of questions that names a register row of the program too.
    #[error("the word at bytes {0} names a register row too")]
    TwoMeanings(Span),
    /// A number that stands for a process, and is none.
    #[error("there is no process of the number at bytes {0}")]
    NoSuchProcess(Span),
    /// What stands after `#!` is none of the words that begin a question. The span is empty where it is no word.
    #[error("no question begins with the word at bytes {0}")]
    NoSuchWord(Span),
    /// The word of a question in a comment that asks nothing, behind a `#` or `!` other than the signs that begin it.
    #[error("no question is asked by the comment with the word at bytes {0}")]
    NotAsked(Span),
    /// A second `#! ends` of the same condition.
    #[error("a line before bytes {0} says what has to end")]
    EndsTwice(Span),
    /// What stands after `#! expect` is none of its words. The span is empty where it is no word.
    #[error("nothing is expected by the word at bytes {0}")]
    NotExpected(Span),
    /// A second `#! expect`.
    #[error("a line before bytes {0} says what is expected")]
    ExpectTwice(Span),
    /// Memory was refused.
    #[error("out of memory")]
    NoMemory,
}

impl fmt::Debug for QuestionFault {
    fn fmt<W: fmt::Write>(&self, f: &mut fmt::Formatter<W>) -> fmt::Result {
        fmt::Display::fmt(self, f)
    }
}

impl From<AllocError> for QuestionFault {
    ghost use Rattle.std.specs.Prelude.{◌≡◌};
    ghost use Rattle.language_questions.specs.declared.fault.QuestionFault.TheVariants.{NoMemory};

    ghost from_gives = { λ _ e. e ≡ NoMemory };

    fn from(_: AllocError) -> QuestionFault {
        QuestionFault::NoMemory
    }
}

impl<T: Drop> From<AllocFailed<T>> for QuestionFault {
    ghost use Rattle.std.specs.Prelude.{◌≡◌};
    ghost use Rattle.language_questions.specs.declared.fault.QuestionFault.TheVariants.{NoMemory};

    ghost from_gives = { λ _ e. e ≡ NoMemory };

    fn from(_: AllocFailed<T>) -> QuestionFault {
        QuestionFault::NoMemory
    }
}
