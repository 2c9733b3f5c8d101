ghost use Rattle.std.specs.Prelude.{◌≡◌};
ghost use Rattle.language_questions.specs.Tokens.{wrong};

use crate::fault::{Missing, QuestionFault};
use base::span::Span;
use language_properties::{Junction, Op, Quantifier};

/// A word of questions.
#[derive(Clone, Copy)]
pub enum Word {
    /// `n`, how many processes there are.
    Count,
    Not,
    Joins(Junction),
    Over(Quantifier),
    Held,
    Older,
    Ended,
    Trapped,
}

/// A sign of questions.
#[derive(Clone, Copy, PartialEq, Eq)]
pub enum Sign {
    Open,
    Close,
    OpenIndex,
    CloseIndex,
    Comma,
    Colon,
    Operator(Op),
}

/// What a token says.
#[derive(Clone, Copy)]
pub enum Meaning {
    /// The question ends here.
    End,
    Number(u32),
    /// A number above 4294967295.
    TooBig,
    /// A word that is none of questions.
    Name,
    Word(Word),
    /// A word of questions that names a register row of the program too.
    TwoMeanings,
    Sign(Sign),
    /// A character that no token begins with.
    NoToken,
}

/// A token of a question: what it says, and where.
#[derive(Clone, Copy)]
pub struct Token {
    pub meaning: Meaning,
    pub span: Span,
}

impl Token {
    /// Why it can't stand where this is missing.
    pub fn wrong(self, missing: Missing) -> QuestionFault
        ensures { result ≡ wrong missing self.meaning self.span }
    {
        match self.meaning {
            Meaning::NoToken => QuestionFault::BadCharacter(self.span),
            Meaning::TooBig => QuestionFault::NumberTooBig(self.span),
            Meaning::TwoMeanings => QuestionFault::TwoMeanings(self.span),
            _ => QuestionFault::Unexpected(missing, self.span),
        }
    }
}
