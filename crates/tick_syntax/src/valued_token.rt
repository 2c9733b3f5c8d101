// A token with what it says.
ghost use Rattle.std.specs.Prelude.{◌≡◌};
ghost use Rattle.tick_syntax.specs.prover.Reading.{ends, begins};
ghost use Rattle.tick_syntax.specs.prover.ValuedTokens.{is_sign_terminal, plain};

use crate::terminals::Terminal;
use crate::token::{Sort, Token};
use base::span::Span;

/// What a token says.
#[derive(Clone, Copy)]
pub enum Meaning<'a> {
    /// A name, with its letters.
    Name(&'a str),
    Number(u32),
    Terminal(Terminal),
}

/// A token with its value: what it says, and where.
#[derive(Clone, Copy)]
pub struct ValuedToken<'a> {
    pub meaning: Meaning<'a>,
    pub span: Span,
}

impl ValuedToken<'_> {
    /// The token without its value.
    pub fn plain(self) -> Token
        ensures { result ≡ plain self.entry }
    {
        let sort = match self.meaning {
            Meaning::Name(_) => Sort::Name,
            Meaning::Number(value) => Sort::Num(value),
            Meaning::Terminal(terminal) if is_sign(terminal) => Sort::Sign,
            Meaning::Terminal(_) => Sort::Keyword,
        };
        Token {
            sort,
            span: self.span,
        }
    }
}

// Whether the terminal is a sign, and no keyword.
fn is_sign(terminal: Terminal) -> bool
    ensures { result ≡ is_sign_terminal terminal }
{
    matches!(
        terminal,
        Terminal::Semicolon
            | Terminal::Comma
            | Terminal::Open
            | Terminal::Close
            | Terminal::OpenBrace
            | Terminal::CloseBrace
            | Terminal::Becomes
            | Terminal::Operator(_)
    )
}

/// What a list of statements stands in.
#[derive(Clone, Copy)]
pub enum Ending {
    /// The program's body, up to `end`.
    Program,
    /// A block, up to `}`.
    Braces,
}

/// A section of declarations.
#[derive(Clone, Copy)]
pub enum Section {
    Variables,
    Scans,
    Registers,
}

impl Ending {
    /// Whether the list ends with what says this.
    pub fn ends(self, meaning: Meaning) -> bool
        ensures { result ≡ ends self meaning.entry }
    {
        matches!(
            (self, meaning),
            (Ending::Program, Meaning::Terminal(Terminal::End))
                | (Ending::Braces, Meaning::Terminal(Terminal::CloseBrace))
        )
    }
}

impl Section {
    /// Whether the section begins with what says this.
    pub fn begins(self, meaning: Meaning) -> bool
        ensures { result ≡ begins self meaning.entry }
    {
        matches!(
            (self, meaning),
            (Section::Variables, Meaning::Terminal(Terminal::Var))
                | (Section::Scans, Meaning::Terminal(Terminal::Scan))
                | (Section::Registers, Meaning::Terminal(Terminal::Reg))
        )
    }
}
