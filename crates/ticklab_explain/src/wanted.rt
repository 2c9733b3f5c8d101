// What may be expected at a place, by what stands before it. The parser decides whether it is.
ghost use Rattle.std.specs.Prelude.{◌≡◌, ◌∷◌, ◌++◌, [], OnOk, map, string_bytes};
ghost use Rattle.ticklab_explain.specs.Following.{choices, choices_in, sample, told};
ghost use Rattle.ticklab_explain.specs.Pieces.{joined};
ghost use Rattle.ticklab_explain.specs.Rows.{words_of};

use crate::words::is_one_of;
use crate::writing::{Added, push_all};
use tick_syntax::terminals::Terminal;

// How what may be expected is told.
const A_STATEMENT: &str = "a statement";

const A_VALUE: &str = "a value";

const AN_EXPRESSION: &str = "an expression";

const AN_OPERATOR: &str = "an operator";

const A_NAME: &str = "a name";

const A_NUMBER: &str = "a number";

pub const END_OF_TEXT: &str = "the end of the text";

/// What may be expected: all tokens of a kind, one word or sign, or the end of the text.
#[derive(Clone, Copy)]
pub enum Wanted {
    Statement,
    /// What stands after `=`.
    Value,
    Expression,
    Operator,
    Name,
    Number,
    TextEnd,
    Word(Terminal),
}

impl Wanted {
    /// A token of the kind. Where it may stand, so may the others. The end of the text has none.
    pub fn sample(self) -> &'static str
        ensures { result.now ≡ sample self }
    {
        self.words().0
    }

    /// Adds how it is told.
    pub fn push_told(self, text: &mut String) -> Added
        ensures { OnOk result (string_bytes text.new ≡ string_bytes text.old ++ told self) }
    {
        let (_, told, mark) = self.words();
        push_all(text, &[mark, told, mark])
    }

    // A token of the kind, how the kind is told, and the mark that stands about that.
    fn words(self) -> (&'static str, &'static str, &'static str)
        ensures sample { result.0.now ≡ sample self }
        ensures told { joined (result.2.now ∷ result.1.now ∷ result.2.now ∷ []) ≡ told self }
    {
        match self {
            Wanted::Statement => ("stamp", A_STATEMENT, ""),
            Wanted::Value => ("get", A_VALUE, ""),
            Wanted::Expression => ("me", AN_EXPRESSION, ""),
            Wanted::Operator => ("+", AN_OPERATOR, ""),
            Wanted::Name => ("x", A_NAME, ""),
            Wanted::Number => ("0", A_NUMBER, ""),
            Wanted::TextEnd => ("", END_OF_TEXT, ""),
            Wanted::Word(terminal) => (terminal.text(), terminal.text(), "`"),
        }
    }
}

// What may be wanted after one of these words.
const CHOICES: &[(&[&str], &[Wanted])] = &[
    (
        &["var", "reg", ",", "get", "put", "copy", "older", "held"],
        &[Wanted::Name],
    ),
    (
        &[
            "out", "if", "while", "(", "+", "-", "*", "/", "%", "<", "<=", "==", "!=",
        ],
        &[Wanted::Expression],
    ),
    (&[""], &[Wanted::Word(Terminal::Processes)]),
    (&["processes"], &[Wanted::Number]),
    (&["="], &[Wanted::Value]),
    (&["stamp", "clear"], &[Wanted::Word(Terminal::Semicolon)]),
    (&["else"], &[Wanted::Word(Terminal::OpenBrace)]),
    (&["end"], &[Wanted::TextEnd]),
    (
        &["scan"],
        &[Wanted::Name, Wanted::Word(Terminal::Semicolon)],
    ),
    (
        &[";", "begin", "{", "}"],
        &[
            Wanted::Word(Terminal::Var),
            Wanted::Word(Terminal::Scan),
            Wanted::Word(Terminal::Reg),
            Wanted::Word(Terminal::Begin),
            Wanted::Word(Terminal::Else),
            Wanted::Statement,
            Wanted::Word(Terminal::CloseBrace),
            Wanted::Word(Terminal::End),
        ],
    ),
];

// What may be wanted after all other words.
const AFTER_OPERAND: &[Wanted] = &[
    Wanted::Word(Terminal::Comma),
    Wanted::Operator,
    Wanted::Word(Terminal::Close),
    Wanted::Word(Terminal::Semicolon),
    Wanted::Word(Terminal::OpenBrace),
    Wanted::Word(Terminal::Becomes),
    Wanted::Expression,
];

/// What may be wanted after a word. Whether it is, the parser says.
#[tactic(auto, unfolding(crate::specs::Following::choices))]
pub fn choices(word: &str) -> &'static [Wanted]
    ensures { result.now ≡ choices word.now }
{
    choices_in(CHOICES, word, AFTER_OPERAND)
}

fn choices_in<'a>(rows: &[(&[&str], &'a [Wanted])], word: &str, other: &'a [Wanted]) -> &'a [Wanted]
    ensures { result.now ≡ choices_in (map (λ row. (words_of row.0.now, row.1.now)) rows.now) word.now other.now }
{
    for (words, wanted) in rows {
        if is_one_of(word, words) {
            return wanted;
        }
    }
    other
}
