// The pieces of which hints and messages are made.
ghost use Rattle.std.specs.Prelude.{◌≡◌, ◌++◌, OnOk, string_bytes};
ghost use Rattle.std.specs.Fmt.{decimal};
ghost use Rattle.ticklab_explain.specs.Hints.{meaning, piece_text, statement_of, text_of};
ghost use Rattle.ticklab_explain.specs.Pieces.{or_else};
ghost use Rattle.ticklab_explain.specs.Rows.{pieces_of};
ghost use Rattle.ticklab_explain.specs.Settings.{setting};

use crate::declared::push_declared;
use crate::part::{Part, push_part};
use crate::scene::Scene;
use crate::words::beside;
use crate::writing::Added;
use itoa::Buffer;

// What a keyword means that looks like a name.
const MEANINGS: &[(&str, &str)] = &[
    ("n", ", the number of processes"),
    ("me", ", the number of the process itself"),
];

// A statement of each keyword that has operands, or gives a scan.
const STATEMENTS: &[(&str, &str)] = &[
    ("older", "x = older s 0 1;"),
    ("held", "x = held s 0;"),
    ("get", "x = get r me;"),
    ("put", "put r 1;"),
    ("scan", "s = scan;"),
    ("copy", "t = copy s;"),
];

/// What stands in a text, and the words that it may need.
pub type Piece = (Quote, &'static str);

/// Words, or what is quoted of the text about the place.
#[derive(Clone, Copy)]
pub enum Quote {
    /// The words themselves.
    Words,
    /// What the refusal is about.
    About,
    /// What stands here.
    Here,
    /// What stands so many tokens before.
    Before(usize),
    /// What stands so many tokens after.
    After(usize),
    /// The word at the left of the place, or these words where there is none.
    Left,
    /// The word at the right of the place, or these words where there is none.
    Right,
    /// What the keyword means that stands here.
    Meaning,
    /// A statement of the keyword that stands here.
    Statement,
    /// A statement of the keyword that stands before.
    StatementBefore,
    /// A part of the text.
    Tokens(Part),
    /// The names that are declared, by sections.
    DeclaredNames,
    /// How many processes a schedule has.
    ProcessCount,
}

// The pieces of a text: words, with what is quoted in brackets between them.
macro_rules! pieces {
    ($first:tt $([$quoted:ident $($value:tt)?] $words:tt)*) => {
        &[
            ($crate::piece::Quote::Words, $first)
            $(, $crate::piece::one_piece!($quoted $($value)?), ($crate::piece::Quote::Words, $words))*
        ]
    };
}

macro_rules! one_piece {
    (Left($words:literal)) => { ($crate::piece::Quote::Left, $words) };
    (Right($words:literal)) => { ($crate::piece::Quote::Right, $words) };
    ($quoted:ident $($value:tt)?) => { ($crate::piece::Quote::$quoted $($value)?, "") };
}

pub(crate) use one_piece;
pub(crate) use pieces;

fn push(text: &mut String, scene: &Scene, quote: Quote, words: &str) -> Added
    ensures { OnOk result (string_bytes text.new ≡ string_bytes text.old ++ piece_text (setting scene.now) quote words.now) }
{
    match quote {
        Quote::Words => text.push_str(words),
        Quote::About => text.push_str(scene.about()),
        Quote::Here => text.push_str(scene.here()),
        Quote::Before(count) => text.push_str(scene.before(count)),
        Quote::After(count) => text.push_str(scene.after(count)),
        Quote::Left => text.push_str(or(scene.left, words)),
        Quote::Right => text.push_str(or(scene.right, words)),
        Quote::Meaning => text.push_str(meaning(scene.here())),
        Quote::Statement => text.push_str(statement_of(scene.here())),
        Quote::StatementBefore => text.push_str(statement_of(scene.before(1))),
        Quote::Tokens(part) => push_part(text, scene, part),
        Quote::DeclaredNames => push_declared(text, scene.text, scene.tokens),
        Quote::ProcessCount => push_count(text, scene.items.processes),
    }
}

/// Adds pieces one after another.
pub fn push_pieces(text: &mut String, scene: &Scene, pieces: &[Piece]) -> Added
    ensures { OnOk result (string_bytes text.new ≡ string_bytes text.old ++ text_of (setting scene.now) (pieces_of pieces.now)) }
{
    for (quote, words) in pieces {
        push(text, scene, *quote, words)?;
    }
    Ok(())
}

// Another word where there is none.
#[tactic(auto, unfolding(crate::specs::Pieces::or_else))]
fn or<'a>(word: &'a str, other: &'a str) -> &'a str
    ensures { result.now ≡ or_else word.now other.now }
{
    if word.is_empty() { other } else { word }
}

#[tactic(auto, unfolding(crate::specs::Hints::meaning))]
fn meaning(keyword: &str) -> &'static str
    ensures { result.now ≡ meaning keyword.now }
{
    beside(MEANINGS, keyword, "")
}

#[tactic(auto, unfolding(crate::specs::Hints::statement_of))]
fn statement_of(keyword: &str) -> &'static str
    ensures { result.now ≡ statement_of keyword.now }
{
    beside(STATEMENTS, keyword, "")
}

fn push_count(text: &mut String, number: u8) -> Added
    ensures { OnOk result (string_bytes text.new ≡ string_bytes text.old ++ decimal number) }
{
    text.push_str(Buffer::new().format(usize::from(number)))
}
