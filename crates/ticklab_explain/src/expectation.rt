// The words for a token at which no program goes on.
ghost use Rattle.std.specs.Prelude.{◌≡◌, ◌<◌, ◌++◌, OnOk, length, string_bytes};
ghost use Rattle.ticklab_explain.specs.Hints.{text_of};
ghost use Rattle.ticklab_explain.specs.Following.{expectation, found, joint, listed, opening};
ghost use Rattle.ticklab_explain.specs.Rows.{pieces_of};
ghost use Rattle.ticklab_explain.specs.Settings.{Setting, here, setting, sort_here};

use crate::piece::{Piece, pieces, push_pieces};
use crate::scene::Scene;
use crate::wanted::{END_OF_TEXT, Wanted};
use crate::writing::Added;
use tick_syntax::token::Sort;

const EXPECTED: &str = "expected ";

const NO_PROGRAM_GOES_ON: &str = "no program goes on here";

const OR: &str = " or ";

const FOUND: &str = ", found ";

const THE_NAME: &str = "the name `";

const THE_NUMBER: &str = "the number `";

const THE_KEYWORD: &str = "the keyword `";

/// Adds what was expected, and what was found.
#[tactic(auto, unfolding(crate::specs::Following::expectation))]
pub fn push_expectation(text: &mut String, scene: &Scene, wanted: &[Wanted]) -> Added
    ensures { OnOk result (string_bytes text.new ≡ string_bytes text.old ++ expectation (setting scene.now) wanted.now) }
{
    text.push_str(opening(wanted))?;
    push_listed(text, wanted)?;
    text.push_str(FOUND)?;
    push_found(text, scene)
}

fn push_listed(text: &mut String, wanted: &[Wanted]) -> Added
    ensures { OnOk result (string_bytes text.new ≡ string_bytes text.old ++ listed 0 (length wanted.now) wanted.now) }
{
    for (index, one) in wanted.iter().enumerate() {
        text.push_str(joint(index, wanted.len()))?;
        one.push_told(text)?;
    }
    Ok(())
}

fn opening(wanted: &[Wanted]) -> &'static str
    ensures { result.now ≡ opening wanted.now }
{
    match wanted {
        [] => NO_PROGRAM_GOES_ON,
        _ => EXPECTED,
    }
}

// What stands between the things that are expected.
fn joint(index: usize, count: usize) -> &'static str
    requires { index < count }
    ensures { result.now ≡ joint index count }
{
    if index == 0 {
        ""
    } else if index + 1 == count {
        OR
    } else {
        ", "
    }
}

fn push_found(text: &mut String, scene: &Scene) -> Added
    ensures { OnOk result (string_bytes text.new ≡ string_bytes text.old ++ found (sort_here (setting scene.now)) (here (setting scene.now))) }
{
    push_pieces(text, scene, found(scene.sort()))
}

fn found(sort: Option<Sort>) -> &'static [Piece]
    ensures { (s : Setting) → text_of s (pieces_of result.now) ≡ found sort (here s) }
{
    match sort {
        None => pieces!(END_OF_TEXT),
        Some(Sort::Name) => pieces!(THE_NAME [Here] "`"),
        Some(Sort::Num(_)) => pieces!(THE_NUMBER [Here] "`"),
        Some(Sort::Keyword) => pieces!(THE_KEYWORD [Here] "`"),
        Some(Sort::Sign) => pieces!("`" [Here] "`"),
    }
}
