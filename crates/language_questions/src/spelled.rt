//! The words and signs of questions, and what each is read as.
ghost use Rattle.std.specs.Prelude.{◌≡◌};
ghost use Rattle.language_questions.specs.Directives.{conditions, directives, expectations};
ghost use Rattle.language_questions.specs.Signs.{signs};
ghost use Rattle.language_questions.specs.Spelled.{spelled, spelled_now};
ghost use Rattle.language_questions.specs.Words.{words};

use crate::questions::{Condition, Expected};
use crate::token::{Sign, Word};
use language_properties::{Junction, Op, Quantifier};

/// What a line asks for.
#[derive(Clone, Copy)]
pub enum Directive {
    Never,
    Ends,
    Expect,
}

// Of values beside their spellings, the first that is spelled so.
#[tactic(auto, unfolding(crate::specs::Spelled::spelled_now))]
fn spelled<T: Copy>(rows: &[(&str, T)], letters: &[u8]) -> Option<T>
    ensures { result ≡ spelled_now rows.now letters.now }
{
    for (text, value) in rows {
        if text.as_bytes() == letters {
            return Some(*value);
        }
    }
    None
}

/// The directive of this word, if it has one.
#[tactic(auto, unfolding(crate::specs::Spelled::spelled, crate::specs::Spelled::spelled_now))]
pub fn directive_of(letters: &[u8]) -> Option<Directive>
    ensures { result ≡ spelled directives letters.now }
{
    let rows = [
        ("never", Directive::Never),
        ("ends", Directive::Ends),
        ("expect", Directive::Expect),
    ];
    spelled(&rows, letters)
}

/// What is expected by this word, if something is.
#[tactic(auto, unfolding(crate::specs::Spelled::spelled, crate::specs::Spelled::spelled_now))]
pub fn expected_of(letters: &[u8]) -> Option<Expected>
    ensures { result ≡ spelled expectations letters.now }
{
    let rows = [
        ("safe", Expected::Safe),
        ("trap", Expected::Trap),
        ("never", Expected::Never),
        ("stuck", Expected::Stuck),
        ("not_wait_free", Expected::NotWaitFree),
        ("not_alone", Expected::NotAlone),
    ];
    spelled(&rows, letters)
}

/// The condition of this word at the end of a line `#! ends`, if it has one.
#[tactic(auto, unfolding(crate::specs::Spelled::spelled, crate::specs::Spelled::spelled_now))]
pub fn condition_of(letters: &[u8]) -> Option<Condition>
    ensures { result ≡ spelled conditions letters.now }
{
    let rows = [
        ("wait_free", Condition::WaitFree),
        ("alone", Condition::Alone),
    ];
    spelled(&rows, letters)
}

/// The word that is spelled so, if one is.
#[tactic(auto, unfolding(crate::specs::Spelled::spelled, crate::specs::Spelled::spelled_now))]
pub fn word_of(letters: &[u8]) -> Option<Word>
    ensures { result ≡ spelled words letters.now }
{
    let rows = [
        ("n", Word::Count),
        ("not", Word::Not),
        ("and", Word::Joins(Junction::And)),
        ("or", Word::Joins(Junction::Or)),
        ("some", Word::Over(Quantifier::Some)),
        ("all", Word::Over(Quantifier::All)),
        ("sum", Word::Over(Quantifier::Sum)),
        ("held", Word::Held),
        ("older", Word::Older),
        ("ended", Word::Ended),
        ("trapped", Word::Trapped),
    ];
    spelled(&rows, letters)
}

/// The sign that is spelled so, if one is.
#[tactic(auto, unfolding(crate::specs::Spelled::spelled, crate::specs::Spelled::spelled_now))]
pub fn sign_of(letters: &[u8]) -> Option<Sign>
    ensures { result ≡ spelled signs letters.now }
{
    let rows = [
        ("(", Sign::Open),
        (")", Sign::Close),
        ("[", Sign::OpenIndex),
        ("]", Sign::CloseIndex),
        (",", Sign::Comma),
        (":", Sign::Colon),
        ("<=", Sign::Operator(Op::AtMost)),
        ("==", Sign::Operator(Op::Equal)),
        ("!=", Sign::Operator(Op::Differs)),
        ("<", Sign::Operator(Op::Less)),
        ("+", Sign::Operator(Op::Add)),
        ("-", Sign::Operator(Op::Sub)),
        ("*", Sign::Operator(Op::Mul)),
        ("/", Sign::Operator(Op::Div)),
        ("%", Sign::Operator(Op::Rem)),
    ];
    spelled(&rows, letters)
}
