// What is wrong with an input, for people and in parts.
ghost use Rattle.std.specs.Prelude.{◌≡◌, IfOk, option_map, string_bytes};
ghost use Rattle.ticklab_explain.specs.Explanations.{ArePartsIn, AreQuestionParts, AreRefusalParts, IsExplanation, IsFaultReport, IsPlaceOf, hint_words, refusal_words};
ghost use Rattle.ticklab_explain.specs.Rows.{help_of};
ghost use Rattle.ticklab_explain.specs.Settings.{setting};

use crate::choosing::hint_of;
use crate::finding::{tokens_of, wanted_at};
use crate::hint::Hint;
use crate::items::Items;
use crate::piece::push_pieces;
use crate::place::{Place, place_of};
use crate::questions::{explain_question, told};
use crate::report::{message, report};
use crate::scene::Scene;
use crate::setting::{read_part, scene_of};
use crate::spot::{span_at, spot_of};
use crate::wanted::Wanted;
use base::NoMemory;
use base::span::Span;
use language_questions::QuestionFault;
use std::alloc::{AllocError, Global};
use ticketc_refusals::{Refusal, line_of};

/// Why an input is not taken.
#[derive(Clone, Copy)]
pub enum InputFault {
    /// It is no program, no code or no schedule.
    Refused(Refusal),
    /// It is a program, of which a line `#!` can't be read.
    Question(QuestionFault),
}

/// What is told of a fault, in parts.
#[derive(Drop)]
pub struct Explanation {
    /// Where it is, if it is at a place.
    pub place: Option<Place>,
    pub message: String,
    /// What may help.
    pub hint: Option<String>,
    /// The line of `ticketc` without its end, if `ticketc` refuses the input too.
    pub ticketc: Option<String>,
}

/// The report for people of a fault of an input, or of a schedule of so many processes; `name` is that of its file.
pub fn report_of(
    alloc: Global,
    processes: u8,
    name: &str,
    text: &[u8],
    fault: InputFault,
) -> Result<Vec<u8>, NoMemory>
    ensures { IfOk result (λ report. IsFaultReport processes name.now text.now fault report.items) }
{
    match fault {
        InputFault::Refused(refusal) => report(alloc, processes, name, text, refusal),
        InputFault::Question(fault) => explain_question(alloc, name, text, fault),
    }
}

/// The same in parts.
pub fn explanation_of(
    alloc: Global,
    processes: u8,
    text: &[u8],
    fault: InputFault,
) -> Result<Explanation, NoMemory>
    ensures { IfOk result (IsExplanation processes text.now fault) }
{
    match fault {
        InputFault::Refused(refusal) => refusal_parts(alloc, processes, text, refusal),
        InputFault::Question(QuestionFault::NoMemory) => Err(NoMemory),
        InputFault::Question(fault) => Ok(question_parts(alloc, text, fault)?),
    }
}

fn refusal_parts(
    alloc: Global,
    processes: u8,
    text: &[u8],
    refusal: Refusal,
) -> Result<Explanation, NoMemory>
    ensures { IfOk result (AreRefusalParts processes text.now refusal) }
{
    let tokens = tokens_of(alloc, read_part(text, refusal))?;
    let items = Items {
        processes,
        clears: false,
    };
    let scene = scene_of(items, text, &tokens, refusal);
    let wanted = wanted_at(alloc, &scene, refusal)?;
    Ok(parts_in(alloc, &scene, &wanted, refusal)?)
}

fn parts_in(
    alloc: Global,
    scene: &Scene,
    wanted: &[Wanted],
    refusal: Refusal,
) -> Result<Explanation, AllocError>
    ensures { IfOk result (ArePartsIn (setting scene.now) wanted.now refusal) }
{
    let place = place_in(scene.text, span_at(scene.text, spot_of(refusal)));
    let message = message(alloc, scene, wanted, refusal)?;
    let hint = hint_words(alloc, scene, hint_of(scene, wanted, refusal))?;
    let ticketc = refusal_words(alloc, refusal)?;
    Ok(Explanation {
        place,
        message,
        hint,
        ticketc: Some(ticketc),
    })
}

// The place of a part of a text.
fn place_in(text: &[u8], span: Option<Span>) -> Option<Place>
    ensures { IsPlaceOf text.now span result }
{
    match span {
        Some(span) => Some(place_of(text, span.start.min(text.len()))),
        None => None,
    }
}

fn hint_words(
    alloc: Global,
    scene: &Scene,
    hint: Option<Hint>,
) -> Result<Option<String>, AllocError>
    ensures { IfOk result (λ words. option_map string_bytes words ≡ hint_words (setting scene.now) (option_map help_of hint.entry)) }
{
    let Some(hint) = hint else {
        return Ok(None);
    };
    let mut words = String::new(alloc);
    push_pieces(&mut words, scene, hint.0)?;
    Ok(Some(words))
}

// The line of `ticketc` without its end.
fn refusal_words(alloc: Global, refusal: Refusal) -> Result<String, AllocError>
    ensures { IfOk result (λ words. string_bytes words ≡ refusal_words refusal) }
{
    let mut line = line_of(alloc, refusal)?;
    let _end = line.pop();
    Ok(line)
}

fn question_parts(
    alloc: Global,
    text: &[u8],
    fault: QuestionFault,
) -> Result<Explanation, AllocError>
    ensures { IfOk result (AreQuestionParts text.now fault) }
{
    let (span, message, hint) = told(text, fault);
    let message = String::from_str(alloc, message)?;
    let hint = String::from_str(alloc, hint)?;
    Ok(Explanation {
        place: place_in(text, Some(span)),
        message,
        hint: Some(hint),
        ticketc: None,
    })
}
