// The report of a refusal.
ghost use Rattle.std.specs.Prelude.{◌≡◌, ◌++◌, ℕ, List, IfOk, OnOk, length, min, option_map, string_bytes};
ghost use Rattle.base.specs.Lines.{line_end};
ghost use Rattle.ticklab_explain.specs.Hints.{hint_text};
ghost use Rattle.ticklab_explain.specs.Messages.{message_of};
ghost use Rattle.ticklab_explain.specs.Pictures.{IsPicture};
ghost use Rattle.ticklab_explain.specs.Places.{IsPlace};
ghost use Rattle.ticklab_explain.specs.Reports.{AreHintLines, IsHead, IsReport, IsSeen, IsWritten, error_text, last_line, place_text};
ghost use Rattle.ticklab_explain.specs.Rows.{help_of};
ghost use Rattle.ticklab_explain.specs.Settings.{move_items, setting, step_items};
ghost use Rattle.ticklab_explain.specs.declared.place.Place.{Place};

use crate::choosing::hint_of;
use crate::finding::{tokens_of, wanted_at};
use crate::hint::Hint;
use crate::items::Items;
use crate::messages::push_message;
use crate::picture::push_picture;
use crate::piece::push_pieces;
use crate::place::{Place, place_of};
use crate::scene::Scene;
use crate::setting::{read_part, scene_of};
use crate::spot::{span_at, spot_of};
use crate::wanted::Wanted;
use crate::writing::{Added, push, push_decimal};
use base::NoMemory;
use base::span::Span;
use std::alloc::{AllocError, Global};
use ticketc_refusals::{Refusal, line_of};

// What stands before a message, before another place, before a hint and before the line of `ticketc`.
const ERROR: &str = ": error: ";

const ARROW: &str = " --> ";

pub const HINT: &str = "hint: ";

const TICKETC: &str = "ticketc: ";

/// The report of a refusal, of a schedule of so many processes or of another text.
pub fn report(
    alloc: Global,
    processes: u8,
    name: &str,
    text: &[u8],
    refusal: Refusal,
) -> Result<Vec<u8>, NoMemory>
    ensures { IfOk result (λ report. IsReport (step_items processes) name.now text.now refusal report.items) }
{
    let items = Items {
        processes,
        clears: false,
    };
    items_report(alloc, items, name, text, refusal)
}

/// The same of stamps and clears of so many processes.
pub fn moves_report(
    alloc: Global,
    processes: u8,
    name: &str,
    text: &[u8],
    refusal: Refusal,
) -> Result<Vec<u8>, NoMemory>
    ensures { IfOk result (λ report. IsReport (move_items processes) name.now text.now refusal report.items) }
{
    let items = Items {
        processes,
        clears: true,
    };
    items_report(alloc, items, name, text, refusal)
}

// The report of a refusal, of a text of such items or of another text: its place, what is wrong, the line with
// a caret, what may help, and the line that `ticketc` tells.
fn items_report(
    alloc: Global,
    items: Items,
    name: &str,
    text: &[u8],
    refusal: Refusal,
) -> Result<Vec<u8>, NoMemory>
    ensures { IfOk result (λ report. IsReport items name.now text.now refusal report.items) }
{
    let tokens = tokens_of(alloc, read_part(text, refusal))?;
    let scene = scene_of(items, text, &tokens, refusal);
    let wanted = wanted_at(alloc, &scene, refusal)?;
    told(alloc, name, &scene, &wanted, refusal)
}

fn told(
    alloc: Global,
    name: &str,
    scene: &Scene,
    wanted: &[Wanted],
    refusal: Refusal,
) -> Result<Vec<u8>, NoMemory>
    ensures { IfOk result (λ report. IsWritten name.now (setting scene.now) wanted.now refusal report.items) }
{
    let message = message(alloc, scene, wanted, refusal)?;
    let hint = hint_of(scene, wanted, refusal);
    let mut out = Vec::new(alloc);
    push_head(alloc, &mut out, name, scene.text, refusal, &message)?;
    push_hint(alloc, &mut out, name, scene, hint)?;
    push_last(alloc, &mut out, refusal)?;
    Ok(out)
}

/// What is wrong, in words.
pub fn message(
    alloc: Global,
    scene: &Scene,
    wanted: &[Wanted],
    refusal: Refusal,
) -> Result<String, AllocError>
    ensures { IfOk result (λ message. string_bytes message ≡ message_of (setting scene.now) wanted.now refusal) }
{
    let mut text = String::new(alloc);
    push_message(&mut text, scene, wanted, refusal)?;
    Ok(text)
}

fn push_head(
    alloc: Global,
    out: &mut Vec<u8>,
    name: &str,
    text: &[u8],
    refusal: Refusal,
    message: &str,
) -> Added
    ensures { OnOk result ((head : List ℕ) × IsHead name.now text.now refusal message.now head × (out.new.items ≡ out.old.items ++ head)) }
{
    match span_at(text, spot_of(refusal)) {
        Some(span) => push_placed(alloc, out, name, text, span, message)?,
        None => push_unplaced(out, name, message)?,
    }
    Ok(())
}

/// A place, a message, and the line with a caret.
pub fn push_placed(
    alloc: Global,
    out: &mut Vec<u8>,
    name: &str,
    text: &[u8],
    span: Span,
    message: &str,
) -> Added
    ensures { OnOk result ((place : Place) × (drawn : List ℕ) × IsPlace text.now (min span.start (length text.now)) place × IsPicture text.now span place.line drawn
        × (out.new.items ≡ out.old.items ++ (place_text name.now place ++ error_text message.now ++ drawn))) }
{
    let place = place_of(text, span.start.min(text.len()));
    push_place(out, name, place)?;
    push_error(out, message)?;
    push_picture(alloc, out, text, span, place.line)
}

fn push_unplaced(out: &mut Vec<u8>, name: &str, message: &str) -> Added
    ensures { OnOk result (out.new.items ≡ out.old.items ++ (name.now ++ error_text message.now)) }
{
    push(out, name)?;
    push_error(out, message)
}

fn push_place(out: &mut Vec<u8>, name: &str, place: Place) -> Added
    ensures { OnOk result (out.new.items ≡ out.old.items ++ place_text name.now place) }
{
    push(out, name)?;
    push(out, ":")?;
    push_decimal(out, place.line)?;
    push(out, ":")?;
    push_decimal(out, place.column)
}

fn push_error(out: &mut Vec<u8>, message: &str) -> Added
    ensures { OnOk result (out.new.items ≡ out.old.items ++ error_text message.now) }
{
    push(out, ERROR)?;
    push(out, message)?;
    push(out, "\n")
}

// What may help, and the place that it speaks of.
fn push_hint(
    alloc: Global,
    out: &mut Vec<u8>,
    name: &str,
    scene: &Scene,
    hint: Option<Hint>,
) -> Added
    ensures { OnOk result ((lines : List ℕ) × AreHintLines name.now scene.now.text.now (setting scene.now) (option_map help_of hint.entry) lines × (out.new.items ≡ out.old.items ++ lines)) }
{
    match hint {
        Some(hint) => {
            push_words(alloc, out, scene, hint)?;
            push_seen(alloc, out, name, scene.text, hint.1.span(scene))?;
        }
        None => {}
    }
    Ok(())
}

fn push_words(alloc: Global, out: &mut Vec<u8>, scene: &Scene, hint: Hint) -> Added
    ensures { OnOk result (out.new.items ≡ out.old.items ++ (HINT.now ++ hint_text (setting scene.now) (help_of hint.entry) ++ line_end)) }
{
    let mut words = String::new(alloc);
    push_pieces(&mut words, scene, hint.0)?;
    push(out, HINT)?;
    push(out, &words)?;
    push(out, "\n")
}

fn push_seen(alloc: Global, out: &mut Vec<u8>, name: &str, text: &[u8], span: Option<Span>) -> Added
    ensures { OnOk result ((seen : List ℕ) × IsSeen name.now text.now span seen × (out.new.items ≡ out.old.items ++ seen)) }
{
    match span {
        Some(span) => push_other(alloc, out, name, text, span)?,
        None => {}
    }
    Ok(())
}

fn push_other(alloc: Global, out: &mut Vec<u8>, name: &str, text: &[u8], span: Span) -> Added
    ensures { OnOk result ((place : Place) × (drawn : List ℕ) × IsPlace text.now (min span.start (length text.now)) place × IsPicture text.now span place.line drawn
        × (out.new.items ≡ out.old.items ++ (ARROW.now ++ place_text name.now place ++ line_end ++ drawn))) }
{
    let place = place_of(text, span.start.min(text.len()));
    push_seen_place(out, name, place)?;
    push_picture(alloc, out, text, span, place.line)
}

fn push_seen_place(out: &mut Vec<u8>, name: &str, place: Place) -> Added
    ensures { OnOk result (out.new.items ≡ out.old.items ++ (ARROW.now ++ place_text name.now place ++ line_end)) }
{
    push(out, ARROW)?;
    push_place(out, name, place)?;
    push(out, "\n")
}

fn push_last(alloc: Global, out: &mut Vec<u8>, refusal: Refusal) -> Added
    ensures { OnOk result (out.new.items ≡ out.old.items ++ last_line refusal) }
{
    let line = line_of(alloc, refusal)?;
    push(out, TICKETC)?;
    push(out, &line)
}
