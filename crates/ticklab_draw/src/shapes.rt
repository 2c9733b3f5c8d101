// The shapes of marks, with the words beside them. Each is drawn about the point where its mark stands.
ghost use Rattle.std.specs.Prelude.{◌≡◌, ◌++◌, ◌<◌, ◌^◌, OnOk};
ghost use Rattle.ticklab_draw.specs.Words.{names};
ghost use Rattle.ticklab_draw.specs.Shapes.{act_shape, answer_shape, drawn, field, flag_label, label, outline, shape_of, words_text};

use crate::beside::beside;
use crate::layout::{field_half, flag_middle, flag_width};
use crate::mark::{Mark, Sight};
use crate::pieces::WORDS_END;
use crate::words::Cast;
use crate::writing::{Added, push, push_one};
use base::Act;
use std::alloc::Global;

const FULL_SQUARE: &str = "<rect class=\"f\" x=\"-7\" y=\"-7\" width=\"14\" height=\"14\"/>";

const EMPTY_SQUARE: &str = "<rect class=\"o\" x=\"-6\" y=\"-6\" width=\"12\" height=\"12\"/>";

const TRIANGLE: &str = "<path class=\"o\" d=\"M-9 -7H9L0 9Z\"/>";

const CIRCLE: &str = "<circle class=\"o\" r=\"8\"/>";

const FULL_DIAMOND: &str = "<path class=\"f\" d=\"M-8 0L0 -8L8 0L0 8Z\"/>";

const EMPTY_DIAMOND: &str = "<path class=\"o\" d=\"M-8 0L0 -8L8 0L0 8Z\"/>";

const CROSS: &str = "<path class=\"x\" d=\"M-8 -8L8 8M8 -8L-8 8\"/>";

const BAR: &str = "<rect class=\"f\" x=\"-2\" y=\"-11\" width=\"5\" height=\"22\"/>";

const BROKEN_CIRCLE: &str = "<circle class=\"o\" r=\"7\" stroke-dasharray=\"3 2.5\"/>";

const FIELD: &str = "<rect class=\"f\" x=\"-";

const FIELD_TOP: &str = "\" y=\"-12\"";

const FIELD_WIDTH: &str = " width=\"";

const FIELD_END: &str = " height=\"24\" rx=\"12\"/>";

const FLAG: &str = "<path class=\"flag\" d=\"M0 0V-28H";

const FLAG_END: &str = "l-5 8l5 8H0\"/>";

// Where words stand, and in which style.
const ABOVE: &str = "<text y=\"-14\"";

const BELOW: &str = "<text y=\"21\"";

const INSIDE: &str = "<text class=\"in\" y=\"4\"";

const STRONG: &str = " class=\"strong\"";

const TRAP_STYLE: &str = " class=\"trap\"";

const ON_FLAG: &str = "<text class=\"on\" x=\"";

const ON_FLAG_TOP: &str = "\" y=\"-16\">";

/// What stands in a lane for a mark, as the legend has it.
#[derive(Clone, Copy)]
pub enum Shape {
    Put,
    Get,
    Stamp,
    Clear,
    Scan,
    Yes,
    No,
    Out,
    Trap,
    End,
    Lost,
}

/// Adds what is drawn of a mark.
#[tactic(auto, unfolding(crate::specs::Shapes::drawn))]
pub fn push_drawn(alloc: Global, out: &mut Vec<u8>, cast: Cast<'_>, mark: &Mark) -> Added
    ensures { OnOk result (out.new.items ≡ out.old.items ++ drawn cast.entry.processes (names cast.entry.registers.now) mark.now) }
{
    let words = beside(alloc, cast, mark)?;
    let shape = shape_of(mark.sight);
    push_outline(out, shape, words.len())?;
    push_words(out, shape, &words)
}

/// The shape of what a mark shows.
pub fn shape_of(sight: Sight) -> Shape
    ensures { result ≡ shape_of sight }
{
    match sight {
        Sight::Act(act) => act_shape(act),
        Sight::Get(..) => Shape::Get,
        Sight::Stamp(_) => Shape::Stamp,
        Sight::Clear(_) => Shape::Clear,
        Sight::Lost(_) => Shape::Lost,
    }
}

fn act_shape(act: Act) -> Shape
    ensures { result ≡ act_shape act }
{
    match act {
        Act::Put(..) => Shape::Put,
        Act::Get(..) => Shape::Get,
        Act::Stamp => Shape::Stamp,
        Act::Clear => Shape::Clear,
        Act::Scan(_) => Shape::Scan,
        Act::Older(_, _, answer) => answer_shape(answer),
        Act::Held(_, answer) => answer_shape(answer),
        Act::Out(_) => Shape::Out,
        Act::Trap(_) => Shape::Trap,
        Act::End => Shape::End,
    }
}

fn answer_shape(answer: u8) -> Shape
    ensures { result ≡ answer_shape answer }
{
    if answer == 0 { Shape::No } else { Shape::Yes }
}

#[tactic(auto, unfolding(crate::specs::Shapes::outline))]
fn push_outline(out: &mut Vec<u8>, shape: Shape, letters: usize) -> Added
    ensures { OnOk result (out.new.items ≡ out.old.items ++ outline shape letters) }
{
    match shape {
        Shape::Put => push(out, FULL_SQUARE),
        Shape::Get => push(out, EMPTY_SQUARE),
        Shape::Stamp => push_field(out, field_half(letters)),
        Shape::Clear => push(out, TRIANGLE),
        Shape::Scan => push(out, CIRCLE),
        Shape::Yes => push(out, FULL_DIAMOND),
        Shape::No => push(out, EMPTY_DIAMOND),
        Shape::Out => push_one(out, FLAG, flag_width(letters), FLAG_END),
        Shape::Trap => push(out, CROSS),
        Shape::End => push(out, BAR),
        Shape::Lost => push(out, BROKEN_CIRCLE),
    }
}

// A field so wide on each side.
#[tactic(auto, unfolding(crate::specs::Shapes::field))]
fn push_field(out: &mut Vec<u8>, half: u128) -> Added
    requires { half < 2 ^ 90 }
    ensures { OnOk result (out.new.items ≡ out.old.items ++ field half) }
{
    push_one(out, FIELD, half, FIELD_TOP)?;
    push_one(out, FIELD_WIDTH, half * 2, "\"")?;
    push(out, FIELD_END)
}

#[tactic(auto, unfolding(crate::specs::Shapes::words_text))]
fn push_words(out: &mut Vec<u8>, shape: Shape, words: &[u8]) -> Added
    ensures { OnOk result (out.new.items ≡ out.old.items ++ words_text shape words.now) }
{
    match shape {
        Shape::Put => push_label(out, ABOVE, "", words),
        Shape::Get => push_label(out, BELOW, "", words),
        Shape::Stamp => push_label(out, INSIDE, "", words),
        Shape::Clear => Ok(()),
        Shape::Scan => push_label(out, BELOW, STRONG, words),
        Shape::Yes => push_label(out, BELOW, "", words),
        Shape::No => push_label(out, BELOW, "", words),
        Shape::Out => push_flag_label(out, words),
        Shape::Trap => push_label(out, ABOVE, TRAP_STYLE, words),
        Shape::End => Ok(()),
        Shape::Lost => Ok(()),
    }
}

#[tactic(auto, unfolding(crate::specs::Shapes::label))]
fn push_label(out: &mut Vec<u8>, head: &str, style: &str, words: &[u8]) -> Added
    ensures { OnOk result (out.new.items ≡ out.old.items ++ label head.now style.now words.now) }
{
    push(out, head)?;
    push(out, style)?;
    push(out, ">")?;
    out.extend_from_slice(words)?;
    push(out, WORDS_END)
}

#[tactic(auto, unfolding(crate::specs::Shapes::flag_label))]
fn push_flag_label(out: &mut Vec<u8>, words: &[u8]) -> Added
    ensures { OnOk result (out.new.items ≡ out.old.items ++ flag_label words.now) }
{
    let middle = flag_middle(words.len());
    push_one(out, ON_FLAG, middle, ON_FLAG_TOP)?;
    out.extend_from_slice(words)?;
    push(out, WORDS_END)
}
