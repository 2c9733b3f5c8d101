//! Colours, for a terminal: the words `error:` and `hint:` of a report and its carets stand out.
ghost use Rattle.std.specs.Prelude.{◌≡◌, ◌<◌, ◌++◌, ◌∷◌, [], IfOk, OnOk, length, slice_index};
ghost use Rattle.ticklab_answers.specs.Colours.{coloured, colours_for, caret_style, style_at, style_between};

use std::alloc::{AllocError, Global};

/// Which outputs are shown with colours.
#[derive(Clone, Copy, PartialEq, Eq, Debug)]
pub struct Colours {
    pub out: bool,
    pub err: bool,
}

const RED: &str = "\x1b[1;31m";

const CYAN: &str = "\x1b[1;36m";

const PLAIN: &str = "\x1b[0m";

/// The colours of an answer. JSON, SVG and HTML have none.
pub fn colours_for(colours: Colours, is_data: bool) -> Colours
    ensures { result ≡ colours_for colours is_data }
{
    Colours {
        out: colours.out && !is_data,
        err: colours.err,
    }
}

/// The text with its colours.
#[tactic(auto, using(crate::proofs::Painting::next))]
pub fn coloured(alloc: Global, text: &[u8]) -> Result<Vec<u8>, AllocError>
    ensures { IfOk result (λ shown. shown.items ≡ coloured text.now) }
{
    let mut shown = Vec::new(alloc);
    for at in 0..text.len() {
        push_byte(&mut shown, text, at)?;
    }
    Ok(shown)
}

// The byte at this place, behind what stands before it.
fn push_byte(shown: &mut Vec<u8>, text: &[u8], at: usize) -> Result<(), AllocError>
    requires { at < length text.now }
    ensures { OnOk result (shown.new.items ≡ shown.old.items ++ (style_at text.now at ++ slice_index text.now at ∷ [])) }
{
    shown.extend_from_slice(style_at(text, at).as_bytes())?;
    let byte = text[at];
    Ok(shown.push(byte)?)
}

// What stands before the byte at this place.
fn style_at(text: &[u8], at: usize) -> &'static str
    requires { at < length text.now }
    ensures { result.now ≡ style_at text.now at }
{
    style_between(&text[..at], &text[at..])
}

fn style_between(before: &[u8], rest: &[u8]) -> &'static str
    ensures { result.now ≡ style_between before.now rest.now }
{
    if before.ends_with(b": ") && rest.starts_with(b"error: ") {
        return RED;
    }
    if before.ends_with(b"\n") && rest.starts_with(b"hint: ") {
        return CYAN;
    }
    if before.ends_with(b": error:") || before.ends_with(b"\nhint:") {
        return PLAIN;
    }
    caret_style(before.ends_with(b"^"), rest.starts_with(b"^"))
}

fn caret_style(is_behind: bool, is_here: bool) -> &'static str
    ensures { result.now ≡ caret_style is_behind is_here }
{
    match (is_behind, is_here) {
        (false, true) => RED,
        (true, false) => PLAIN,
        _ => "",
    }
}
