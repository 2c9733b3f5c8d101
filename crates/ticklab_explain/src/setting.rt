// The place of a refusal in its text.
ghost use Rattle.std.specs.Prelude.{◌≡◌, ◌≤◌, length};
ghost use Rattle.ticklab_explain.specs.Settings.{AreBlanksAfter, AreBlanksBefore, AreTokens, IsSetting, IsWordEnd, IsWordStart, behind, index_from, is_doubled, is_compared, is_word_byte, part_before, read_part, setting};

use crate::items::Items;
use crate::scene::{Scene, as_text, byte_at, text_at};
use crate::spot::{Spot, span_at, spot_of};
use base::span::Span;
use tick_syntax::token::Token;
use ticketc_refusals::Refusal;

/// The scene of a refusal in a text that these tokens spell, as far as it is read.
pub fn scene_of<'a>(
    items: Items,
    text: &'a [u8],
    tokens: &'a [Token],
    refusal: Refusal,
) -> Scene<'a>
    requires { AreTokens (read_part text.now refusal) tokens.now }
    ensures { IsSetting items text.now refusal (setting result) }
{
    let span = span_at(text, spot_of(refusal)).unwrap_or(Span { start: 0, end: 0 });
    let before = blank_start(text, span.start.min(text.len()));
    let after = blank_end(text, behind(text, span).min(text.len()));
    Scene {
        text,
        tokens,
        span,
        at: index_from(span.start, tokens),
        left: as_text(&text[word_start(text, before)..before]),
        right: as_text(&text[after..word_end(text, after)]),
        items,
    }
}

/// What tokens are sought in: where a character begins no token, what stands before it.
pub fn read_part(text: &[u8], refusal: Refusal) -> &[u8]
    ensures { result.now ≡ read_part text.now refusal }
{
    part_before(text, spot_of(refusal))
}

fn part_before(text: &[u8], spot: Spot) -> &[u8]
    ensures { result.now ≡ part_before text.now spot }
{
    match spot {
        Spot::Character(place) => &text[..place.min(text.len())],
        Spot::Nowhere | Spot::Stretch(_) | Spot::Line(_) | Spot::Item(_) => text,
    }
}

// The first token that begins at a byte or after it; how many there are, where none does.
fn index_from(start: usize, tokens: &[Token]) -> usize
    ensures { result ≡ index_from start tokens.now }
{
    for (index, token) in tokens.iter().enumerate() {
        if start <= token.span.start {
            return index;
        }
    }
    tokens.len()
}

// Whether a sign stands there that compares or joins two operands elsewhere.
#[tactic(auto, unfolding(crate::specs::Settings::is_compared))]
fn is_compared(word: &str) -> bool
    ensures { result ≡ is_compared word.now }
{
    (word == ">") | (word == "≥") | (word == "&") | (word == "|")
}

fn is_doubled(byte: u8) -> bool
    ensures { result ≡ is_doubled byte }
{
    (byte == b'=') | (byte == b'&') | (byte == b'|')
}

// What stands behind a sign of which two may stand together, and behind all else.
#[tactic(auto, unfolding(crate::specs::Settings::behind))]
fn behind(text: &[u8], span: Span) -> usize
    ensures { result ≡ behind text.now span }
{
    let is_one = is_compared(text_at(text, span)) & is_doubled(byte_at(text, span.end));
    if is_one { span.end + 1 } else { span.end }
}

fn is_word_byte(byte: u8) -> bool
    ensures { result ≡ is_word_byte byte }
{
    byte.is_ascii_alphabetic() | byte.is_ascii_digit() | (byte == b'_')
}

// Where the blanks before a place begin.
fn blank_start(text: &[u8], at: usize) -> usize
    requires { at ≤ length text.now }
    ensures { AreBlanksBefore text.now at result }
{
    let mut start = at;
    while start > 0 && text[start - 1] == b' ' {
        start -= 1;
    }
    start
}

// Where the name or number begins that ends at a place; this place where another thing stands.
fn word_start(text: &[u8], at: usize) -> usize
    requires { at ≤ length text.now }
    ensures { IsWordStart text.now at result }
{
    let least = at.saturating_sub(64);
    for start in (least..at).rev() {
        if !is_word_byte(text[start]) {
            return start + 1;
        }
    }
    least
}

// Where the blanks from a place on end.
fn blank_end(text: &[u8], at: usize) -> usize
    requires { at ≤ length text.now }
    ensures { AreBlanksAfter text.now at result }
{
    let mut end = at;
    while end < text.len() && text[end] == b' ' {
        end += 1;
    }
    end
}

// Where the name or number ends that begins at a place; this place where another thing stands.
fn word_end(text: &[u8], at: usize) -> usize
    requires { at ≤ length text.now }
    ensures { IsWordEnd text.now at result }
{
    let most = text.len().min(at + 64);
    for end in at..most {
        if !is_word_byte(text[end]) {
            return end;
        }
    }
    most
}
