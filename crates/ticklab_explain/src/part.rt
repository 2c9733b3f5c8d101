// Stretches of tokens about a place, which hints quote.
ghost use Rattle.std.specs.Prelude.{◌≡◌, ◌+◌, ◌<◌, ◌≤◌, ◌++◌, ◌^◌, [], OnOk, if◌then◌else◌, length, string_bytes};
ghost use Rattle.ticklab_explain.specs.Parts.{begins_operand, closed_after, coming, ended_after, first_byte, has, is_operand, is_valued, last_open, leading, nested, opens, part_of, quoted, recent, spelled, trailing};
ghost use Rattle.ticklab_explain.specs.Settings.{setting};

use crate::scene::{Scene, shortened, text_at};
use crate::writing::Added;
use tick_syntax::token::{Sort, Token};

/// A stretch of tokens about the place, of at most 16.
#[derive(Clone, Copy)]
pub enum Part {
    /// The operand that ends before the place.
    OperandBefore,
    /// The operand that begins so many tokens after it.
    OperandAfter(usize),
    /// What stands before it from the innermost open bracket on.
    Bracket,
    /// What stands from it on up to the first semicolon.
    ToSemicolon,
}

/// Whether there is such a part.
#[tactic(auto, unfolding(crate::specs::Parts::has))]
pub fn has(scene: &Scene, part: Part) -> bool
    ensures { result ≡ has (setting scene.now) part }
{
    !part_of(scene, part).is_empty()
}

/// Adds a part as it is written.
#[tactic(auto, unfolding(crate::specs::Parts::quoted))]
pub fn push_part(text: &mut String, scene: &Scene, part: Part) -> Added
    ensures { OnOk result (string_bytes text.new ≡ string_bytes text.old ++ quoted (setting scene.now) part) }
{
    push_spelled(text, scene.text, part_of(scene, part))
}

// Adds tokens, with a blank between those that don't touch.
fn push_spelled(text: &mut String, bytes: &[u8], tokens: &[Token]) -> Added
    ensures { OnOk result (string_bytes text.new ≡ string_bytes text.old ++ spelled bytes.now (first_byte tokens.now) tokens.now) }
{
    let mut end = first_byte(tokens);
    for token in tokens {
        text.push_str(if token.span.start == end { "" } else { " " })?;
        text.push_str(shortened(text_at(bytes, token.span)))?;
        end = token.span.end;
    }
    Ok(())
}

fn first_byte(tokens: &[Token]) -> usize
    ensures { result ≡ first_byte tokens.now }
{
    match tokens {
        [token, ..] => token.span.start,
        [] => 0,
    }
}

// The tokens of a part; none where there is no such part.
fn part_of<'a>(scene: &Scene<'a>, part: Part) -> &'a [Token]
    ensures { result.now ≡ part_of (setting scene.now) part }
{
    match part {
        Part::OperandBefore => trailing(scene.text, recent(scene)),
        Part::OperandAfter(count) => leading(scene.text, coming(scene, count)),
        Part::Bracket => last_open(scene.text, recent(scene)),
        Part::ToSemicolon => {
            let following = coming(scene, 0);
            &following[..ended_after(scene.text, following)]
        }
    }
}

// The last tokens before the place.
#[tactic(auto, unfolding(crate::specs::Parts::recent))]
fn recent<'a>(scene: &Scene<'a>) -> &'a [Token]
    ensures { result.now ≡ recent (setting scene.now) }
{
    let front = scene.front();
    &front[front.len().saturating_sub(16)..]
}

// Tokens, the first of which stands so many after the place.
#[tactic(auto, unfolding(crate::specs::Parts::coming))]
fn coming<'a>(scene: &Scene<'a>, count: usize) -> &'a [Token]
    ensures { result.now ≡ coming (setting scene.now) count }
{
    let tokens = scene.tokens;
    if tokens.len().saturating_sub(scene.at) <= count {
        return &tokens[..0];
    }
    let rest = &tokens[scene.at + count..];
    &rest[..rest.len().min(16)]
}

// The operand that these tokens end with.
fn trailing<'a>(text: &[u8], tokens: &'a [Token]) -> &'a [Token]
    ensures { result.now ≡ trailing text.now tokens.now }
{
    for start in 0..tokens.len() {
        let rest = &tokens[start..];
        if leading(text, rest).len() == rest.len() {
            return rest;
        }
    }
    &tokens[..0]
}

// The operand that these tokens begin with.
#[tactic(auto, unfolding(crate::specs::Parts::leading))]
fn leading<'a>(text: &[u8], tokens: &'a [Token]) -> &'a [Token]
    ensures { result.now ≡ leading text.now tokens.now }
{
    if begins_operand(text, tokens) {
        &tokens[..closed_after(text, tokens)]
    } else {
        &tokens[..0]
    }
}

#[tactic(auto, unfolding(crate::specs::Parts::begins_operand))]
fn begins_operand(text: &[u8], tokens: &[Token]) -> bool
    ensures { result ≡ begins_operand text.now tokens.now }
{
    match tokens {
        [token, ..] => is_operand(text, token) | (text_at(text, token.span) == "("),
        [] => false,
    }
}

// Whether a token is an operand by itself.
#[tactic(auto, unfolding(crate::specs::Parts::is_operand))]
fn is_operand(text: &[u8], token: &Token) -> bool
    ensures { result ≡ is_operand text.now token.now }
{
    let word = text_at(text, token.span);
    is_valued(token.sort) | ((word == "me") | (word == "n"))
}

fn is_valued(sort: Sort) -> bool
    ensures { result ≡ is_valued sort }
{
    match sort {
        Sort::Name | Sort::Num(_) => true,
        Sort::Keyword | Sort::Sign => false,
    }
}

// After how many tokens no bracket is open; 0 where one stays open.
fn closed_after(text: &[u8], tokens: &[Token]) -> usize
    ensures count { result ≡ closed_after text.now 0 0 tokens.now }
    ensures within { result ≤ length tokens.now }
{
    let mut depth: usize = 0;
    for (index, token) in tokens.iter().enumerate() {
        depth = nested(text_at(text, token.span), depth);
        if depth == 0 {
            return index + 1;
        }
    }
    0
}

// How many brackets are open after a word.
#[tactic(auto, unfolding(crate::specs::Parts::nested))]
fn nested(word: &str, depth: usize) -> usize
    requires { depth + 1 < 2 ^ 64 }
    ensures count { result ≡ nested word.now depth }
    ensures few { result ≤ depth + 1 }
{
    match word {
        "(" => depth + 1,
        ")" => depth.saturating_sub(1),
        _ => depth,
    }
}

// From the last bracket on that stays open; none where all are closed.
fn last_open<'a>(text: &[u8], tokens: &'a [Token]) -> &'a [Token]
    ensures { result.now ≡ last_open text.now [] tokens.now }
{
    let mut found = &tokens[..0];
    for start in 0..tokens.len() {
        found = later_open(text, &tokens[start..], found);
    }
    found
}

// These tokens where they begin with a bracket that stays open, else those that were found before.
fn later_open<'a>(text: &[u8], tokens: &'a [Token], found: &'a [Token]) -> &'a [Token]
    ensures { result.now ≡ (if opens text.now tokens.now then tokens.now else found.now) }
{
    if opens(text, tokens) { tokens } else { found }
}

#[tactic(auto, unfolding(crate::specs::Parts::opens))]
fn opens(text: &[u8], tokens: &[Token]) -> bool
    ensures { result ≡ opens text.now tokens.now }
{
    match tokens {
        [token, ..] => (text_at(text, token.span) == "(") & (closed_after(text, tokens) == 0),
        [] => false,
    }
}

// After how many tokens the first semicolon has come; 0 where none comes.
fn ended_after(text: &[u8], tokens: &[Token]) -> usize
    ensures count { result ≡ ended_after text.now 0 tokens.now }
    ensures within { result ≤ length tokens.now }
{
    for (index, token) in tokens.iter().enumerate() {
        if text_at(text, token.span) == ";" {
            return index + 1;
        }
    }
    0
}
