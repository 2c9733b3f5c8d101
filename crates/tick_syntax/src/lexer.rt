// The tokens of a text, taken one after another from its front.
ghost use Rattle.std.specs.Prelude.{◌≡◌, ◌≢◌, ◌⊎◌, ◌<◌, ◌≤◌, List, [], length, map, slice_index, IfOk, IfErr, IsOkUnless, MatchResult, true, false};
ghost use Rattle.std.specs.Str.{IsAscii};
ghost use Rattle.tick_syntax.specs.Characters.{is_letter, is_digit};
ghost use Rattle.tick_syntax.specs.prover.Extents.{ReadsAt};
ghost use Rattle.tick_syntax.specs.prover.ValuedTokens.{plain, AreValues};
ghost use Rattle.tick_syntax.specs.Spelling.{Spells, StandInOrder, HasToken, FirstFault, FirstRefusal};
ghost use Rattle.tick_syntax.specs.declared.fault.TextFault.{TextFault};
ghost use Rattle.tick_syntax.specs.declared.fault.TextFault.TheVariants.{NoMemory, TextTooLong};
ghost use Rattle.tick_syntax.specs.declared.token.Token.{Token};

use crate::characters::is_letter;
use crate::extents::{gap_end, number_end, number_value, sign_end, word_end};
use crate::fault::TextFault;
use crate::terminals::{keyword_of, sign_of};
use crate::token::Token;
use crate::valued_token::{Meaning, ValuedToken};
use base::span::Span;
use std::alloc::Global;

const TEXT_LIMIT: usize = 1_000_000;

const NAME_LIMIT: usize = 64;

/// The tokens of a text, in its order. The fault that stands first in the text
/// is told, and a text of more than 1,000,000 bytes is not looked into. Memory is
/// wanted only for a text that has a token.
pub fn tokens(alloc: Global, text: &str) -> Result<Vec<Token>, TextFault>
    ensures ok { IfOk result (λ tokens. (length text.now ≤ 1000000) × Spells text.now tokens.items) }
    ensures order { IfOk result (λ tokens. StandInOrder text.now 0 tokens.items) }
    ensures err { IfErr result (λ fault. fault ≢ NoMemory → FirstRefusal text.now fault) }
    ensures memory { result ≡ Err NoMemory → (length text.now ≤ 1000000) × HasToken text.now }
    ensures long { 1000000 < length text.now → result ≡ Err TextTooLong }
    ensures spelled { (expected : List Token) → length text.now ≤ 1000000 → Spells text.now expected → MatchResult result (λ tokens. tokens.items ≡ expected) (λ fault. fault ≡ NoMemory) }
    ensures refused { (first : TextFault) → FirstRefusal text.now first → MatchResult result (λ tokens. ⊥) (λ fault. (fault ≡ first) ⊎ (fault ≡ NoMemory)) }
{
    let valued = valued_tokens(alloc, text)?;
    plain_tokens(alloc, &valued)
}

/// The tokens of a text with what each says; else its first refusal.
pub fn valued_tokens<'a>(alloc: Global, text: &'a str) -> Result<Vec<ValuedToken<'a>>, TextFault>
    ensures ok { IfOk result (λ valued. (length text.now ≤ 1000000) × AreValues text.now valued.items) }
    ensures err { IfErr result (λ fault. fault ≢ NoMemory → FirstRefusal text.now fault) }
    ensures memory { result ≡ Err NoMemory → (length text.now ≤ 1000000) × HasToken text.now }
    ensures long { 1000000 < length text.now → result ≡ Err TextTooLong }
{
    if text.len() > TEXT_LIMIT {
        return Err(TextFault::TextTooLong);
    }
    read_tokens(alloc, text.as_bytes())
}

/// The tokens without what they say.
pub fn plain_tokens(alloc: Global, valued: &[ValuedToken]) -> Result<Vec<Token>, TextFault>
    ensures ok { IfOk result (λ tokens. tokens.items ≡ map plain valued.now) }
    ensures err { IsOkUnless result NoMemory }
    ensures none { valued.now ≡ [] → result ≢ Err NoMemory }
{
    let mut tokens = Vec::new(alloc);
    for token in valued {
        tokens.push(token.plain())?;
    }
    Ok(tokens)
}

fn read_tokens<'a>(alloc: Global, bytes: &'a [u8]) -> Result<Vec<ValuedToken<'a>>, TextFault>
    ensures ok { IfOk result (λ valued. AreValues bytes.now valued.items) }
    ensures err { IfErr result (λ fault. fault ≢ NoMemory → FirstFault bytes.now fault) }
    ensures memory { result ≡ Err NoMemory → HasToken bytes.now }
{
    let mut tokens = Vec::new(alloc);
    let mut end = 0;
    'tokens: loop {
        let start = gap_end(bytes, end);
        if start == bytes.len() {
            return Ok(tokens);
        }
        let token = token_at(bytes, start)?;
        tokens.push(token)?;
        end = token.span.end;
    }
}

fn token_at(bytes: &[u8], from: usize) -> Result<ValuedToken<'_>, TextFault>
    requires { from < length bytes.now }
    ensures { ReadsAt bytes.now from result }
{
    let first = bytes[from];
    if is_letter(first) {
        word_at(bytes, from)
    } else if first.is_ascii_digit() {
        number_at(bytes, from)
    } else {
        sign_at(bytes, from)
    }
}

fn word_at(bytes: &[u8], from: usize) -> Result<ValuedToken<'_>, TextFault>
    requires within { from < length bytes.now }
    requires letter { is_letter (slice_index bytes.now from) ≡ true }
    ensures { ReadsAt bytes.now from result }
{
    let end = word_end(bytes, from);
    let span = Span { start: from, end };
    let word = &bytes[from..end];
    match keyword_of(word) {
        Some(keyword) => Ok(ValuedToken {
            meaning: Meaning::Terminal(keyword),
            span,
        }),
        None if end - from > NAME_LIMIT => Err(TextFault::NameTooLong(span)),
        None => Ok(ValuedToken {
            meaning: Meaning::Name(letters(word)),
            span,
        }),
    }
}

// ASCII bytes as text.
fn letters(bytes: &[u8]) -> &str
    requires { IsAscii bytes.now }
    ensures { result.now ≡ bytes.now }
{
    match str::from_utf8(bytes) {
        Ok(letters) => letters,
        Err(_) => unreachable!(),
    }
}

fn number_at(bytes: &[u8], from: usize) -> Result<ValuedToken<'_>, TextFault>
    requires within { from < length bytes.now }
    requires digit { is_digit (slice_index bytes.now from) ≡ true }
    ensures { ReadsAt bytes.now from result }
{
    let end = number_end(bytes, from);
    let span = Span { start: from, end };
    match number_value(&bytes[from..end]) {
        Some(value) => Ok(ValuedToken {
            meaning: Meaning::Number(value),
            span,
        }),
        None => Err(TextFault::NumberTooBig(span)),
    }
}

fn sign_at(bytes: &[u8], from: usize) -> Result<ValuedToken<'_>, TextFault>
    requires within { from < length bytes.now }
    requires letter { is_letter (slice_index bytes.now from) ≡ false }
    requires digit { is_digit (slice_index bytes.now from) ≡ false }
    ensures { ReadsAt bytes.now from result }
{
    let end = sign_end(bytes, from);
    let span = Span { start: from, end };
    match sign_of(&bytes[from..end]) {
        Some(sign) => Ok(ValuedToken {
            meaning: Meaning::Terminal(sign),
            span,
        }),
        None => Err(TextFault::BadCharacter(from)),
    }
}
