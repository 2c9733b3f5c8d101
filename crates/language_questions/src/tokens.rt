// Which token a question has at a place.
ghost use Rattle.std.specs.Prelude.{◌≡◌, ◌≢◌, ◌<◌, ◌≤◌, length, slice_get};
ghost use Rattle.std.specs.Str.{IsAscii};
ghost use Rattle.tick_kinds.specs.Declarations.{declarations, slot_in};
ghost use Rattle.language_questions.specs.Names.{is_row};
ghost use Rattle.language_questions.specs.Tokens.{letters_at, number_piece, piece_by, short_piece, sign_piece, token_at, token_from, word_meaning, word_piece, word_span};
ghost use Rattle.language_questions.specs.prover.Letters.{IsLetters};
ghost use Rattle.language_questions.specs.declared.token.Meaning.TheVariants.{Name};

use crate::characters::is_letter;
use crate::extents::Extent;
use crate::reader::Reader;
use crate::spelled::{sign_of, word_of};
use crate::token::{Meaning, Token};
use base::number;
use base::span::Span;
use tick_kinds::Kind;

const NUMBERS: u64 = 4_294_967_296;

const HASH: u8 = b'#';

impl<'a> Reader<'a> {
    /// The token at a place.
    #[tactic(auto, unfolding(crate::specs::Tokens::token_at))]
    pub fn token(&self, at: usize) -> Token
        ensures token { result ≡ token_at self.now.program.now self.now.text.now at }
        ensures within { at ≤ length self.now.text.now → result.span.end ≤ length self.now.text.now }
        ensures name { result.meaning ≡ Name → IsLetters self.now.text.now result.span }
    {
        self.token_from(Extent::Blanks.end(self.text, at))
    }

    #[tactic(auto, unfolding(crate::specs::Tokens::token_from))]
    fn token_from(&self, start: usize) -> Token
        ensures token { result ≡ token_from self.now.program.now self.now.text.now start }
        ensures within { start ≤ length self.now.text.now → result.span.end ≤ length self.now.text.now }
        ensures name { result.meaning ≡ Name → IsLetters self.now.text.now result.span }
    {
        let (meaning, end) = self.piece(start);
        Token {
            meaning,
            span: Span { start, end },
        }
    }

    fn piece(&self, from: usize) -> (Meaning, usize)
        ensures piece { result ≡ piece_by self.now.program.now (slice_get self.now.text.now from) self.now.text.now from }
        ensures within { from ≤ length self.now.text.now → result.1 ≤ length self.now.text.now }
        ensures name { result.0 ≡ Name → IsLetters self.now.text.now (record { start = from; end = result.1 }) }
    {
        match self.text.get(from).copied() {
            None => (Meaning::End, from),
            Some(HASH) => (Meaning::End, from),
            Some(byte) if is_letter(byte) => self.word(from),
            Some(byte) if byte.is_ascii_digit() => self.number(from),
            Some(_) => self.sign_piece(from),
        }
    }

    /// The letters and digits at a place, after blanks.
    pub fn word_span(&self, at: usize) -> Span
        requires { at ≤ length self.now.text.now }
        ensures span { result ≡ word_span self.now.text.now at }
        ensures ordered { result.start ≤ result.end }
        ensures within { result.end ≤ length self.now.text.now }
    {
        let start = Extent::Blanks.end(self.text, at);
        Span {
            start,
            end: Extent::Word.end(self.text, start),
        }
    }

    fn word(&self, from: usize) -> (Meaning, usize)
        requires { from < length self.now.text.now }
        ensures piece { result ≡ word_piece self.now.program.now self.now.text.now from }
        ensures within { result.1 ≤ length self.now.text.now }
        ensures name { IsLetters self.now.text.now (record { start = from; end = result.1 }) }
    {
        let end = Extent::Word.end(self.text, from);
        let letters = self.letters(Span { start: from, end });
        (self.meaning_of(letters), end)
    }

    /// The letters of a name.
    pub fn letters(&self, span: Span) -> &'a str
        requires { IsLetters self.now.text.now span }
        ensures { result.now ≡ letters_at self.now.text.now span }
    {
        ascii_text(&self.text[span.start..span.end])
    }

    fn meaning_of(&self, letters: &str) -> Meaning
        ensures { result ≡ word_meaning self.now.program.now letters.now }
    {
        match word_of(letters.as_bytes()) {
            None => Meaning::Name,
            Some(_) if self.is_row(letters) => Meaning::TwoMeanings,
            Some(word) => Meaning::Word(word),
        }
    }

    /// Whether a name is declared as a register row.
    pub fn is_row(&self, letters: &str) -> bool
        ensures { result ≡ is_row (slot_in (declarations self.now.program.now) letters.now) }
    {
        matches!(self.program.kind(letters), Some((Kind::Register, _)))
    }

    fn number(&self, from: usize) -> (Meaning, usize)
        requires { from < length self.now.text.now }
        ensures piece { result ≡ number_piece self.now.text.now from }
        ensures within { result.1 ≤ length self.now.text.now }
    {
        let end = Extent::Digits.end(self.text, from);
        match number(&self.text[from..end]) {
            Some(value) if value < NUMBERS => (Meaning::Number(value as u32), end),
            _ => (Meaning::TooBig, end),
        }
    }

    #[tactic(auto, unfolding(crate::specs::Tokens::sign_piece))]
    fn sign_piece(&self, from: usize) -> (Meaning, usize)
        requires { from < length self.now.text.now }
        ensures piece { result ≡ sign_piece self.now.text.now from }
        ensures within { result.1 ≤ length self.now.text.now }
        ensures no_name { result.0 ≢ Name }
    {
        let rest = &self.text[from..];
        let two = &rest[..rest.len().min(2)];
        match sign_of(two) {
            Some(sign) => (Meaning::Sign(sign), from + two.len()),
            None => self.short_piece(from),
        }
    }

    // A sign of one byte, or a character that no token begins with.
    #[tactic(auto, unfolding(crate::specs::Tokens::short_piece))]
    fn short_piece(&self, from: usize) -> (Meaning, usize)
        requires { from < length self.now.text.now }
        ensures piece { result ≡ short_piece self.now.text.now from }
        ensures within { result.1 ≤ length self.now.text.now }
        ensures no_name { result.0 ≢ Name }
    {
        match sign_of(&self.text[from..from + 1]) {
            Some(sign) => (Meaning::Sign(sign), from + 1),
            None => (Meaning::NoToken, Extent::Further.end(self.text, from + 1)),
        }
    }
}

// ASCII bytes as text.
fn ascii_text(bytes: &[u8]) -> &str
    requires { IsAscii bytes.now }
    ensures { result.now ≡ bytes.now }
{
    match str::from_utf8(bytes) {
        Ok(letters) => letters,
        Err(_) => unreachable!(),
    }
}
