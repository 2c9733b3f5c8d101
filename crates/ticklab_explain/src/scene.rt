// A place of a text, and what stands around it.
ghost use Rattle.std.specs.Prelude.{◌≡◌, ◌+◌, ◌<◌, ◌≤◌, ◌^◌, IfSome, reverse, slice_index};
ghost use Rattle.std.specs.Str.{is_utf8};
ghost use Rattle.ticklab_explain.specs.Hints.{first_declaration, first_written};
ghost use Rattle.ticklab_explain.specs.Settings.{about, after, as_text, before, counted, front, front_end, has_begun, here, is_keyword_here, is_name, is_name_after, is_name_at, is_name_before, open_brace, setting, shortened, sort_here, text_at, touches, unclosed, word};

use crate::items::Items;
use base::span::Span;
use std::str;
use tick_syntax::token::{Sort, Token};

/// A refusal's place in a text, with what stands about it.
#[derive(Clone, Copy)]
pub struct Scene<'a> {
    pub text: &'a [u8],
    pub tokens: &'a [Token],
    /// What the refusal is about.
    pub span: Span,
    /// Which token stands there; how many there are, where it is the text's end.
    pub at: usize,
    /// The words on both sides of the span.
    pub left: &'a str,
    pub right: &'a str,
    /// What the items of a schedule may be.
    pub items: Items,
}

/// Whether bytes are a text.
pub fn is_text(bytes: &[u8]) -> bool
    ensures { result ≡ is_utf8 bytes.now }
{
    match str::from_utf8(bytes) {
        Ok(_) => true,
        Err(_) => false,
    }
}

/// The bytes, where they are a text; else none.
#[tactic(auto, unfolding(crate::specs::Settings::as_text))]
pub fn as_text(bytes: &[u8]) -> &str
    ensures { result.now ≡ as_text bytes.now }
{
    match str::from_utf8(bytes) {
        Ok(text) => text,
        Err(_) => "",
    }
}

/// The bytes of a span, where they are a text; else none.
#[tactic(auto, unfolding(crate::specs::Settings::text_at))]
pub fn text_at(text: &[u8], span: Span) -> &str
    ensures { result.now ≡ text_at text.now span }
{
    if span.end < span.start || text.len() < span.end {
        return "";
    }
    as_text(&text[span.start..span.end])
}

/// The first bytes of a long word.
#[tactic(auto, unfolding(crate::specs::Settings::shortened))]
pub fn shortened(word: &str) -> &str
    ensures { result.now ≡ shortened word.now }
{
    let bytes = word.as_bytes();
    if bytes.len() < 80 {
        return word;
    }
    as_text(&bytes[..80])
}

/// The byte at a place; 0 where there is none.
pub fn byte_at(text: &[u8], place: usize) -> u8
    ensures { result ≡ slice_index text.now place }
{
    if place < text.len() { text[place] } else { 0 }
}

/// The first name that is written so.
fn first_written(text: &[u8], name: &str, tokens: &[Token]) -> Option<Span>
    ensures { result ≡ first_written text.now name.now tokens.now }
{
    for token in tokens {
        if is_name(token.sort) & (text_at(text, token.span) == name) {
            return Some(token.span);
        }
    }
    None
}

/// Whether it is the sort of a name.
pub fn is_name(sort: Sort) -> bool
    ensures { result ≡ is_name sort }
{
    match sort {
        Sort::Name => true,
        Sort::Num(_) | Sort::Keyword | Sort::Sign => false,
    }
}

impl<'a> Scene<'a> {
    /// What the refusal is about, as it is written.
    #[tactic(auto, unfolding(crate::specs::Settings::about))]
    pub fn about(&self) -> &'a str
        ensures { result.now ≡ about (setting self.now) }
    {
        text_at(self.text, self.span)
    }

    /// The token at an index, as it is written; nothing where there is none.
    #[tactic(auto, unfolding(crate::specs::Settings::word))]
    fn word(&self, index: usize) -> &'a str
        ensures { result.now ≡ word (setting self.now) index }
    {
        match self.tokens.get(index) {
            Some(token) => shortened(text_at(self.text, token.span)),
            None => "",
        }
    }

    /// What stands here.
    #[tactic(auto, unfolding(crate::specs::Settings::here))]
    pub fn here(&self) -> &'a str
        ensures { result.now ≡ here (setting self.now) }
    {
        self.word(self.at)
    }

    /// What stands so many tokens before.
    #[tactic(auto, unfolding(crate::specs::Settings::before))]
    pub fn before(&self, count: usize) -> &'a str
        ensures { result.now ≡ before (setting self.now) count }
    {
        if self.at < count {
            return "";
        }
        self.word(self.at - count)
    }

    /// What stands so many tokens after.
    #[tactic(auto, using(std::proofs::lemmas::Option::slice_get_past), unfolding(crate::specs::Settings::after, crate::specs::Settings::word))]
    pub fn after(&self, count: usize) -> &'a str
        ensures { result.now ≡ after (setting self.now) count }
    {
        let rest = self.tokens.len().saturating_sub(self.at);
        if rest <= count {
            return "";
        }
        self.word(self.at + count)
    }

    /// The sort of what stands here; none at the text's end.
    #[tactic(auto, unfolding(crate::specs::Settings::sort_here))]
    pub fn sort(&self) -> Option<Sort>
        ensures { result ≡ sort_here (setting self.now) }
    {
        match self.tokens.get(self.at) {
            Some(token) => Some(token.sort),
            None => None,
        }
    }

    /// Whether a keyword stands here.
    #[tactic(auto, unfolding(crate::specs::Settings::is_keyword_here))]
    pub fn is_keyword(&self) -> bool
        ensures { result ≡ is_keyword_here (setting self.now) }
    {
        match self.sort() {
            Some(Sort::Keyword) => true,
            Some(Sort::Name | Sort::Num(_) | Sort::Sign) | None => false,
        }
    }

    /// Whether a name stands at an index.
    #[tactic(auto, unfolding(crate::specs::Settings::is_name_at))]
    pub fn is_name_at(&self, index: usize) -> bool
        ensures { result ≡ is_name_at (setting self.now) index }
    {
        match self.tokens.get(index) {
            Some(token) => is_name(token.sort),
            None => false,
        }
    }

    /// Whether a name stands so many tokens before.
    #[tactic(auto, unfolding(crate::specs::Settings::is_name_before))]
    pub fn is_name_before(&self, count: usize) -> bool
        ensures { result ≡ is_name_before (setting self.now) count }
    {
        if self.at < count {
            return false;
        }
        self.is_name_at(self.at - count)
    }

    /// Whether a name stands so many tokens after.
    #[tactic(auto, using(std::proofs::lemmas::Option::slice_get_past), unfolding(crate::specs::Settings::is_name_after, crate::specs::Settings::is_name_at))]
    pub fn is_name_after(&self, count: usize) -> bool
        ensures { result ≡ is_name_after (setting self.now) count }
    {
        if self.tokens.len().saturating_sub(self.at) <= count {
            return false;
        }
        self.is_name_at(self.at + count)
    }

    /// Where the token before ends; 0 where there is none.
    #[tactic(auto, unfolding(crate::specs::Settings::front_end))]
    pub fn front_end(&self) -> usize
        ensures { result ≡ front_end (setting self.now) }
    {
        if self.at == 0 {
            return 0;
        }
        match self.tokens.get(self.at - 1) {
            Some(token) => token.span.end.min(self.text.len()),
            None => 0,
        }
    }

    /// Whether the token before this one touches it.
    #[tactic(auto, unfolding(crate::specs::Settings::touches))]
    pub fn touches(&self) -> bool
        ensures { result ≡ touches (setting self.now) }
    {
        let end = self.front_end();
        match self.tokens.get(self.at) {
            Some(token) => token.span.start == end,
            None => false,
        }
    }

    /// The tokens before.
    #[tactic(auto, unfolding(crate::specs::Settings::front))]
    pub fn front(&self) -> &'a [Token]
        ensures { result.now ≡ front (setting self.now) }
    {
        if self.at < self.tokens.len() {
            &self.tokens[..self.at]
        } else {
            self.tokens
        }
    }

    /// Whether `begin` stands before.
    #[tactic(auto, unfolding(crate::specs::Settings::has_begun))]
    pub fn has_begun(&self) -> bool
        ensures { result ≡ has_begun (setting self.now) }
    {
        self.front()
            .iter()
            .any(|token| text_at(self.text, token.span) == "begin")
    }

    /// The first declaration of the name that the refusal is about.
    #[tactic(auto, unfolding(crate::specs::Hints::first_declaration))]
    pub fn first_declaration(&self) -> Option<Span>
        ensures { result ≡ first_declaration (setting self.now) }
    {
        first_written(self.text, self.about(), self.tokens)
    }

    /// The innermost `{` before that is still open.
    #[tactic(auto, unfolding(crate::specs::Settings::open_brace))]
    pub fn open_brace(&self) -> Option<Span>
        ensures { result ≡ open_brace (setting self.now) }
    {
        unclosed(self.text, self.front())
    }
}

// Of tokens the last `{` that no `}` of them closes.
fn unclosed(text: &[u8], tokens: &[Token]) -> Option<Span>
    ensures { result ≡ unclosed text.now 0 (reverse tokens.now) }
{
    let mut closed: usize = 0;
    let mut at = tokens.len();
    while at > 0 {
        at -= 1;
        let span = tokens[at].span;
        match counted(text_at(text, span), closed) {
            Some(more) => closed = more,
            None => return Some(span),
        }
    }
    None
}

// After how many `}` that close one the words before this one stand; none at a `{` that none of them closes.
#[tactic(auto, unfolding(crate::specs::Settings::counted))]
fn counted(word: &str, closed: usize) -> Option<usize>
    requires { closed + 1 < 2 ^ 64 }
    ensures count { result ≡ counted word.now closed }
    ensures few { IfSome result (λ more. more ≤ closed + 1) }
{
    match word {
        "}" => Some(closed + 1),
        "{" => closed.checked_sub(1),
        _ => Some(closed),
    }
}
