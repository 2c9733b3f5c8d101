use base::span::Span;

/// What a token is. Which keyword or sign it is, the text at its span says.
#[derive(Clone, Copy, PartialEq, Eq, Debug)]
pub enum Sort {
    Name,
    /// A number, with its value.
    Num(u32),
    Keyword,
    Sign,
}

/// A token of a text, whose bytes are the text's at its span.
#[derive(Clone, Copy, PartialEq, Eq, Debug)]
pub struct Token {
    pub sort: Sort,
    pub span: Span,
}
