//! The keywords and signs of programs, and how each is spelled.
ghost use Rattle.std.specs.Prelude.{◌≡◌};
ghost use Rattle.tick_syntax.specs.Terminals.{spelling, signs, keywords, spelled_among};

use base::tree::Op;

/// A keyword or a sign.
#[derive(Clone, Copy, PartialEq, Eq)]
pub enum Terminal {
    Processes,
    Var,
    Scan,
    Reg,
    Begin,
    End,
    Get,
    Put,
    Stamp,
    Clear,
    Copy,
    Older,
    Held,
    Out,
    If,
    Else,
    While,
    Me,
    Count,
    Semicolon,
    Comma,
    Open,
    Close,
    OpenBrace,
    CloseBrace,
    Becomes,
    Operator(Op),
}

impl Terminal {
    /// The terminal as a text spells it.
    pub fn text(self) -> &'static str
        ensures { result.now ≡ spelling self }
    {
        match self {
            Terminal::Processes => "processes",
            Terminal::Var => "var",
            Terminal::Scan => "scan",
            Terminal::Reg => "reg",
            Terminal::Begin => "begin",
            Terminal::End => "end",
            Terminal::Get => "get",
            Terminal::Put => "put",
            Terminal::Stamp => "stamp",
            Terminal::Clear => "clear",
            Terminal::Copy => "copy",
            Terminal::Older => "older",
            Terminal::Held => "held",
            Terminal::Out => "out",
            Terminal::If => "if",
            Terminal::Else => "else",
            Terminal::While => "while",
            Terminal::Me => "me",
            Terminal::Count => "n",
            Terminal::Semicolon => ";",
            Terminal::Comma => ",",
            Terminal::Open => "(",
            Terminal::Close => ")",
            Terminal::OpenBrace => "{",
            Terminal::CloseBrace => "}",
            Terminal::Becomes => "=",
            Terminal::Operator(op) => op.text(),
        }
    }
}

// Those that programs have most of stand first.
const SIGNS: [Terminal; 16] = [
    Terminal::Semicolon,
    Terminal::Becomes,
    Terminal::Open,
    Terminal::Close,
    Terminal::OpenBrace,
    Terminal::CloseBrace,
    Terminal::Comma,
    Terminal::Operator(Op::Add),
    Terminal::Operator(Op::Sub),
    Terminal::Operator(Op::Mul),
    Terminal::Operator(Op::Div),
    Terminal::Operator(Op::Rem),
    Terminal::Operator(Op::Less),
    Terminal::Operator(Op::AtMost),
    Terminal::Operator(Op::Equal),
    Terminal::Operator(Op::Differs),
];

const KEYWORDS: [Terminal; 19] = [
    Terminal::Me,
    Terminal::Count,
    Terminal::Put,
    Terminal::Get,
    Terminal::Out,
    Terminal::If,
    Terminal::Else,
    Terminal::While,
    Terminal::Stamp,
    Terminal::Clear,
    Terminal::Scan,
    Terminal::Copy,
    Terminal::Older,
    Terminal::Held,
    Terminal::Processes,
    Terminal::Var,
    Terminal::Reg,
    Terminal::Begin,
    Terminal::End,
];

/// The sign that is spelled so, if one is.
pub fn sign_of(bytes: &[u8]) -> Option<Terminal>
    ensures { result ≡ spelled_among signs bytes.now }
{
    spelled_among(&SIGNS, bytes)
}

/// The keyword that is spelled so, if one is.
pub fn keyword_of(bytes: &[u8]) -> Option<Terminal>
    ensures { result ≡ spelled_among keywords bytes.now }
{
    spelled_among(&KEYWORDS, bytes)
}

#[tactic(auto, unfolding(crate::specs::Terminals::spelled_among))]
fn spelled_among(terminals: &[Terminal], bytes: &[u8]) -> Option<Terminal>
    ensures { result ≡ spelled_among terminals.now bytes.now }
{
    terminals
        .iter()
        .copied()
        .find(|terminal| terminal.text().as_bytes() == bytes)
}
