use std::fmt;

/// A stretch of a text: the bytes from `start` to before `end`, counted from 0.
#[derive(Clone, Copy, PartialEq, Eq, Debug)]
pub struct Span {
    pub start: usize,
    pub end: usize,
}

/// As the messages of faults have it: `3..7`.
impl fmt::Display for Span {
    fn fmt<W: fmt::Write>(&self, f: &mut fmt::Formatter<W>) -> fmt::Result {
        write!(f, "{}..{}", self.start, self.end)
    }
}
