use crate::found::Found;
use language_questions::Expected;

/// What a file comes to.
#[derive(Drop)]
pub enum Checked {
    /// It is no program, or a line `#!` of it can't be read: the report for people.
    Refused(Vec<u8>),
    /// What is found, what its line `#! expect` says, and how many lines `#! never` and `#! ends` it has.
    Searched {
        found: Found,
        expected: Expected,
        lines: usize,
    },
}

/// The same, and how long it took.
#[derive(Drop)]
pub struct Timed {
    pub checked: Checked,
    /// In hundredths of a second.
    pub hundredths: u64,
}

/// How what a file comes to compares with what is expected of it.
#[derive(Clone, Copy, PartialEq, Eq, Debug)]
pub enum Comparison {
    AsExpected,
    /// It is something else, or the file is refused.
    Otherwise,
    /// The limit was met before anything was found.
    Limit,
}
