use base::NoMemory;
use searches_explore::Limits;
use std::alloc::Global;
use ticketc_refusals::SpelledProgram;
use ticklab_files::{NeverLines, Response};
use ticklab_line::Output;

/// A program that is searched for faults.
#[derive(Clone, Copy)]
pub struct Search<'a, 'b> {
    pub alloc: Global,
    pub spelled: &'a SpelledProgram,
    /// The input that the program is.
    pub input: &'a [u8],
    /// What must never hold of it.
    pub lines: &'a NeverLines<'b>,
    /// What is printed of the answer.
    pub output: Output,
}

/// How a program is explored.
#[derive(Clone, Copy)]
pub struct Task<'a, 'b> {
    pub search: Search<'a, 'b>,
    /// How far a search goes.
    pub limits: Limits,
}

/// An answer, where memory suffices.
pub type Answered = Result<Response, NoMemory>;
