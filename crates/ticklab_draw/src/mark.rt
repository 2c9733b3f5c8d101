use base::{Act, MOST_PROCESSES};
use word_core::LabelWord;

/// What a picture shows of one step of a run.
#[derive(Clone, Copy)]
pub struct Mark {
    /// The number of the step in the schedule, from 1.
    pub step: usize,
    /// The process whose step it is, and in whose lane the mark stands.
    pub process: u8,
    /// What is shown.
    pub sight: Sight,
}

/// What a mark shows.
#[derive(Clone, Copy)]
pub enum Sight {
    /// An act that nothing more is told of.
    Act(Act),
    /// A get: the row, whose register, and the value, as in `Act::Get`; and which of the marks before
    /// it, counted from 0, is the put that the value is of. None is where it was never written.
    Get(u8, u8, u32, Option<usize>),
    /// A stamp, and what is held after it.
    Stamp(Holdings),
    /// A clear, and what is held after it.
    Clear(Holdings),
    /// An exchange that nobody sees, since it found these labels, and others had been read.
    Lost(Holdings),
}

/// What all processes hold.
#[derive(Clone, Copy)]
pub enum Holdings {
    /// The ticket of each process of a program, 0 for none; past the last process 0.
    Tickets([u64; MOST_PROCESSES]),
    /// The labels of the processes of a code.
    Labels(LabelWord),
}
