use crate::status::Trap;

/// How a process of a run on threads came to its end.
#[derive(Clone, Copy, PartialEq, Eq, Debug)]
pub enum RunEnd {
    /// It has done all its statements.
    Ended,
    /// It was stopped, and why.
    Trapped(Trap),
    /// It goes on, and has made all instructions that it was allowed.
    TurnsSpent,
    /// It goes on, has given out all values that it was allowed, and would now give out one more.
    OutputsFull,
}

/// What a whole run on threads let others see. Contracts see it as what was observed of it.
#[derive(PartialEq, Eq, Debug, Drop)]
pub struct RunOutcome {
    /// For each process, the values that it gave out, in their order.
    pub outputs: Vec<Vec<u32>>,
    /// For each process.
    pub ends: Vec<RunEnd>,
    /// For each register row, the values of all processes' registers.
    pub registers: Vec<Vec<u32>>,
}
