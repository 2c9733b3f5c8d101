/// Why a process was stopped in the middle of a statement.
#[derive(Clone, Copy, PartialEq, Eq, Debug)]
pub enum Trap {
    /// A sum or a product above 4294967295.
    Overflow,
    /// A difference below 0.
    Below,
    /// A division by 0.
    Zero,
    /// A process number that no process has.
    Index,
}

/// Whether a process goes on.
#[derive(Clone, Copy, PartialEq, Eq, Debug)]
pub enum Status {
    Running,
    /// It has done all its statements.
    Ended,
    /// It was stopped, and why.
    Trapped(Trap),
}
