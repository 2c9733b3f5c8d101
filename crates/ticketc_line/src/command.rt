/// What a command line asks for, with its number read.
#[derive(Drop)]
pub enum Request<T> {
    /// A command that no thread is started for.
    Alone(Command<T>),
    /// A run on threads of so many turns, at most 1,000,000,000.
    Run(u64),
}

/// A command that is answered on the thread that asks; a schedule is the text of one.
#[derive(Drop)]
pub enum Command<T> {
    /// For so many processes, 1 to 6.
    Order(u8),
    Check,
    Emit,
    /// A program under this schedule.
    Source(T),
    /// A code, or the code of a program, under this schedule.
    Code(T),
    /// The command `lift`: the schedule of its code that leads through this one of a program.
    Lift(T),
    /// The command `drop`: the schedule of a program that this one of its code stands for.
    Drop(T),
}

/// Why a command line is refused.
#[derive(Clone, Copy, Debug, PartialEq, Eq)]
pub enum LineFault {
    /// It is none of those that the usage line tells.
    Usage,
    /// The number of processes isn't 1 to 6.
    Processes,
}
