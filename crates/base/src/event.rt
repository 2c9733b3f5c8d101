use crate::MOST_PROCESSES;
use crate::status::Trap;

/// What a step lets others see. Values are of the whole range of `u32`; register rows and processes
/// count from 0.
#[derive(Clone, Copy, PartialEq, Eq, Debug)]
pub enum Act {
    /// The process wrote its register of this row: the row and the value.
    Put(u8, u32),
    /// The process read a register: its row, whose it is, and the value.
    Get(u8, u8, u32),
    /// The process took the next ticket.
    Stamp,
    /// The process gave its ticket up, if it held one.
    Clear,
    /// The process read all tickets. For each process, how many processes held a smaller one; the
    /// entries past the last process are 0.
    Scan([u8; MOST_PROCESSES]),
    /// The process compared two processes' tickets in a scan: 1 where the first's was smaller, else 0.
    Older(u8, u8, u8),
    /// The process asked whether a process held a ticket in a scan: whose, and 1 where it did, else 0.
    Held(u8, u8),
    /// The process gave out a value.
    Out(u32),
    /// The process was stopped.
    Trap(Trap),
    /// The process had no statement left.
    End,
}

/// An act, and the process whose it is.
#[derive(Clone, Copy, PartialEq, Eq, Debug)]
pub struct Event {
    pub process: u8,
    pub act: Act,
}
