use crate::event::Event;
use crate::status::Status;

/// What a whole run let others see. Contracts see it as its observables.
#[derive(PartialEq, Eq, Debug, Drop)]
pub struct Outcome {
    /// In the order of the steps that gave them.
    pub events: Vec<Event>,
    /// For each register row, the values of all processes' registers.
    pub registers: Vec<Vec<u32>>,
    /// For each process.
    pub statuses: Vec<Status>,
}
