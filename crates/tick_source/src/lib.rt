//! `tick_source` runs a program on tickets, step by step, under a given schedule.
//!
//! A `SourceMachine` makes single steps, and `run` runs a whole schedule. `specs/Source.antt` says what a
//! step does. Programs are those of `tick_kinds`, tickets those of `ticket_core`.
//! Start with `SourceMachine::new`.
#![tactic(auto)]

mod machine;
mod memory;
mod process;
mod remaining;
mod value;

pub use base::{Act, Event, NoMemory, Outcome, Status, Trap};
pub use machine::{SourceMachine, run};
pub use value::value_of;
