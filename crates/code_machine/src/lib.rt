//! `code_machine` runs a verified code on labels and registers, step by step, under a given schedule.
//!
//! A `CodeMachine` makes single steps, and `run` runs a whole schedule. A `Proc` is one process by itself: it
//! asks for what it needs of the label word and the registers, and goes on by the reply. `laws` states what
//! holds of every run. Codes are those of `code_core`, labels those of `word_core`.
//! Start with `CodeMachine::new`.
#![tactic(auto)]

mod answering;
mod ask;
pub mod laws;
pub mod machine;
mod making;
mod memory;
mod proc;
mod ranks;
mod stack;
mod telling;

pub use ask::{Advance, Ask, Reply};
pub use base::{Act, Event, NoMemory, Op, Outcome, Status, Trap};
pub use code_core::{Code, CodeFault, Instr, Sizes, verify};
pub use machine::{CodeMachine, Made, run};
pub use memory::{CodeMemory, are_same};
pub use proc::Proc;
