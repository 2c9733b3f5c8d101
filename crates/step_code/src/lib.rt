//! `step_code` re-exports codes, their texts and their machine under one name.
//!
//! It defines nothing: codes come from `code_core`, their texts from `code_text`, and their machine from
//! `code_machine`.
//! Start with `read_code` and `run`.
#![tactic(auto)]

pub use code_core::{Code, CodeFault, Instr, Sizes, verify};
pub use code_machine::{
    Act, Advance, Ask, CodeMachine, Event, Made, NoMemory, Op, Outcome, Proc, Reply, Status, Trap,
    laws, machine, run,
};
pub use code_text::{read_code, write_code};
