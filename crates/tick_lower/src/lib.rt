//! `tick_lower` compiles an accepted program to step code.
//!
//! Contracts see the code as `lowered` of the resolved program, a recursion on its tree. `laws` states that
//! the code is verified unless it is too long. `commit` tells at which places of the code a step of the
//! program ends.
//! Start with `lower`.
#![tactic(auto)]

mod emitter;
mod fault;
pub mod laws;
mod length;
mod lowering;
mod step_end;

pub use fault::LowerFault;
pub use lowering::lower;
pub use step_end::{commit, ends_step};
