//! `code_core` defines step code: the instructions that a program is compiled to, and which lists are codes.
//!
//! `verify` accepts a list of instructions as a `Code` exactly if no place of it has a fault. A process that
//! runs a `Code` always finds its operands, its slots and its next instruction. Each stamp in it is made of
//! its three instructions in a row.
//! Start with `Instr`.
#![tactic(auto)]

mod code;
mod fault;
mod faults;
mod heights;
mod instr;
mod sizes;
mod verifier;
mod words;

pub use code::{Code, verify};
pub use fault::CodeFault;
pub use heights::hands_on;
pub use instr::Instr;
pub use sizes::Sizes;
