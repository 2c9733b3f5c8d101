//! `tick_kinds` decides which programs are accepted, and replaces the names of an accepted one by numbers.
//!
//! `check` takes a tree. It gives a `Program`, or it gives the tree back with the first fault in order of the
//! text. Contracts see a `Program` as the plain tree that it was made of, which is accepted. `resolved` is
//! the same tree with each name replaced by its number in the section that declares it.
//! Start with `check`.
#![tactic(auto)]

mod fault;
mod kind;
pub mod laws;
mod names;
mod program;
pub mod resolved;

pub use fault::KindFault;
pub use kind::Kind;
pub use program::{Program, check};
