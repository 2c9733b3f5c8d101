//! `tick_merge` turns a history of all processes of a code into one schedule of the code.
//!
//! So a run on threads is a run of the machine. `specs/Local.antt` says what one process does by itself if
//! all answers to it are given; a history is put together from such runs. `laws` states what holds of each
//! such run and of every history. By these laws a run on threads has its schedule without a call of `merge`.
//! `specs/Runs.antt` defines the outcome of a run on threads. `OneRun` and `Runner` are traits of what makes
//! such runs, for callers without threads of their own.
//! Start with `merge`.
#![tactic(auto)]

mod fault;
mod history;
pub mod laws;
mod merging;
mod process;
mod run_fault;
mod runners;

pub use code_core::Code;
pub use fault::MergeFault;
pub use merging::merge;
pub use run_fault::RunFault;
pub use runners::{OneRun, Runner};
pub use word_core::{Shared, SharedAct};
