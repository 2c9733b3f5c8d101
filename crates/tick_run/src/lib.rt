//! `tick_run` runs a code with each of its processes on a thread of its own, over one table that they share.
//!
//! The steps of all processes form one history. A `Gate` is called before each instruction that touches what
//! is shared. `OnThreads` runs a code with gates at which nobody waits, for callers without threads of their
//! own: once as a `OneRun`, or once for each call as a `Runner`.
//! Start with `run`.
#![tactic(auto)]

mod gate;
mod gathering;
mod jobs;
mod on_threads;
mod registers;
mod runner;
mod worker;

pub use base::{RunEnd, RunOutcome};
pub use gate::Gate;
pub use on_threads::OnThreads;
pub use runner::run;
pub use tick_merge::{OneRun, RunFault, Runner};
