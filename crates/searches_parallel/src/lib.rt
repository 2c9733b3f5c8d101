//! `searches_parallel` tries the runs of a random hunt side by side, on threads.
//!
//! However many threads work, `OnProcessors` finds the run that `InTurn` of `searches_hunt` finds: the first with a
//! fault. Hand it to `hunt`.
//! Start with `OnProcessors`; `sharing` shares the runs of a round among threads.
#![tactic(auto)]

mod on_processors;
mod sharing;

pub use on_processors::{OnProcessors, processors};
