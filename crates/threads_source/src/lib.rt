//! `threads_source` states that a run of a program's code on threads is a run of the program on tickets.
//!
//! There is nothing to call. `specs/Shown.antt` says when a program shows the outcome of such a run, and
//! `laws` states under which schedule it does. `tick_merge` defines what a run on threads is; the proof is by
//! a law of `tick_sim`.
//! Start with `laws`.
#![tactic(auto)]

pub mod laws;
