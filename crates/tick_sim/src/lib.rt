//! `tick_sim` states that a program and its code show the same, and maps schedules of one to the other.
//!
//! Whatever the code of a program shows under a schedule, the program shows under the schedule that `drop`
//! makes of it. Whatever the program shows, its code shows under the schedule that `lift` makes. Contracts
//! see the two maps as `dropped` and `lifted`.
//! Start with `laws`.
#![tactic(auto)]

mod dropping;
pub mod laws;
mod lifting;
mod stepping;

pub use dropping::drop;
pub use lifting::lift;
