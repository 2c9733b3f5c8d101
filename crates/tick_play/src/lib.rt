//! `tick_play` writes what a run shows as a text.
//!
//! `play_source` and `play_code` run a whole schedule and write the report of the run. Both write it by
//! `report_of`. `outcome_text` writes the outcome of a run on threads, whose events have no known order. The
//! calls of `language_schedules` are re-exported here.
//! Start with `play_source` and `play_code`.
#![tactic(auto)]

mod lines;
mod outcome;
mod play;
mod report;

pub use base::{NoMemory, Outcome, RunEnd, RunOutcome};
pub use language_schedules::{
    Move, ScheduleFault, laws, read_moves, read_schedule, write_schedule,
};
pub use lines::trap_name;
pub use outcome::outcome_text;
pub use play::{play_code, play_source};
pub use report::report_of;
