//! `language_schedules` reads and writes schedules as texts, and reads the stamps and clears of `order`.
//!
//! `read_schedule` reads a schedule, and `read_moves` reads stamps and clears. `write_schedule` writes the
//! shortest text of a schedule. `laws` states that this text reads back.
//! Start with `read_schedule`.
#![tactic(auto)]

pub mod laws;
mod moves;
mod pieces;
mod schedule;
mod writing;

pub use base::NoMemory;
pub use moves::read_moves;
pub use schedule::{ScheduleFault, read_schedule};
pub use ticket_core::Move;
pub use writing::write_schedule;
