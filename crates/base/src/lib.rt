//! `base` holds what many crates share: want of memory, parts of texts, events and outcomes, and trees.
//!
//! - Texts of programs, codes, schedules and answers share blanks, decimal numbers and lines.
//! - The machine on tickets and the machine on labels share operators, traps, register rows, events, statuses
//!   and outcomes. So their runs can be compared directly.
//! - `tree` has the tree of a program. Definitions speak of it in its plain form (`specs/Plain.antt`).
//! - `proofs/Offered.antt` has lemmas about rows of a fixed length of which the first few items count.
//!
//! Start with `Event`, `Outcome` and `tree::Tree`.
#![tactic(auto)]

mod blank;
mod decimal;
mod event;
mod no_memory;
mod operator;
mod outcome;
mod place;
mod registers;
mod run_outcome;
pub mod span;
mod status;
pub mod tree;

pub use blank::is_blank;
pub use decimal::{number, push_number};
pub use event::{Act, Event};
pub use no_memory::NoMemory;
pub use operator::Op;
pub use outcome::Outcome;
pub use place::set_at;
pub use registers::Registers;
pub use run_outcome::{RunEnd, RunOutcome};
pub use status::{Status, Trap};

/// The most processes that there are.
pub const MOST_PROCESSES: usize = 6;
