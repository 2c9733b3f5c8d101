//! `tests_shared` has what crates of tests share: rows that have to hold, texts, programs, and work on threads.
//!
//! A row that doesn't hold gives a `Fail`. A test can't drop it, so it returns it by `?`. So no helper needs
//! permission to end the process, and each helper is proved like any other function.
//! Start with `holds`.
#![tactic(auto)]

mod polls;
mod programs;
mod rows;
mod texts;
mod threads;

pub use polls::Polls;
pub use programs::Checked;
pub use rows::{holds, is_same};
pub use texts::{counting, repeated};
pub use threads::on_threads;
