//! `label_core` defines labels: which of two dominates, and which label a process takes next.
//!
//! A label is a place in nested three-cycles: a list of digits 0, 1, 2, the outermost cycle first. It is kept
//! as the number that these digits are in base 3. `next_label` chooses the next label beside those of the
//! others. `ranks` counts how many labels each one dominates. No call takes memory.
//! Start with `Label::new` and `next_label`.
#![tactic(auto)]

mod choosing;
mod digits;
pub mod laws;
mod ranking;
mod table;

pub use choosing::next_label;
pub use digits::{Label, MOST_DIGITS};
pub use ranking::{MOST_LABELS, ranks, write_ranks};
