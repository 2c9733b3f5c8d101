//! `word_core` packs the labels of all processes into one 64-bit word, with its stamps, clears and order.
//!
//! Contracts see a `LabelWord` as a list, with a label for each process that is present and none for one that
//! is absent. Beside laws, only `bits`, `read`, `from_bits` and `clear_mask` tell how labels are packed.
//! `laws` states that after any stamps and clears the labels stand for the tickets. `history` has the steps
//! on what threads share. No call takes memory.
//! Start with `LabelWord::start`.
#![tactic(auto)]

pub mod history;
pub mod laws;
mod order;
mod packing;
mod words;

pub use history::{Shared, SharedAct};
pub use packing::{LAYOUT, clear_mask};
pub use words::{ABSENT_LABEL, EMPTY_LABEL, LabelWord};
