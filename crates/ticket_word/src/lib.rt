//! `ticket_word` is the ticket object for programs in C, C++, Rust and Python: functions of one 64-bit word.
//!
//! A program keeps the word of one to six processes in an atomic of its own. It starts as 0, and changes by an
//! exchange for the word that `ticket_word_stamped` answers, or by a clear, which is an `&` with the mask of
//! `ticket_word_clear_mask`. Contracts say what the calls answer in whole-number tickets, which nobody keeps:
//! a word stands for them (`Stands`). `laws` states that after any exchanges and clears the word stands for
//! the tickets of these stamps and clears.
//!
//! The calls take any numbers. Each tells what stands against it in `fault` (`Tells`): 0 nothing; 1 there
//! are not one to six processes; 2 a process is none of them; 3 the number is no word that stands for
//! tickets. No call takes memory or waits.
//! Start with `ticket_word_stamped`.
#![tactic(auto)]

mod asked;
mod calls;
pub mod laws;

pub use calls::{TicketAnswer, TicketRank, TicketRanks, TicketWord};
