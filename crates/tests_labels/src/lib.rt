//! `tests_labels` tests labels, the word that packs them, and the calls that threads stamp with.
//!
//! `word` compares labels, words and tickets with a second implementation. In `calls` threads share a lock, and a ticket
//! is given up.
//! Start with `word`.
#![tactic(auto)]

#[cfg(test)]
mod calls;
#[cfg(test)]
mod word;
