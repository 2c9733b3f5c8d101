//! `tests_language` tests what no command shows of programs and questions.
//!
//! `machine` tests the machine on tickets, step by step. `questions` reads each kind of a question, and a long file. What
//! commands answer on programs stands in `answers/`.
//! Start with `machine`.
#![tactic(auto)]

#[cfg(test)]
mod machine;
#[cfg(test)]
mod questions;
