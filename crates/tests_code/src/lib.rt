//! `tests_code` tests what no command shows of codes: codes as values, and the machine that runs them.
//!
//! `text` has the longest codes, and what `{:?}` makes of instructions. `stepping` runs codes, one instruction after the
//! other. What commands answer on codes, and on the codes and schedules of programs, stands in `answers/`.
//! Start with `stepping`.
#![tactic(auto)]

#[cfg(test)]
mod codes;
#[cfg(test)]
mod stepping;
#[cfg(test)]
mod text;
