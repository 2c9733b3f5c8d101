//! `tests_ticklab` tests what no row of `answers/` shows of `ticklab`.
//!
//! `ending` tests the fault that ends the program. `checking` tests the time that a search is told to have taken, and
//! `watching` what a watch is told of a search. A call whose memory was refused is made once more.
//! Start with `ending`.
#![tactic(auto)]

#[cfg(test)]
mod answering;
#[cfg(test)]
mod checking;
#[cfg(test)]
mod ending;
#[cfg(test)]
mod reading;
#[cfg(test)]
mod watching;
