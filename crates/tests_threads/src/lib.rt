//! `tests_threads` tests runs of codes on threads, a tally of many runs, and merged histories.
//!
//! `runs` runs codes on threads. `tallying` counts the outcomes of runs. `merging` has histories written by
//! hand, which are merged to a schedule.
//! Start with `runs`.
#![tactic(auto)]

#[cfg(test)]
mod merging;
#[cfg(test)]
mod runs;
#[cfg(test)]
mod tallying;
