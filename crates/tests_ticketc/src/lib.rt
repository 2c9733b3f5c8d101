//! `tests_ticketc` tests what no `ticketc` command line shows: failing readers and writers, and fault texts.
//!
//! `commands` serves command lines over readers and writers that fail. `host` tests `HostEnd`.
//! `faults` has the texts of all faults. What commands answer stands in `answers/`.
//! Start with `commands`.
#![tactic(auto)]

#[cfg(test)]
mod commands;
#[cfg(test)]
mod faults;
#[cfg(test)]
mod host;
