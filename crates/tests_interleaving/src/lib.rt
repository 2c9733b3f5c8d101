//! `tests_interleaving` compares small programs on threads with the machine on labels.
//!
//! - `every` finds all outcomes of a code by the machine: one for each order of its steps on what is shared.
//! - `recorded` makes random orders, and lets the threads keep them. The outcome has to be that of the order. It notes the
//!   steps, and merges them to a schedule of the code.
//!
//! To try other seeds or more orders, change the constants in `recorded`.
//! Start with `every`.
#![tactic(auto)]

#[cfg(test)]
mod every;
#[cfg(test)]
mod history;
#[cfg(test)]
mod in_order;
#[cfg(test)]
mod notes;
#[cfg(test)]
mod orders;
#[cfg(test)]
mod played;
#[cfg(test)]
mod programs;
#[cfg(test)]
mod random;
#[cfg(test)]
mod recorded;
