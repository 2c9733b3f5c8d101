//! `searches_hunt` tries a program that is too large to explore: under random schedules, or on threads.
//!
//! `hunt` tries random schedules until a process traps or a property holds that must never hold. It gives the first schedule
//! under which one does, and leaves out the steps that this doesn't need. The schedules that it tries follow from the `Plan`
//! alone, so the same plan always has the same answer. Its caller says by `Trials` how the runs are tried: `InTurn` tries
//! one after the other. `shrink_fault` leaves steps out of any schedule that leads to a fault.
//! `tally` has a code run on threads many times, and counts how often each outcome comes.
//! Start with `hunt`.
#![tactic(auto)]

mod drawing;
mod hunting;
mod leaving;
mod minimal;
mod plan;
mod shrinking;
mod tallying;
mod trials;
mod tried;
mod trying;
mod vain;

pub use base::NoMemory;
pub use hunting::hunt;
pub use language_properties::Property;
pub use minimal::shrink_fault;
pub use plan::{Mode, Plan};
pub use tallying::{Counted, tally};
pub use tick_merge::RunFault;
pub use trials::{InTurn, Sought, Trials};
