//! `tests_searches` tests what no contract says of the searches through states and programs, and worked answers.
//!
//! `jugs` is a puzzle of which the shortest answer is known. `fairness` has small machines of which it is plain whether
//! their processes stop. `merging` asks searches by merged steps of all `walkers` what `plainly` a search finds out that knows
//! nothing of them. `memory` tests limits of memory, and `collapsed` a growth that is refused. `side_by_side` hunts on threads.
//! What commands answer on programs stands in `answers/`.
//! Start with `jugs`.
#![tactic(auto)]

#[cfg(test)]
mod collapsed;
#[cfg(test)]
mod fairness;
#[cfg(test)]
mod jugs;
#[cfg(test)]
mod memory;
#[cfg(test)]
mod merging;
#[cfg(test)]
mod moves;
#[cfg(test)]
mod plainly;
#[cfg(test)]
mod side_by_side;
// (what its specs name has to be there in every build)
mod walkers;
