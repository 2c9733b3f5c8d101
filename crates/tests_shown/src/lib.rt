//! `tests_shown` tests what `ticklab` shows people, beside the rows of `answers/`: explanations, and where statements stand.
//!
//! `explaining` tests which tokens a refusal says may stand next, and `spots` has places that were counted by hand. A call
//! whose memory was refused is made once more.
//! Start with `explaining`.
#![tactic(auto)]

#[cfg(test)]
mod explaining;
#[cfg(test)]
mod spots;
