//! `ticklab_verdicts` answers what is asked of all runs of a program, or of many: `explore`, `hunt` and `lasso`.
//!
//! `explored` looks under every schedule, `explored_ends` also asks who ends; `hunted` tries random schedules, `tallied`
//! runs the code on threads; `lassoed` checks a loop. A search hears how far it is by a `Progress`.
//! Start with `explored`.
#![tactic(auto)]

mod counts;
mod ends;
mod exploring;
mod extent;
mod hunting;
mod lasso;
mod progress;
mod run_objects;
mod search;
mod shorter;
mod tallying;
mod trapping;

pub use ends::explored_ends;
pub use exploring::explored;
pub use hunting::{hunted, plan_of};
pub use lasso::lassoed;
pub use progress::Progress;
pub use tallying::tallied;
