//! `ticklab_json` writes what `ticklab` answers as JSON.
//!
//! An answer is an object whose keys are sorted by their bytes; a trace is an object in a line for each step. `specs/` says
//! which: `Events` what others see of a step, `Steps` the steps of both machines, `Found` what a search has found, `Checks`
//! what files come to, `Explanations` what is wrong with one.
//! Start with `source_objects` and `found_run`.
#![tactic(auto)]

mod breaking;
mod checks;
mod code;
mod events;
mod explanations;
mod found;
mod hunts;
mod members;
mod order;
mod source;

pub use base::NoMemory;
pub use breaking::Breaking;
pub use checks::findings_object;
pub use code::code_objects;
pub use explanations::{explanation_object, fine_object};
pub use found::{Head, Loop, found_loop, found_run, found_states};
pub use hunts::empty_hunt;
pub use source::source_objects;
