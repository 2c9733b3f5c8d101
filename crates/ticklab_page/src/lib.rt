//! `ticklab_page` writes a run as one page of HTML, in which a reader goes from step to step.
//!
//! `source_page` is that of the steps of a program, `code_page` that of the steps of a code. The page names no
//! other file: it has the text, the picture of the run, each step as a trace tells it, and what each step changed.
//! A script of this crate shows the state after a step from these changes; no proof speaks of what it does.
//! Start with `source_page`.
#![tactic(auto)]

mod changes;
pub mod laws;
mod lists;
mod page;
mod script;
mod states;
pub mod steps;
mod style;
mod writing;

pub use base::NoMemory;
pub use page::{MOST_STEPS, code_page, source_page};
