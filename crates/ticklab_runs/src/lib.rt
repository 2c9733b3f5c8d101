//! `ticklab_runs` tells of one run of a program or of its code: as a trace, as a picture, or as a page.
//!
//! `told` reads the program and the schedule, follows the run once, step by step, and tells it as asked.
//! Start with `told`.
#![tactic(auto)]

mod breaking;
mod broken_line;
mod drawing;
mod following;
mod objects;
mod paging;
mod parts;
mod seen;
mod told_run;
mod tracing;

pub use broken_line::with_line;
pub use drawing::part_of;
pub use told_run::{Telling, Tracing, told};
pub use tracing::{source_text, spots_in};
