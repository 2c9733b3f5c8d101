//! `ticklab_draw` draws a run as a picture in SVG.
//!
//! A `Marking` makes the marks of a run from its steps, and `picture` draws a list of marks.
//! `labels` draws the labels after each move: `frames` and `write_frames`.
//! Start with `picture`.
#![tactic(auto)]

mod arrows;
mod bands;
mod beside;
mod colours;
mod columns;
mod feet;
mod heads;
mod labels;
mod lanes;
pub mod laws;
mod layout;
mod legend;
mod look;
pub mod mark;
mod marking;
mod never;
mod orders;
mod page;
mod pieces;
mod shapes;
mod style;
mod words;
mod writing;

pub use base::{NoMemory, Trap};
pub use labels::{Frame, MOST_MOVES, frames, write_frames};
pub use look::Look;
pub use mark::{Holdings, Mark, Sight};
pub use marking::Marking;
pub use never::NeverMark;
pub use page::{file_name, picture};
