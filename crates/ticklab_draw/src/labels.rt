// The labels after each move of a list of stamps and clears, as a picture.
//
// The labels of one to four processes are drawn as places in nested three-cycles, those of five and six as
// rows of digits. `frame_text` has what a frame shows; `cycles` and `table` draw a process in it. `layout`
// says where each thing stands, and `shapes` has what is drawn once.

mod caption;
mod cycles;
mod frame_text;
mod head;
mod layout;
mod picture;
mod run;
mod shapes;
mod table;

pub use picture::{MOST_MOVES, write_frames};
pub use run::{Frame, frames};
