//! `ticklab_answers` is the whole program `ticklab`, over any files, outputs and threads.
//!
//! `ticklab_line` says what the words of the command line ask for. `ticklab_files` reads the inputs, `ticklab_runs` and
//! `ticklab_verdicts` answer the commands that tell of one run and of many; the others have a file in `src/commands`. An
//! answer is a `Response`: what goes to standard output, what goes to standard error, and the exit status. Files come from
//! a `Files`, a `Runner` makes the runs on threads, a `Checks` searches the files of `check`, and a `Progress` is told how
//! far a search is. `ended` has the words answered, and then writes.
//! `specs/Answers.antt` has a case for each command. `laws` says what `explore` says of the code.
//! Start with `ended`.
#![tactic(auto)]

mod colours;
mod commands;
mod ending;
mod hearing;
mod host;
pub mod laws;
mod writing;

pub use colours::Colours;
pub use commands::{checked, explained, labelled};
pub use ending::ended;
pub use host::Host;
