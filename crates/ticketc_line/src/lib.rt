//! `ticketc_line` says what the words of a `ticketc` command line ask for.
//!
//! `clap` parses the words. Only this crate and `ticklab_line` call `clap`. Checking a crate that calls it
//! takes long, so nothing else stands here. No text of `clap` is printed. A line that is no command is refused
//! as a `LineFault`, and so is a request for help. `specs/Line.antt` says what `asked` answers.
//! Start with `asked`.
#![tactic(auto)]

mod asking;
mod command;
mod laws;
mod numbers;

pub use asking::asked;
pub use command::{Command, LineFault, Request};
pub use laws::{law_bare_commands, law_commands_with_text, law_other_lines};
