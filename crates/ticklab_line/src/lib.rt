//! `ticklab_line` says what the words of a `ticklab` command line ask for, and has the help.
//!
//! `clap` parses the words by the command line that `specs/CommandLine.antt` describes. Only this crate and
//! `ticketc_line` call `clap`. Checking a crate that calls it takes long, so nothing else stands here.
//! Each command has a file in `src/commands`, with its description, and a part of `specs/Commands.antt`. `specs/Lines.antt` says what `asked` answers.
//! Start with `asked`.
#![tactic(auto)]

mod arguments;
mod asking;
mod commands;
mod conflicts;
mod described;
mod laws;
mod parts;
mod slips;
mod values;
mod words;

pub use asking::{Line, Output, asked};
pub use commands::{AskedRun, Drawing, Paging, Request, Side, Steps};
pub use language_questions::Condition;
pub use laws::{law_commands, law_hunts, law_no_commands};
