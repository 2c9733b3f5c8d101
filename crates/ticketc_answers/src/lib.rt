//! `ticketc_answers` serves a whole command of `ticketc`: it reads the input, makes the answer and writes it.
//!
//! It reads from any `ByteSource` and writes to any `ByteSink`, so it does not know standard input and
//! output. It reads the input once, and only if the words ask for a command. It makes the whole answer before
//! it writes any of it. `answer` has a case for each command, and `specs/Commands.antt` says what each answers.
//! `ended` is the whole program but for a run on threads: it takes the words that the host gave, and returns the
//! exit status, or the turns of the run that they ask for. `run_ended` serves that run. It alone gets a `OneRun`,
//! so no other command can start a thread. `law_whole` says that the two are the program.
//! `advice` is what a terminal is told besides.
//! Start with `engine`.
#![tactic(auto)]

mod advising;
mod answer;
mod codes;
mod exit;
mod fault;
mod heard;
mod laws;
mod maps;
mod order;
mod program;
mod response;
mod runs;
mod serving;
mod stop;
mod whole;

pub use advising::advice;
pub use exit::exit_code;
pub use fault::EngineFault;
pub use heard::Heard;
pub use laws::{law_answers, law_reports, law_run_answers, law_whole};
pub use serving::{engine, run_engine};
pub use ticketc_io::{ByteSink, ByteSource, Counts, Transfer};
pub use whole::{ended, run_ended};
