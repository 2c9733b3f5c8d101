//! `ticklab_files` is what a command of `ticklab` has before it answers: its files, read through a `Files`, the program or
//! the code that an input is, with what its lines ask, the schedule or the way that a text or an answer has, and the `Response`
//! that comes of it.
//!
//! A fault of reading names its file and why it can't be read. An input that is refused is told by a `NoAnswer`, with the
//! report of `ticklab_explain`.
//! Start with `bytes_of` and `asked_program`.
#![tactic(auto)]

mod answers;
mod asking;
mod fault;
mod files;
mod form;
mod host;
mod reading;
mod response;
mod stop;
mod ways;

pub use asking::{NeverLines, PropertyPlace, never_lines};
pub use fault::{AnswerFault, LabFault, ReadFault};
pub use files::{MOST_BYTES, bytes_of, is_input, reads_input, text_of, texts_of};
pub use form::Form;
pub use host::Files;
pub use reading::{
    AskedProgram, asked_program, code_of, moves_of, program_of, schedule_of, spelled_program_of,
};
pub use response::{
    DONE, LIMIT, NO_LOOP, REFUSED, Response, STUCK, TRAPPED, answer, help, no_command, output,
    settled,
};
pub use stop::NoAnswer;
pub use ways::{ScheduleTexts, Way, way_of};
