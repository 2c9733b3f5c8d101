//! `ticketc_refusals` takes an input for a text, a program, a code or a schedule, or says why it is refused.
//!
//! A `Refusal` is a fault of the crate that found it. `judgement` finds it, and `refusal_line` writes the line
//! that `ticketc` tells. `specs/Refusals.antt` says which refusals an input has.
//! `proofs/Offered.antt` says that it has one, or is what it is taken for, and never both.
//! `program_with_tokens` gives a program with the tokens of its text, as a `SpelledProgram`.
//! Start with `program_in` and `Refusal`.
#![tactic(auto)]

mod judgement;
mod refusal;
mod refusal_line;
mod spelled_program;

pub use judgement::{
    begins_code, code_in, code_refusal, program_in, program_refusal, program_with_tokens,
    schedule_refusal, text_of,
};
pub use refusal::Refusal;
pub use refusal_line::line_of;
pub use spelled_program::SpelledProgram;
