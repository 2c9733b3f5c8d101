//! `code_text` writes a code as a text, and reads such texts.
//!
//! `laws` states that each text is read as one code or has one fault, and that a written code is read as
//! itself. Codes are those of `code_core`.
//! Start with `write_code` and `read_code`.
#![tactic(auto)]

mod guess;
pub mod laws;
mod reader;
mod reading;
mod writing;

pub use reading::read_code;
pub use writing::{push_instruction, write_code};
