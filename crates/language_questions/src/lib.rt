//! `language_questions` reads questions from texts, by the names of an accepted program.
//!
//! A question is a property of states, which no state may have. `never_of` reads one; `questions_of` reads those of
//! the comments of a file that begin with `#!`, who is asked whether it ends, and what is expected of the file.
//! `specs/Reading.antt` has the grammar, as functions of places of the text; they say too which fault a text has first.
//! Start with `never_of`.
#![tactic(auto)]

mod characters;
mod extents;
mod fault;
mod lines;
mod missed;
mod never;
mod questions;
mod reader;
mod scope;
mod spelled;
mod token;
mod tokens;

pub use fault::{Missing, QuestionFault};
pub use language_properties::Property;
pub use lines::questions_of;
pub use never::never_of;
pub use questions::{Condition, Ends, EndsLine, EndsLines, Expected, NeverLine, Questions};
pub use token::Sign;
