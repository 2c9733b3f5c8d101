//! `tick_syntax` reads the text of a program into its tree, and prints a tree as a text.
//!
//! `tokens` gives the tokens of a text, `parse` its tree, `parse_with_tokens` both, and `print` the one
//! printed text of a tree.
//! `specs/Grammar.antt` has the grammar.
//! Start with `parse` and `print`.
#![tactic(auto)]

mod characters;
mod extents;
pub mod fault;
pub mod laws;
mod lexer;
mod parser;
mod printer;
pub mod terminals;
pub mod token;
mod valued_token;

pub use base::{span, tree};
pub use fault::TextFault;
pub use lexer::tokens;
pub use parser::{parse, parse_with_tokens};
pub use printer::print;
