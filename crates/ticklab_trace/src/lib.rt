//! `ticklab_trace` tells what each step of a run did, as a list and as lines for people.
//!
//! A `SourceRun` makes the steps of a program on tickets one by one, and `source_steps` lists those of a schedule.
//! `instruction_step` makes those of a code on labels.
//! `source_trace` and `code_trace` write a line for each step; `folded_source_trace` and `folded_code_trace` one for each row of
//! private steps. `places` finds the statements of a program in
//! its text. `Parts` says where the parts of a run begin that goes on for ever.
//! Start with `source_steps`.
#![tactic(auto)]

mod code_lines;
mod columns;
mod folded_lines;
mod folds;
mod heads;
mod instructions;
pub mod laws;
mod links;
mod parts;
mod ranks;
mod shown;
mod source_lines;
mod source_run;
mod spots;
mod steps;
mod wording;

pub use base::NoMemory;
pub use code_lines::code_trace;
pub use folded_lines::{folded_code_trace, folded_source_trace, push_row};
pub use folds::{
    Fold, Row, ends_row, fold_at, instruction_rows, is_private, is_private_made, is_shared_act,
    rows_past, statement_rows,
};
pub use instructions::instruction_step;
pub use parts::{Part, Parts, begun_at, part_at};
pub use ranks::{label_rank, ticket_of, ticket_rank};
pub use source_lines::source_trace;
pub use source_run::{SourceRun, source_steps};
pub use spots::{StatementPlace, places};
pub use steps::{InstructionStep, Scanned, StatementStep, Written};
