//! `ticklab_explain` tells people what is wrong with a program, a code, a schedule, or stamps and clears.
//!
//! The report says where the fault is, what was expected and what stands there. It shows the line with a
//! caret under it, a hint if the slip is a common one, and the line that `ticketc` tells. `ticketc_refusals`
//! finds the refusal of an input, and `spot` its place.
//! `report` writes the report, and `explanation` gives its parts to programs. `messages` has the words, and
//! `expected` finds what may stand there. Hints are rows of tables, in `limits` and in the files that end in
//! `_slips`. `choosing` picks the table, and `rule` the first row that fits; of questions `advising` does both.
//! Start with `explain`.
#![tactic(auto)]

mod advice;
mod advising;
mod character_slips;
mod choosing;
mod condition;
mod declared;
mod expectation;
mod expected;
mod explaining;
mod explanation;
mod finding;
mod hint;
mod item_slips;
mod items;
mod limits;
mod messages;
mod name_slips;
mod part;
mod picture;
mod piece;
pub mod place;
mod question_slips;
mod questions;
mod report;
mod rule;
mod scene;
mod setting;
mod spot;
mod token_slips;
mod wanted;
mod words;
mod writing;

pub use explaining::{
    explain, explain_code, explain_moves, explain_program, explain_refusal, explain_schedule,
};
pub use explanation::{Explanation, InputFault, explanation_of, report_of};
pub use questions::{explain_question, point};
