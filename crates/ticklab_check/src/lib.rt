//! `ticklab_check` checks programs against what their files say of them in a line `#! expect`.
//!
//! `checked_file` searches one program under every schedule, by merged steps, for what the lines `#!` of its file ask;
//! `specs/Checking.antt` says what that comes to. `Checks` does so for many files, perhaps side by side; `InTurn` takes
//! one after the other. A `Listener` hears of each file as soon as it and all files before it are searched. `check` gives
//! the `Findings` of all, and shares the limit of memory among those that are searched at once. `specs/Wording.antt` has the
//! text of each file, the last line and the exit status.
//! A `Stopwatch` says how long each took, of which nothing is proved.
//! Start with `check`.
#![tactic(auto)]

mod asking;
mod checked;
mod checks;
mod comparing;
mod fault;
mod found;
mod listening;
mod reporting;
mod searching;
mod source;
mod tally;
mod wording;

pub use asking::{asked_for, named_by};
pub use base::NoMemory;
pub use checked::{Checked, Comparison, Timed};
pub use checks::{Checks, InTurn, Stopwatch, timed_file};
pub use comparing::comparison_of;
pub use fault::CheckFault;
pub use found::{Found, found_word, states_of};
pub use language_questions::Expected;
pub use listening::{Listener, Unheard};
pub use reporting::{Findings, check};
pub use searching::checked_file;
pub use source::Source;
pub use tally::Tally;
pub use wording::{expected_text, file_lines};
