//! Tests of the library `ticketc_answers`: what no clause says, and no command line of the built program shows.
//!
//! The tests show what a command does if its reader or writer fails, and have words that no host gives. Start
//! with `answering`, which the other files use. What each command answers stands in `answers/`, as rows that
//! the built program is asked.

mod answering;
mod disturbed;
mod each_call;
mod in_memory;
mod long_words;
