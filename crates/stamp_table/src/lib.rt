//! `stamp_table` has the label word and the register rows that threads share.
//!
//! All steps on a table form one growing history. A `Pass` holds some of the processes, and has seen a
//! beginning of the history. `load`, `exchange`, `clear`, `read` and `write` each add one step of the
//! caller's process; the pass has then seen the history up to this step. `split` gives each thread a pass of
//! its own, `meet` makes one pass of two, and `close` ends the table. No call waits, and only `open` and
//! `split_all` take memory. The label word and the registers are under one rule (`rule`).
//! Start with `open`.
#![tactic(auto)]

mod at_once;
mod closing;
mod fault;
mod label_word;
mod pass;
mod registers;
mod rule;
mod steps;
mod table;

pub use closing::Final;
pub use fault::OpenFault;
pub use label_word::Swap;
pub use pass::Pass;
pub use table::{StampTable, open};
