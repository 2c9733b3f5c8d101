//! Tests of the machine on tickets, step by step, where growths are refused; `answers` has its calls.

mod answers;
mod source;
