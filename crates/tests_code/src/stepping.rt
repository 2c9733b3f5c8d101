//! Tests of the machine of step code, where growths are refused, and on the longest code.
//!
//! Start with `machine`; `turns` and `answers` have what it shares with `large`.

mod answers;
mod large;
mod machine;
mod turns;
