//! Tests of `stamp_calls`, and of `stamp_table` below it.

mod given_up;
mod lock;
