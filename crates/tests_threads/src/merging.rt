//! Tests of merged histories: rows, and a long history.

mod long;
mod merged;
mod rows;
