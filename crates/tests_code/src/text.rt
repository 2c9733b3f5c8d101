//! Tests of instructions as people who debug see them, and of the longest codes and texts of codes.

mod debug;
mod large;
