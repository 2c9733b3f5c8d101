//! Tests of `HostEnd`: what no clause says.
//!
//! Words are answered where memory is left. A call of the reader or the writer is one call of the host. An
//! error that is no interruption ends the program. Start with `ends`, which the other files use.

mod ends;
mod failing;
mod large;
mod no_words;
