//! `ticketc_io` reads the input of a program and writes its answer, through any reader and writer.
//!
//! A reader is a `ByteSource`, a writer a `ByteSink`. `specs/Calls.antt` says what one call of them does.
//! `read_input` and `write_text` are the two loops over such calls. `HostEnd` wraps a reader
//! or a writer of the standard library. Nothing here knows what is read and written.
//! Start with `ByteSource` and `ByteSink`.
#![tactic(auto)]

mod counts;
mod ends;
mod fault;
mod host;
mod reading;
mod transfer;
mod writing;

pub use counts::Counts;
pub use ends::{ByteSink, ByteSource};
pub use fault::EndFault;
pub use host::{HostEnd, transfer_of};
pub use reading::{INPUT_LIMIT, read_input};
pub use transfer::Transfer;
pub use writing::write_text;
