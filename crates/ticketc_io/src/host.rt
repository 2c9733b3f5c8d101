//! A `ByteSource` and a `ByteSink` over a reader and a writer of the standard library.
ghost use Rattle.std.specs.Prelude.{◌≡◌, None};
ghost use Rattle.ticketc_io.specs.Calls.{ReadGives, WriteTakes, after_read, after_write};
ghost use Rattle.ticketc_io.specs.Host.{IsReadOnce, IsTransferOf, IsWrittenOnce};

use crate::counts::Counts;
use crate::ends::{ByteSink, ByteSource};
use crate::transfer::Transfer;
use std::io;
use std::io::{ErrorKind, Read, Write};

/// A reader of the standard library as an input, or a writer as an output.
#[derive(Drop)]
pub struct HostEnd<T> {
    end: T,
    counts: Counts,
}

impl<T> HostEnd<T> {
    /// An end over a reader or a writer that no call was made of.
    pub fn new(end: T) -> HostEnd<T>
        ensures end { result.end ≡ end }
        ensures counts { result.counts ≡ record { calls = 0; failures = 0; interruptions = 0; ends = 0; last = None } }
    {
        HostEnd {
            end,
            counts: Counts::new(),
        }
    }
}

impl<R: Read> ByteSource for HostEnd<R> {
    ghost remaining = { λ s. R.remaining s.end };

    ghost counts = { λ s. s.counts };

    fn read(&mut self, buffer: &mut [u8]) -> Transfer
        ensures bytes { ReadGives (R.remaining self.old.end) (R.remaining self.new.end) result buffer.new }
        ensures counted { self.new.counts ≡ after_read result self.old.counts }
        ensures once { IsReadOnce (R.remaining self.old.end) (R.remaining self.new.end) result buffer.new }
    {
        let transfer = transfer_of(self.end.read(buffer));
        self.counts.count_read(transfer);
        transfer
    }
}

impl<W: Write> ByteSink for HostEnd<W> {
    ghost written = { λ s. W.contents s.end };

    ghost counts = { λ s. s.counts };

    fn write(&mut self, bytes: &[u8]) -> Transfer
        ensures bytes { WriteTakes (W.contents self.old.end) (W.contents self.new.end) result bytes.now }
        ensures counted { self.new.counts ≡ after_write result bytes.now self.old.counts }
        ensures once { IsWrittenOnce (W.contents self.old.end) (W.contents self.new.end) result bytes.now }
    {
        let transfer = transfer_of(self.end.write(bytes));
        self.counts.count_write(transfer, bytes);
        transfer
    }
}

/// What the host's answer to a read or a write comes to.
pub fn transfer_of(answer: io::Result<usize>) -> Transfer
    ensures { IsTransferOf answer result }
{
    match answer {
        Ok(count) => Transfer::Moved(count),
        Err(error) if error.kind() == ErrorKind::Interrupted => Transfer::Interrupted,
        Err(_) => Transfer::Failed,
    }
}
