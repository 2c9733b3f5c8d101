// The two ends: where the bytes of an input come from, and where those of a text go.
ghost use Rattle.std.specs.Prelude.{◌≡◌, ℕ, List, Option};
ghost use Rattle.ticketc_io.specs.Calls.{ReadGives, WriteTakes, after_read, after_write};

use crate::transfer::Transfer;

/// An input.
pub trait ByteSource {
    ghost use Rattle.ticketc_io.specs.declared.counts.Counts.{Counts};

    // The bytes that are still to come, where they are known.
    ghost remaining: { Self → Option (List ℕ) };

    ghost counts: { Self → Counts };

    /// Reads into the front of the buffer.
    fn read(&mut self, buffer: &mut [u8]) -> Transfer
        ensures bytes { ReadGives (remaining self.old) (remaining self.new) result buffer.new }
        ensures counted { counts self.new ≡ after_read result (counts self.old) };
}

/// An output.
pub trait ByteSink {
    ghost use Rattle.ticketc_io.specs.declared.counts.Counts.{Counts};

    // The bytes that were written, where they are known.
    ghost written: { Self → Option (List ℕ) };

    ghost counts: { Self → Counts };

    /// Writes from the front of the bytes. To take none of some is a failure.
    fn write(&mut self, bytes: &[u8]) -> Transfer
        ensures bytes { WriteTakes (written self.old) (written self.new) result bytes.now }
        ensures counted { counts self.new ≡ after_write result bytes.now (counts self.old) };
}
