ghost use Rattle.std.specs.Prelude.{◌≡◌, None};
ghost use Rattle.ticketc_io.specs.Calls.{after_call, after_read, after_write};

use crate::transfer::Transfer;

/// How the calls of an end went. The numbers stop at `u64::MAX`.
#[derive(Clone, Copy, Debug, PartialEq, Eq)]
pub struct Counts {
    pub calls: u64,
    /// Calls that failed. A write that took none of some bytes is one.
    pub failures: u64,
    /// Interruptions since the last call that was none.
    pub interruptions: u64,
    /// Reads that gave no byte, as at the end of an input.
    pub ends: u64,
    /// What came of the last call.
    pub last: Option<Transfer>,
}

impl Counts {
    /// Those of an end that no call was made of.
    pub fn new() -> Counts
        ensures { result ≡ record { calls = 0; failures = 0; interruptions = 0; ends = 0; last = None } }
    {
        Counts {
            calls: 0,
            failures: 0,
            interruptions: 0,
            ends: 0,
            last: None,
        }
    }

    /// Counts a read.
    pub fn count_read(&mut self, transfer: Transfer)
        ensures { self.new ≡ after_read transfer self.old }
    {
        if transfer == Transfer::Moved(0) {
            self.ends = self.ends.saturating_add(1);
        }
        self.count(transfer);
    }

    /// Counts a write of these bytes.
    pub fn count_write(&mut self, transfer: Transfer, bytes: &[u8])
        ensures { self.new ≡ after_write transfer bytes.now self.old }
    {
        match transfer {
            Transfer::Moved(0) if !bytes.is_empty() => self.count(Transfer::Failed),
            _ => self.count(transfer),
        }
    }

    fn count(&mut self, transfer: Transfer)
        ensures { self.new ≡ after_call transfer self.old }
    {
        self.calls = self.calls.saturating_add(1);
        match transfer {
            Transfer::Moved(_) => self.interruptions = 0,
            Transfer::Interrupted => self.interruptions = self.interruptions.saturating_add(1),
            Transfer::Failed => {
                self.failures = self.failures.saturating_add(1);
                self.interruptions = 0;
            }
        }
        self.last = Some(transfer);
    }
}
