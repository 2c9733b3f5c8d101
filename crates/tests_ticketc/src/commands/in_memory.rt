//! A reader and a writer in memory, which may be disturbed at chosen calls.
use std::alloc::Global;
use ticketc_answers::{ByteSink, ByteSource, Counts, Transfer};

/// At which calls an end is disturbed, the first call being 1.
#[derive(Clone, Copy)]
pub enum Disturbance {
    Never,
    Interrupted { from: u64, below: u64 },
    /// Interrupted at each call whose number is so many times this one.
    Each(u64),
    Failed(u64),
    /// Of a writer: none of some bytes is taken.
    TakesNone(u64),
}

impl Disturbance {
    fn interrupts(self, call: u64) -> bool {
        match self {
            Disturbance::Interrupted { from, below } => from <= call && call < below,
            Disturbance::Each(number) => call.checked_rem(number) == Some(0),
            _ => false,
        }
    }

    fn fails(self, call: u64) -> bool {
        match self {
            Disturbance::Failed(at) => at == call,
            _ => false,
        }
    }

    fn takes_none(self, call: u64) -> bool {
        match self {
            Disturbance::TakesNone(at) => at == call,
            _ => false,
        }
    }
}

/// Gives these bytes, at most `step` in a call, and at least one.
#[derive(Drop)]
pub struct Input<'a> {
    rest: &'a [u8],
    step: usize,
    disturbance: Disturbance,
    pub counts: Counts,
}

impl<'a> Input<'a> {
    pub fn new(rest: &'a [u8], step: usize, disturbance: Disturbance) -> Input<'a> {
        Input {
            rest,
            step,
            disturbance,
            counts: Counts::new(),
        }
    }
}

impl ByteSource for Input<'_> {
    ghost use Rattle.std.specs.Prelude.{Some};

    ghost remaining = { λ s. Some s.rest.now };

    ghost counts = { λ s. s.counts };

    fn read(&mut self, buffer: &mut [u8]) -> Transfer {
        let call = self.counts.calls.saturating_add(1);
        if self.disturbance.interrupts(call) {
            self.counts.count_read(Transfer::Interrupted);
            return Transfer::Interrupted;
        }
        if self.disturbance.fails(call) {
            self.counts.count_read(Transfer::Failed);
            return Transfer::Failed;
        }
        let count = self.step.max(1).min(buffer.len()).min(self.rest.len());
        buffer[..count].copy_from_slice(&self.rest[..count]);
        self.rest = &self.rest[count..];
        self.counts.count_read(Transfer::Moved(count));
        Transfer::Moved(count)
    }
}

/// Keeps what is written, at most `step` bytes in a call.
#[derive(Drop)]
pub struct Output {
    pub bytes: Vec<u8>,
    step: usize,
    disturbance: Disturbance,
    pub counts: Counts,
}

impl Output {
    pub fn new(alloc: Global, step: usize, disturbance: Disturbance) -> Output {
        Output {
            bytes: Vec::new(alloc),
            step,
            disturbance,
            counts: Counts::new(),
        }
    }
}

impl ByteSink for Output {
    ghost use Rattle.std.specs.Prelude.{Some};

    ghost written = { λ s. Some s.bytes.items };

    ghost counts = { λ s. s.counts };

    fn write(&mut self, bytes: &[u8]) -> Transfer {
        let call = self.counts.calls.saturating_add(1);
        if self.disturbance.interrupts(call) {
            self.counts.count_write(Transfer::Interrupted, bytes);
            return Transfer::Interrupted;
        }
        let count = if self.disturbance.takes_none(call) {
            0
        } else {
            self.step.min(bytes.len())
        };
        let taken = !self.disturbance.fails(call)
            && self.bytes.extend_from_slice(&bytes[..count]).is_ok();
        let transfer = if taken {
            Transfer::Moved(count)
        } else {
            Transfer::Failed
        };
        self.counts.count_write(transfer, bytes);
        transfer
    }
}
