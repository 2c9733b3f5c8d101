//! Ends of the program that fail at a chosen call, and what the program makes of them.
use std::alloc::{AllocError, Global};
use std::env::Args;
use std::io;
use std::io::{Error, ErrorKind, Read, Write};
use std::process::ExitCode;
use std::sync::Wait;
use std::test::Fail;
use std::thread::Threads;
use tick_run::OnThreads;
use ticketc_answers::{Heard, ended, run_ended};
use ticketc_io::HostEnd;

/// One call that fails, the first being 1.
#[derive(Clone, Copy)]
pub struct Failing {
    pub call: usize,
    pub kind: ErrorKind,
}

/// No call fails.
pub const NEVER: Failing = Failing {
    call: 0,
    kind: ErrorKind::Other,
};

impl Failing {
    fn answer(self, call: usize) -> io::Result<()> {
        if call == self.call {
            Err(Error::from(self.kind))
        } else {
            Ok(())
        }
    }
}

/// Gives these bytes, at most `step` in a call.
#[derive(Drop)]
pub struct Given<'a> {
    rest: &'a [u8],
    step: usize,
    failing: Failing,
    calls: usize,
}

impl<'a> Given<'a> {
    pub fn new(rest: &'a [u8], step: usize, failing: Failing) -> Given<'a> {
        Given {
            rest,
            step,
            failing,
            calls: 0,
        }
    }
}

impl Read for Given<'_> {
    fn read(&mut self, buffer: &mut [u8]) -> io::Result<usize> {
        self.calls = self.calls.saturating_add(1);
        self.failing.answer(self.calls)?;
        let count = self.step.min(buffer.len()).min(self.rest.len());
        buffer[..count].copy_from_slice(&self.rest[..count]);
        self.rest = &self.rest[count..];
        Ok(count)
    }
}

/// Keeps what is written, at most `step` bytes in a call.
#[derive(Drop)]
pub struct Taken {
    bytes: Vec<u8>,
    step: usize,
    failing: Failing,
    calls: usize,
}

impl Taken {
    pub fn new(alloc: Global, step: usize, failing: Failing) -> Taken {
        Taken {
            bytes: Vec::new(alloc),
            step,
            failing,
            calls: 0,
        }
    }
}

impl Write for Taken {
    fn write(&mut self, bytes: &[u8]) -> io::Result<usize> {
        self.calls = self.calls.saturating_add(1);
        self.failing.answer(self.calls)?;
        let count = self.step.min(bytes.len());
        self.bytes.extend_from_slice(&bytes[..count])?;
        Ok(count)
    }

    fn flush(&mut self) -> io::Result<()> {
        Ok(())
    }
}

fn line(alloc: Global, words: &[&str]) -> Result<Args, AllocError> {
    let mut line = Vec::new(alloc);
    for word in words {
        line.push(String::from_str(alloc, word)?)?;
    }
    Ok(line.into_iter())
}

/// What the program ended with, how many calls its ends had, and what was written.
#[derive(Drop)]
pub struct ProgramOutcome {
    status: ExitCode,
    reads: usize,
    writes: usize,
    written: Vec<u8>,
}

impl ProgramOutcome {
    pub fn is(&self, status: u8, written: &str) -> bool {
        self.status == ExitCode::from(status) && self.written.as_slice() == written.as_bytes()
    }

    pub fn has_calls(&self, reads: usize, writes: usize) -> bool {
        self.reads == reads && self.writes == writes
    }
}

/// What these words come to, where the host gives them.
pub fn ending_of<A: AllocGlobal + Threads + Wait>(
    rt: &A,
    words: io::Result<Args>,
    mut input: Given<'_>,
    mut output: Taken,
) -> ProgramOutcome {
    let mut reader = HostEnd::new(&mut input);
    let mut writer = HostEnd::new(&mut output);
    let status = match ended(rt.alloc(), words, &mut reader, &mut writer) {
        Heard::Served(status) => status,
        Heard::Run(turns) => {
            let one = OnThreads::new(rt);
            run_ended(rt.alloc(), one, turns, &mut reader, &mut writer)
        }
    };
    ProgramOutcome {
        status,
        reads: input.calls,
        writes: output.calls,
        written: output.bytes,
    }
}

/// What these words come to.
pub fn served<A: AllocGlobal + Threads + Wait>(
    rt: &A,
    words: &[&str],
    input: Given<'_>,
    output: Taken,
) -> Result<ProgramOutcome, Fail> {
    let line = line(rt.alloc(), words)?;
    Ok(ending_of(rt, Ok(line), input, output))
}
