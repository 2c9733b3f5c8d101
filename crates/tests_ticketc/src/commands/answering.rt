//! A command line, answered over a reader and a writer in memory.
use crate::commands::in_memory::{Disturbance, Input, Output};
use std::alloc::{AllocError, Global};
use std::sync::Wait;
use std::test::Fail;
use std::thread::Threads;
use tests_shared::holds;
use tick_merge::OneRun;
use tick_run::OnThreads;
use ticketc_answers::{EngineFault, Heard, engine, run_engine};

pub const USAGE: &str =
    "usage: ticketc order N | check | emit | source S | code S | lift S | drop S | run TURNS\n";

/// What came of a command line, how many calls its ends had, and what was written.
#[derive(Drop)]
pub struct LineOutcome {
    pub status: Result<u8, EngineFault>,
    pub reads: u64,
    pub writes: u64,
    pub written: Vec<u8>,
}

impl LineOutcome {
    /// Whether it is this status, with this written.
    pub fn is(&self, status: Result<u8, EngineFault>, written: &str) -> bool {
        self.status == status && self.written.as_slice() == written.as_bytes()
    }
}

/// The words as a command line.
pub fn line(alloc: Global, words: &[&str]) -> Result<Vec<String>, AllocError> {
    let mut line = Vec::new(alloc);
    for word in words {
        line.push(String::from_str(alloc, word)?)?;
    }
    Ok(line)
}

/// Serves the words over these ends, as the program does: a run on threads is made by `one`.
pub fn status_of<O: OneRun>(
    alloc: Global,
    one: O,
    words: &[String],
    reader: &mut Input<'_>,
    writer: &mut Output,
) -> Result<u8, EngineFault> {
    match engine(alloc, words, reader, writer)? {
        Heard::Served(status) => Ok(status),
        Heard::Run(turns) => run_engine(alloc, one, turns, reader, writer),
    }
}

/// The same with threads.
pub fn served<R: AllocGlobal + Threads + Wait>(
    rt: &R,
    words: &[&str],
    mut reader: Input<'_>,
    mut writer: Output,
) -> Result<LineOutcome, Fail> {
    let line = line(rt.alloc(), words)?;
    let status = status_of(
        rt.alloc(),
        OnThreads::new(rt),
        line.as_slice(),
        &mut reader,
        &mut writer,
    );
    Ok(LineOutcome {
        status,
        reads: reader.counts.calls,
        writes: writer.counts.calls,
        written: writer.bytes,
    })
}

/// That the words write this answer on an input. Names the command alone, since the other
/// texts are long.
pub fn says<R: AllocGlobal + Threads + Wait>(
    rt: &R,
    words: &[&str],
    input: &[u8],
    answer: &str,
) -> Result<(), Fail> {
    let reader = Input::new(input, 1000, Disturbance::Never);
    let writer = Output::new(rt.alloc(), 100, Disturbance::Never);
    let outcome = served(rt, words, reader, writer)?;
    holds(outcome.is(Ok(0), answer), &words[..words.len().min(2)])
}
