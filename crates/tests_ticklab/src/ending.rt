//! The fault that ends the program, over files, outputs and runs that are scripted.
use crate::reading::first_of;
use base::RunOutcome;
use code_core::Code;
use searches_explore::Watch;
use searches_hunt::InTurn;
use std::alloc::{AllocError, Global};
use std::env::Args;
use std::io;
use std::io::{Error, ErrorKind, Write};
use std::process::ExitCode;
use std::test::Fail;
use tests_shared::holds;
use tick_merge::{RunFault, Runner};
use ticklab_answers::{Colours, Host, ended};
use ticklab_check::Stopwatch;
use ticklab_files::Files;
use ticklab_verdicts::Progress;

static FILES: [(&str, &[u8]); 3] = [
    ("out", b"processes 1; begin out 7; end"),
    ("trap", b"processes 1; var x; begin x = (1 / 0); end"),
    ("bytes", b"\xff"),
];

/// The files, and how often one of them was read. There is no standard input, and the one folder has no program.
#[derive(Drop)]
struct Shelf {
    files: u32,
}

impl Files for Shelf {
    ghost Reads = { λ _ _ _ _ _. Unit {0} };

    ghost ReadsInput = { λ _ _ _ _. Unit {0} };

    ghost Lists = { λ _ _ _ _. Unit {0} };

    ghost Fails = { λ _ _ _ _. Unit {0} };

    fn file(&mut self, alloc: Global, name: &str, most: u64) -> io::Result<Vec<u8>> {
        self.files = self.files.saturating_add(1);
        for (held, bytes) in &FILES {
            if *held == name {
                return first_of(alloc, bytes, most);
            }
        }
        Err(Error::from(ErrorKind::NotFound))
    }

    fn input(&mut self, _alloc: Global, _most: u64) -> io::Result<Vec<u8>> {
        Err(Error::from(ErrorKind::NotFound))
    }

    fn folder(&mut self, alloc: Global, name: &str) -> io::Result<Option<Vec<String>>> {
        match name {
            "away" => Err(Error::from(ErrorKind::NotFound)),
            "empty" => {
                let mut names = Vec::new(alloc);
                names.push(String::from_str(alloc, "c.tick.old")?)?;
                Ok(Some(names))
            }
            _ => Ok(None),
        }
    }
}

/// A clock that stands.
#[derive(Drop)]
struct Stopped;

impl Stopwatch for Stopped {
    fn hundredths(&self) -> u64 {
        7
    }
}

/// Keeps what is written to it, unless it fails at once.
#[derive(Drop)]
struct Paper {
    bytes: Vec<u8>,
    is_torn: bool,
}

impl Paper {
    fn new(alloc: Global, is_torn: bool) -> Paper {
        Paper {
            bytes: Vec::new(alloc),
            is_torn,
        }
    }
}

impl Write for Paper {
    fn write(&mut self, bytes: &[u8]) -> io::Result<usize> {
        if self.is_torn {
            return Err(Error::from(ErrorKind::BrokenPipe));
        }
        self.bytes.extend_from_slice(bytes)?;
        Ok(bytes.len())
    }

    fn flush(&mut self) -> io::Result<()> {
        Ok(())
    }
}

/// Every thread is refused.
#[derive(Drop)]
struct NoThreads;

impl Runner for NoThreads {
    ghost Ran = { λ _ _ _ _ _ _. Unit {0} };

    fn run_next(&mut self, _code: &Code, _turns: u64, _outs: u32) -> Result<RunOutcome, RunFault> {
        Err(RunFault::NoThread)
    }
}

/// Nobody waits.
#[derive(Drop)]
struct Nobody;

impl Watch for Nobody {
    ghost hears = { λ _ _ _ _ _. Unit {0} };

    fn seen(&mut self, _states: u32, _gone: u32, _bytes: u64) {}
}

impl Progress for Nobody {
    ghost begins = { λ _ _ _. Unit {0} };

    fn begin(&mut self, _is_merged: bool) {}

    ghost finds = { λ _ _ _. Unit {0} };

    fn found(&mut self, _is_break: bool) {}

    fn end(&self) {}
}

type TestHost = Host<Shelf, Paper, Paper>;

fn host(alloc: Global, is_torn: bool) -> TestHost {
    Host {
        version: "7.1",
        files: Shelf { files: 0 },
        out: Paper::new(alloc, is_torn),
        err: Paper::new(alloc, false),
        colours: Colours {
            out: false,
            err: false,
        },
    }
}

// The words after the program's name with a blank between them, whether standard output fails, the status, what is
// told behind the program's name, and how often a file is read.
type Row = (&'static str, bool, u8, &'static str, u32);

static FAILING: [Row; 10] = [
    ("explore away", false, 3, "away: entity not found", 1),
    // an empty word
    ("explore ", false, 3, ": entity not found", 1),
    ("trace out @away", false, 3, "away: entity not found", 2),
    ("trace out @bytes", false, 3, "bytes: no UTF-8", 2),
    ("trace out 0", true, 3, "broken pipe", 1),
    ("check out away", false, 3, "away: entity not found", 0),
    (
        "check empty",
        false,
        3,
        "empty: there is no .tick file in this folder",
        0,
    ),
    (
        "check trap folder/c.tick",
        false,
        3,
        "folder/c.tick: entity not found",
        2,
    ),
    ("--help", true, 3, "broken pipe", 0),
    ("hunt out --threads 1 5", false, 4, "no thread", 1),
];

fn line(alloc: Global, words: &str) -> Result<Args, AllocError> {
    let mut line = Vec::new(alloc);
    line.push(String::from_str(alloc, "ticklab")?)?;
    for word in words.split(' ') {
        line.push(String::from_str(alloc, word)?)?;
    }
    Ok(line.into_iter())
}

fn end(alloc: Global, host: &mut TestHost, words: io::Result<Args>) -> ExitCode {
    ended(
        alloc,
        host,
        &mut NoThreads,
        &InTurn,
        &ticklab_check::InTurn {
            stopwatch: &Stopped,
        },
        &mut Nobody,
        words,
    )
}

// That it ends with this status, tells this, and has read so many files.
fn ends_so(
    alloc: Global,
    host: &mut TestHost,
    words: io::Result<Args>,
    wanted: (u8, &str, u32),
) -> Result<(), Fail> {
    let (status, told, files) = wanted;
    let found = end(alloc, host, words);
    let said = format!(in alloc; "ticklab: {told}\n")?;
    let is_so = found == ExitCode::from(status)
        && host.out.bytes.is_empty()
        && host.err.bytes.as_slice() == said.as_bytes()
        && host.files.files == files;
    holds(is_so, told)
}

#[test]
fn each_fault(rt: HostRuntime) -> Result<(), Fail> {
    let alloc = rt.alloc();
    for &(words, is_torn, status, told, files) in &FAILING {
        let words = line(alloc, words)?;
        ends_so(
            alloc,
            &mut host(alloc, is_torn),
            Ok(words),
            (status, told, files),
        )?;
    }
    Ok(())
}

#[test]
fn no_words(rt: HostRuntime) -> Result<(), Fail> {
    let none = Err(Error::from(ErrorKind::InvalidData));
    let told = (2, "the command line: invalid data", 0);
    ends_so(rt.alloc(), &mut host(rt.alloc(), false), none, told)
}
