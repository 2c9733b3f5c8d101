//! Calls of the host that fail, and calls that are interrupted.
use crate::host::ends::{Failing, Given, Taken, served};
use std::io::ErrorKind;
use std::sync::Wait;
use std::test::Fail;
use std::thread::Threads;
use tests_shared::holds;

// Kinds that are no interruption.
static KINDS: [ErrorKind; 3] = [
    ErrorKind::BrokenPipe,
    ErrorKind::UnexpectedEof,
    ErrorKind::WouldBlock,
];

// At which call each end fails, how many bytes a write takes, and what that comes to.
struct Row {
    reading: usize,
    writing: usize,
    step: usize,
    status: u8,
    written: &'static str,
    calls: (usize, usize),
}

const ORDERED: &str =
    "layout 3\nstamp 0 word 281474976710656\nstamp 0 word 281474976710656\nword 281474976710656\nlabels 00 . .\nranks 2 0 0\n";

// What the stamps come to, over an input that is read in two calls.
fn stamps<A: AllocGlobal + Threads + Wait>(rt: &A, kind: ErrorKind, row: &Row) -> Result<(), Fail> {
    let reading = Failing {
        call: row.reading,
        kind,
    };
    let writing = Failing {
        call: row.writing,
        kind,
    };
    let input = Given::new(b"0*2", 3, reading);
    let output = Taken::new(rt.alloc(), row.step, writing);
    let ending = served(rt, &["ticketc", "order", "3"], input, output)?;
    let (reads, writes) = row.calls;
    holds(
        ending.is(row.status, row.written) && ending.has_calls(reads, writes),
        (kind, row.reading, row.writing, row.step),
    )
}

// A call that fails is the last of its end, though the next one would give or take bytes.
static FAILING: [Row; 4] = [
    Row {
        reading: 1,
        writing: 0,
        step: 200,
        status: 3,
        written: "",
        calls: (1, 0),
    },
    Row {
        reading: 2,
        writing: 0,
        step: 200,
        status: 3,
        written: "",
        calls: (2, 0),
    },
    Row {
        reading: 0,
        writing: 1,
        step: 200,
        status: 3,
        written: "",
        calls: (2, 1),
    },
    Row {
        reading: 0,
        writing: 2,
        step: 23,
        status: 3,
        written: "layout 3\nstamp 0 word 2",
        calls: (2, 2),
    },
];

// An interrupted call is made again, and to take no byte is to fail.
static GOING_ON: [Row; 4] = [
    Row {
        reading: 1,
        writing: 1,
        step: 200,
        status: 0,
        written: ORDERED,
        calls: (3, 2),
    },
    Row {
        reading: 2,
        writing: 2,
        step: 45,
        status: 0,
        written: ORDERED,
        calls: (3, 4),
    },
    Row {
        reading: 0,
        writing: 0,
        step: 200,
        status: 0,
        written: ORDERED,
        calls: (2, 1),
    },
    Row {
        reading: 0,
        writing: 0,
        step: 0,
        status: 3,
        written: "",
        calls: (2, 1),
    },
];

// That each row is so where the calls fail in this way.
fn come_to<A: AllocGlobal + Threads + Wait>(
    rt: &A,
    kind: ErrorKind,
    rows: &[Row],
) -> Result<(), Fail> {
    for row in rows {
        stamps(rt, kind, row)?;
    }
    Ok(())
}

#[test]
fn failing_calls(rt: HostRuntime) -> Result<(), Fail> {
    for kind in &KINDS {
        come_to(&rt, *kind, &FAILING)?;
    }
    Ok(())
}

#[test]
fn interrupted_calls(rt: HostRuntime) -> Result<(), Fail> {
    come_to(&rt, ErrorKind::Interrupted, &GOING_ON)
}
