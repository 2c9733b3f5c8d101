//! Each call of the reader and of the writer, disturbed in each way, for each command. Both move one byte at
//! a time.
use crate::commands::answering::{LineOutcome, USAGE, served};
use crate::commands::in_memory::{Disturbance, Input, Output};
use std::sync::Wait;
use std::test::Fail;
use std::thread::Threads;
use tests_shared::holds;
use ticketc_answers::EngineFault;

// A command line, the bytes that are to be read, the status and the answer.
type Row = (
    &'static [&'static str],
    Option<&'static [u8]>,
    u8,
    &'static str,
);

const QUEUE: &[u8] =
    b"processes 2; var x; scan s; begin stamp; s = scan; x = older s 0 1; out x; end";

const COUNTING: &[u8] = b"processes 1; var x; begin while (x < 2) { x = (x + 1); } out x; end";

const ROUNDS: &[u8] =
    b"processes 3; scan s; begin if (me == 0) { stamp; stamp; s = scan; } else { stamp; stamp; stamp; stamp; stamp; } end";

static ROWS: [Row; 13] = [
    (
        &["ticketc", "order", "3"],
        Some(b"0 1 2"),
        0,
        "layout 3\nstamp 0 word 281474976710656\nstamp 1 word 844424930132224\nstamp 2 word 1970324837171456\nword 1970324837171456\nlabels 00 01 10\nranks 0 1 2\n",
    ),
    (
        &["ticketc", "check"],
        Some(QUEUE),
        0,
        "processes 2 ;\nvar x ;\nscan s ;\nbegin\nstamp ;\ns = scan ;\nx = older s 0 1 ;\nout x ;\nend\n",
    ),
    (
        &["ticketc", "emit"],
        Some(COUNTING),
        0,
        "tickcode 2 1 1 0 0\nLoad 0\nPush 2\nBin <\nJumpZero 9\nLoad 0\nPush 1\nBin +\nStore 0\nJump 0\nLoad 0\nOut\nHalt\n",
    ),
    (
        &["ticketc", "source", "0*5 1*5"],
        Some(QUEUE),
        0,
        "0 stamp\n0 scan 1 0\n0 older 0 1 0\n0 out 0\n0 end\n1 stamp\n1 scan 0 1\n1 older 0 1 1\n1 out 1\n1 end\nstatus 0 ended\nstatus 1 ended\n",
    ),
    (
        &["ticketc", "code", "0 1 0 1 0 1 1 1 1"],
        Some(QUEUE),
        0,
        "0 stamp\n1 stamp\nstatus 0 running\nstatus 1 running\n",
    ),
    (
        &["ticketc", "code", "0*2"],
        Some(b"tickcode 1 1 0 0 0\nPush 7\nOut\nHalt\n"),
        0,
        "0 out 7\nstatus 0 running\n",
    ),
    (&["ticketc", "lift", "0*7"], Some(COUNTING), 0, "0*25\n"),
    (
        &[
            "ticketc",
            "drop",
            "0*7 1*7 2*7 1*3 0*2 2*3 1*3 2*3 1*3 2*3 1*3 0*2",
        ],
        Some(ROUNDS),
        0,
        "0*2 1*2 2*2 1 2 1 2 1 2 1 0*2\n",
    ),
    (
        &["ticketc", "run", "25"],
        Some(COUNTING),
        0,
        "outputs 0 2\nstatus 0 ended\n",
    ),
    (
        &["ticketc", "check"],
        Some(b"processes 2; begin out ; end"),
        1,
        "refused 5 Unexpected 23 24\n",
    ),
    (
        &["ticketc", "order", "7"],
        None,
        1,
        "refused 11 Processes\n",
    ),
    (&["ticketc", "run", "+3"], None, 2, USAGE),
    // (no host gives a line without a word)
    (&[], None, 2, USAGE),
];

// What is done to one call of an end.
#[derive(Clone, Copy, Debug)]
enum Trouble {
    ReadFails,
    ReadInterrupted,
    ReadInterruptedLong,
    WriteFails,
    WriteTakesNone,
    WriteInterrupted,
    WriteInterruptedLong,
    WriteInterruptedTooLong,
}

static TROUBLES: [Trouble; 8] = [
    Trouble::ReadFails,
    Trouble::ReadInterrupted,
    Trouble::ReadInterruptedLong,
    Trouble::WriteFails,
    Trouble::WriteTakesNone,
    Trouble::WriteInterrupted,
    Trouble::WriteInterruptedLong,
    Trouble::WriteInterruptedTooLong,
];

// How many interruptions in a row a writer is asked again after.
const PATIENCE: u64 = 1000;

impl Trouble {
    // What the reader and the writer are disturbed by at a call.
    fn at(self, call: u64) -> (Disturbance, Disturbance) {
        let interrupted = |count: u64| Disturbance::Interrupted {
            from: call,
            below: call.saturating_add(count),
        };
        match self {
            Trouble::ReadFails => (Disturbance::Failed(call), Disturbance::Never),
            Trouble::ReadInterrupted => (interrupted(1), Disturbance::Never),
            Trouble::ReadInterruptedLong => (interrupted(5000), Disturbance::Never),
            Trouble::WriteFails => (Disturbance::Never, Disturbance::Failed(call)),
            Trouble::WriteTakesNone => (Disturbance::Never, Disturbance::TakesNone(call)),
            Trouble::WriteInterrupted => (Disturbance::Never, interrupted(1)),
            Trouble::WriteInterruptedLong => (Disturbance::Never, interrupted(PATIENCE)),
            Trouble::WriteInterruptedTooLong => (Disturbance::Never, interrupted(PATIENCE + 1)),
        }
    }
}

// What comes of a row: the status, how many bytes of the answer are written, and how many calls the ends
// have.
#[derive(Clone, Copy)]
struct Wanted {
    status: Result<u8, EngineFault>,
    written: u64,
    reads: u64,
    writes: u64,
}

impl Wanted {
    // What comes of a row where no call is disturbed.
    fn of(row: &Row) -> Wanted {
        let (_, input, status, answer) = row;
        let written = answer.len() as u64;
        Wanted {
            status: Ok(*status),
            written,
            reads: input.map_or(0, |input| (input.len() as u64).saturating_add(1)),
            writes: written,
        }
    }

    // Writing is given up at a call, after so many interruptions.
    fn gives_up(self, call: u64, interruptions: u64) -> Wanted {
        Wanted {
            status: Err(EngineFault::Write),
            written: call.saturating_sub(1),
            reads: self.reads,
            writes: call.saturating_add(interruptions),
        }
    }

    // The same, after so many more calls.
    fn of_more(self, reads: u64, writes: u64) -> Wanted {
        Wanted {
            status: self.status,
            written: self.written,
            reads: self.reads.saturating_add(reads),
            writes: self.writes.saturating_add(writes),
        }
    }

    fn is(&self, outcome: &LineOutcome, answer: &str) -> bool {
        let written = answer.as_bytes().get(..self.written as usize);
        outcome.status == self.status
            && outcome.reads == self.reads
            && outcome.writes == self.writes
            && written == Some(outcome.written.as_slice())
    }
}

// A call that isn't made is disturbed by nothing.
fn wanted_under(trouble: Trouble, row: &Row, call: u64) -> Wanted {
    let whole = Wanted::of(row);
    match trouble {
        Trouble::ReadFails if call <= whole.reads => Wanted {
            status: Err(EngineFault::Read),
            written: 0,
            reads: call,
            writes: 0,
        },
        Trouble::ReadInterrupted if call <= whole.reads => whole.of_more(1, 0),
        Trouble::ReadInterruptedLong if call <= whole.reads => whole.of_more(5000, 0),
        Trouble::WriteFails | Trouble::WriteTakesNone if call <= whole.writes => {
            whole.gives_up(call, 0)
        }
        Trouble::WriteInterruptedTooLong if call <= whole.writes => whole.gives_up(call, PATIENCE),
        Trouble::WriteInterrupted if call <= whole.writes => whole.of_more(0, 1),
        Trouble::WriteInterruptedLong if call <= whole.writes => whole.of_more(0, PATIENCE),
        _ => whole,
    }
}

fn answered<R: AllocGlobal + Threads + Wait>(
    rt: &R,
    row: &Row,
    disturbances: (Disturbance, Disturbance),
) -> Result<LineOutcome, Fail> {
    let (reads, writes) = disturbances;
    let input = Input::new(row.1.unwrap_or(b""), 1, reads);
    let output = Output::new(rt.alloc(), 1, writes);
    served(rt, row.0, input, output)
}

fn each_call<R: AllocGlobal + Threads + Wait>(
    rt: &R,
    trouble: Trouble,
    row: &Row,
) -> Result<(), Fail> {
    let whole = Wanted::of(row);
    for call in 1..whole.reads.max(whole.writes).saturating_add(2) {
        let outcome = answered(rt, row, trouble.at(call))?;
        holds(wanted_under(trouble, row, call).is(&outcome, row.3), row.0)?;
    }
    Ok(())
}

#[test]
fn each_call_of_each_end(rt: HostRuntime) -> Result<(), Fail> {
    for trouble in &TROUBLES {
        for row in &ROWS {
            each_call(&rt, *trouble, row)?;
        }
    }
    Ok(())
}

// Every third read and every second write is interrupted.
fn is_so_now_and_then(outcome: &LineOutcome, row: &Row) -> bool {
    let whole = Wanted::of(row);
    let (reads, writes) = (whole.reads, whole.writes);
    let wanted = whole.of_more(reads.saturating_sub(1) / 2, writes.saturating_sub(1));
    wanted.is(outcome, row.3)
}

#[test]
fn now_and_then(rt: HostRuntime) -> Result<(), Fail> {
    for row in &ROWS {
        let outcome = answered(&rt, row, (Disturbance::Each(3), Disturbance::Each(2)))?;
        holds(is_so_now_and_then(&outcome, row), row.0)?;
    }
    Ok(())
}

// Where the words want no input, none is read.
fn ends_after_all_reads(outcome: &LineOutcome, row: &Row) -> bool {
    if row.1.is_none() {
        return outcome.is(Ok(row.2), row.3) && outcome.reads == 0;
    }
    outcome.is(Err(EngineFault::Read), "") && outcome.reads == 2_000_000 && outcome.writes == 0
}

#[test]
fn always_interrupted(rt: HostRuntime) -> Result<(), Fail> {
    for row in &ROWS {
        let for_ever = Disturbance::Interrupted {
            from: Wanted::of(row).reads,
            below: u64::MAX,
        };
        let outcome = answered(&rt, row, (for_ever, Disturbance::Never))?;
        holds(ends_after_all_reads(&outcome, row), row.0)?;
        let outcome = answered(&rt, row, (Disturbance::Each(1), Disturbance::Never))?;
        holds(ends_after_all_reads(&outcome, row), row.0)?;
    }
    Ok(())
}
