//! A writer that takes several bytes at a call or none, and words that are refused before anything is read.
use crate::commands::answering::{USAGE, served};
use crate::commands::in_memory::{Disturbance, Input, Output};
use std::test::Fail;
use tests_shared::holds;
use ticketc_answers::EngineFault;

// How many bytes a write takes, how the writes are disturbed, what comes of it, what is written, and
// the row's name.
static WRITES: [(usize, Disturbance, Result<u8, EngineFault>, &str, &str); 3] = [
    (
        6,
        Disturbance::Interrupted {
            from: 2,
            below: 1003,
        },
        Err(EngineFault::Write),
        "layout",
        "interrupted once more",
    ),
    (
        6,
        Disturbance::Failed(2),
        Err(EngineFault::Write),
        "layout",
        "the second one fails",
    ),
    (
        0,
        Disturbance::Never,
        Err(EngineFault::Write),
        "",
        "no byte is taken",
    ),
];

#[test]
fn writes(rt: HostRuntime) -> Result<(), Fail> {
    for (step, disturbance, status, written, row) in &WRITES {
        let input = Input::new(b"0 1 2", 1000, Disturbance::Never);
        let output = Output::new(rt.alloc(), *step, *disturbance);
        let outcome = served(&rt, &["ticketc", "order", "3"], input, output)?;
        holds(outcome.is(*status, written), *row)?;
    }
    Ok(())
}

const QUEUE: &[u8] =
    b"processes 2; var x; scan s; begin stamp; s = scan; x = older s 0 1; out x; end";

// A command line, the status and what is written. No host gives a line without a word.
static REFUSED: [(&[&str], u8, &str); 9] = [
    (&[], 2, USAGE),
    (&["ticketc"], 2, USAGE),
    (&["ticketc", "order", "7"], 1, "refused 11 Processes\n"),
    (&["ticketc", "order", "+3"], 2, USAGE),
    (&["ticketc", "run"], 2, USAGE),
    (&["ticketc", "run", "+3"], 2, USAGE),
    (&["ticketc", "run", "1000000001"], 2, USAGE),
    (&["ticketc", "run", "99999999999999999999"], 2, USAGE),
    (&["ticketc", "run", "1", "2"], 2, USAGE),
];

// Where the words are refused, no byte is asked for.
#[test]
fn refused_words_read_nothing(rt: HostRuntime) -> Result<(), Fail> {
    for (words, status, written) in &REFUSED {
        let reader = Input::new(QUEUE, 1000, Disturbance::Failed(1));
        let writer = Output::new(rt.alloc(), 1000, Disturbance::Never);
        let outcome = served(&rt, words, reader, writer)?;
        let is_so = outcome.is(Ok(*status), written) && outcome.reads == 0;
        holds(is_so, *words)?;
    }
    Ok(())
}
