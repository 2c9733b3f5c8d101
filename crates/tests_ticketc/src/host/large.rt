use crate::host::ends::{Given, NEVER, Taken, served};
use std::alloc::{AllocError, Global};
use std::test::Fail;
use tests_shared::{holds, repeated};

// How many bytes a call moves at most, and how many calls read the input and write the answer so. Room for
// 16,384 bytes is read into.
static STEPS: [(usize, usize, usize); 3] = [(1_000_000, 3, 1), (16_384, 3, 18), (1000, 21, 291)];

const ORDER: [&str; 3] = ["ticketc", "order", "1"];

const LAST: &str = "word 281474976710656\nlabels -\nranks 0\n";

// 20,000 bytes: more than are read at a time.
fn input(alloc: Global) -> Result<String, AllocError> {
    repeated(alloc, "", "0 ", 10_000, "")
}

// 290,047 bytes.
fn answer(alloc: Global) -> Result<String, AllocError> {
    let stamp = "stamp 0 word 281474976710656\n";
    repeated(alloc, "layout 3\n", stamp, 10_000, LAST)
}

#[test]
fn large(rt: HostRuntime) -> Result<(), Fail> {
    let (input, answer) = (input(rt.alloc())?, answer(rt.alloc())?);
    for (step, reads, writes) in &STEPS {
        let output = Taken::new(rt.alloc(), *step, NEVER);
        let given = Given::new(input.as_bytes(), *step, NEVER);
        let ending = served(&rt, &ORDER, given, output)?;
        let is_so = ending.is(0, answer.as_str()) && ending.has_calls(*reads, *writes);
        holds(is_so, *step)?;
    }
    Ok(())
}
