//! The host gives no words.
use crate::host::ends::{Given, NEVER, Taken, ending_of};
use std::io::{Error, ErrorKind};
use std::test::Fail;
use tests_shared::holds;

static NO_WORDS: [ErrorKind; 2] = [ErrorKind::InvalidData, ErrorKind::OutOfMemory];

#[test]
fn no_words(rt: HostRuntime) -> Result<(), Fail> {
    for kind in &NO_WORDS {
        let output = Taken::new(rt.alloc(), 1000, NEVER);
        let words = Err(Error::from(*kind));
        let ending = ending_of(&rt, words, Given::new(b"0", 1000, NEVER), output);
        holds(ending.is(4, "") && ending.has_calls(0, 0), ())?;
    }
    Ok(())
}
