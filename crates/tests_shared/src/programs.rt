use std::alloc::Global;
use std::test::Fail;
use tick_kinds::{Program, check};
use tick_syntax::parse;

// The program that a text is.
fn accepted(alloc: Global, text: &str) -> Result<Program, Fail> {
    match check(alloc, parse(alloc, text)?) {
        Ok(program) => Ok(program),
        Err((_tree, fault)) => Err(fault)?,
    }
}

/// A program of a test. Who lets a `Program` go has to prove how each of its parts is let go. Here that is
/// proved once, for all crates of tests.
pub struct Checked {
    pub program: Program,
}

impl Checked {
    pub fn new(alloc: Global, text: &str) -> Result<Checked, Fail> {
        Ok(Checked {
            program: accepted(alloc, text)?,
        })
    }
}

impl Drop for Checked {
    fn drop(self) {
        let Self { program } = self;
        drop(program);
    }
}
