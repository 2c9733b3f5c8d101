//! The longest code, whose stack is as high as half of it.
use crate::stepping::turns::{Run, comes_along};
use code_machine::{Act, Event, Instr, Op, Status};
use std::alloc::{AllocError, Global};
use std::test::Fail;

const DID: [Event; 2] = [
    Event {
        process: 0,
        act: Act::Out(32767),
    },
    Event {
        process: 0,
        act: Act::End,
    },
];

// Adds 1 so many times, once all of them stand on the stack: 65,535 instructions.
fn adding(alloc: Global) -> Result<Vec<Instr>, AllocError> {
    let mut instructions = Vec::new(alloc);
    for _ in 0..32767 {
        instructions.push(Instr::Push(1))?;
    }
    for _ in 0..32766 {
        instructions.push(Instr::Bin(Op::Add))?;
    }
    instructions.push(Instr::Out)?;
    instructions.push(Instr::Halt)?;
    Ok(instructions)
}

static ENDS: Run<'static> = Run {
    numbers: (1, 0, 0, 0),
    turns: &[(0, 65535, (2, 65534, Status::Ended))],
    events: &DID,
    word: 0,
};

#[test]
fn steps(rt: HostRuntime) -> Result<(), Fail> {
    comes_along(rt.alloc(), &adding(rt.alloc())?, &ENDS)
}
