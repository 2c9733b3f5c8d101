//! The longest codes, as lists of instructions and as texts.
use crate::codes::{sizes_of, verified};
use code_core::CodeFault::{FallsOff, TooLong};
use code_core::Instr::{Halt, Push};
use code_core::{CodeFault, Instr, Sizes};
use std::alloc::{AllocError, Global};
use std::test::Fail;
use step_code::{read_code, write_code};
use tests_shared::{holds, repeated};

// So many of an instruction, and what is answered of them: the greatest height, or a fault.
static REPEATED: [(Instr, usize, Result<u16, CodeFault>); 3] = [
    (Halt, 65535, Ok(0)),
    (Halt, 65536, Err(TooLong)),
    (Push(1), 65535, Err(FallsOff(65534))),
];

// What is answered of so many of an instruction, and how many of them are in the code or come back.
fn answered(
    alloc: Global,
    instruction: Instr,
    count: usize,
    sizes: Sizes,
) -> Result<(usize, Result<u16, CodeFault>), AllocError> {
    let given = vec![in alloc; instruction; count]?;
    match verified(alloc, given, sizes) {
        Ok(code) => Ok((code.len(), Ok(code.height()))),
        Err((back, fault)) => Ok((back.len(), Err(fault))),
    }
}

#[test]
fn longest_codes(rt: HostRuntime) -> Result<(), Fail> {
    let sizes = sizes_of((1, 0, 0, 0))?;
    for &(instruction, count, answer) in &REPEATED {
        let found = answered(rt.alloc(), instruction, count, sizes)?;
        holds(found == (count, answer), (count, instruction))?;
    }
    Ok(())
}

// 992,024 bytes, which are read and written.
#[test]
fn longest_text(rt: HostRuntime) -> Result<(), Fail> {
    let head = "tickcode 2 1 0 0 0\n";
    let text = repeated(rt.alloc(), head, "Push 4294967295\n", 62000, "Halt\n")?;
    let code = read_code(rt.alloc(), &text)?;
    let back = write_code(rt.alloc(), &code)?;
    holds(code.len() == 62001 && back == text, code.len())
}
