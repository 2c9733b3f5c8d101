//! Codes, of their instructions and sizes. A call whose memory was refused is made once more, so a test passes
//! also if any one growth of such a call is refused.
ghost use Rattle.std.specs.Prelude.{◌≡◌, IfOk};

use code_core::{Code, CodeFault, Instr, Sizes, verify};
use std::alloc::Global;
use std::test::Fail;

/// Numbers of processes, variables, scans and register rows.
pub type Numbers = (u8, u8, u8, u8);

/// The sizes of these numbers.
pub fn sizes_of(numbers: Numbers) -> Result<Sizes, Fail>
    ensures { IfOk result (λ sizes. sizes.processes ≡ numbers.0) }
{
    match Sizes::new(numbers.0, numbers.1, numbers.2, numbers.3) {
        Some(sizes) => Ok(sizes),
        None => Err(Fail::new("no sizes of a code")),
    }
}

pub fn verified(
    alloc: Global,
    instructions: Vec<Instr>,
    sizes: Sizes,
) -> Result<Code, (Vec<Instr>, CodeFault)>
    ensures { IfOk result (λ code. code.sizes ≡ sizes) }
{
    match verify(alloc, instructions, sizes) {
        Err((instructions, CodeFault::NoMemory)) => verify(alloc, instructions, sizes),
        answer => answer,
    }
}

/// The code of these instructions and numbers.
pub fn code_of(alloc: Global, numbers: Numbers, instructions: &[Instr]) -> Result<Code, Fail>
    ensures { IfOk result (λ code. code.sizes.processes ≡ numbers.0) }
{
    let sizes = sizes_of(numbers)?;
    match verified(alloc, Vec::from_slice(alloc, instructions)?, sizes) {
        Ok(code) => Ok(code),
        Err((_instructions, fault)) => Err(fault)?,
    }
}
