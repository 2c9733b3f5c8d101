ghost use Rattle.std.specs.Prelude.{◌≡◌, ◌↔◌, ◌≤◌, ◌<◌, [], ◌∷◌, ◌++◌, length, Err, IfOk};
ghost use Rattle.code_core.specs.declared.instr.Instr.TheVariants as I;
ghost use Rattle.tick_kinds.specs.Resolution.{resolved};
ghost use Rattle.tick_kinds.specs.Resolved.{resolved_block};
ghost use Rattle.tick_lower.specs.Lowered.{lowered, lowered_length, lowered_sizes, block_length, block_code};
ghost use Rattle.tick_lower.specs.prover.Paired.{greatest_from};

use crate::emitter::emit_block;
use crate::fault::LowerFault;
use crate::length::block_length;
use code_core::{Code, Instr, Sizes, hands_on};
use std::alloc::{AllocError, Global};
use tick_kinds::Program;
use tick_kinds::resolved::Statement;

/// The code of a program. A program whose code would be too long is refused before anything is built;
/// time and memory are linear in the program, and in the code.
pub fn lower(alloc: Global, program: &Program) -> Result<Code, LowerFault>
    ensures code { IfOk result (λ code. code ≡ record { sizes = lowered_sizes (resolved program.now); instructions = lowered (resolved program.now) }) }
    ensures too_long { (result ≡ Err LowerFault.TooLong) ↔ (65535 < lowered_length (resolved program.now)) }
{
    let body = program.body();
    let length = block_length(body);
    // The end of the process is one instruction more.
    if length >= 65535 {
        return Err(LowerFault::TooLong);
    }
    let instructions = instructions_of(alloc, length as usize + 1, body)?;
    let height = greatest_height(&instructions);
    let code = Code::of_verified(alloc, sizes_of(program), &instructions, height)?;
    Ok(code)
}

// The sizes of the code, which every accepted program keeps.
fn sizes_of(program: &Program) -> Sizes
    ensures { result ≡ lowered_sizes (resolved program.now) }
{
    Sizes::new(
        program.processes(),
        program.variables(),
        program.scans(),
        program.registers(),
    )
    .unwrap()
}

// The instructions of a body and the end of the process, for which memory is asked at once.
fn instructions_of(
    alloc: Global,
    length: usize,
    body: &[Statement],
) -> Result<Vec<Instr>, AllocError>
    requires { block_length (resolved_block body.now) ≤ 65534 }
    ensures { IfOk result (λ code. code.items ≡ block_code 0 (resolved_block body.now) ++ I.Halt ∷ []) }
{
    let mut code = Vec::with_capacity(alloc, length)?;
    emit_block(&mut code, body)?;
    code.push(Instr::Halt)?;
    Ok(code)
}

// The greatest height of a code whose jumps all leave the stack empty.
fn greatest_height(code: &[Instr]) -> u16
    requires { length code.now ≤ 65535 }
    ensures { result ≡ greatest_from 0 code.now }
{
    let mut height = 0;
    let mut greatest = 0u16;
    for &instruction in code {
        greatest = greatest.max(height);
        height = hands_on(instruction, height).unwrap_or(0);
    }
    greatest
}
