//! From a text to the code that it spells. Each line is guessed, and then compared with the text.
ghost use Rattle.std.specs.Prelude.{◌≡◌, ◌≢◌, ◌↔◌, ◌++◌, ◌+◌, ℕ, List, Ok, Err, IfOk, IfErr, IsTrue, MatchOption};
ghost use Rattle.code_text.specs.CodeText.{code_lines, IsIn, AllMayStand, HasBadLine, ReadsAs};
ghost use Rattle.code_text.specs.prover.Guess.{Follows, FollowsHeader};
ghost use Rattle.code_core.specs.declared.fault.CodeFault.TheVariants.{NoMemory, BadLine};

use crate::guess::{guess, guess_sizes, guess_version};
use crate::writing::{push_header, push_line};
use code_core::{Code, CodeFault, Instr, Sizes, verify};
use std::alloc::{AllocError, Global};

/// The code that a text spells. The first line that is not of the form is told, the header being
/// line 1; after that the first fault of its instructions.
pub fn read_code(alloc: Global, text: &str) -> Result<Code, CodeFault>
    ensures ok { IfOk result (λ code. ReadsAs text.now (Ok code)) }
    ensures err { IfErr result (λ fault. fault ≢ NoMemory → ReadsAs text.now (Err fault)) }
{
    let bytes = text.as_bytes();
    let version = guess_version(bytes);
    let Some(sizes) = guess_sizes(bytes) else {
        return Err(CodeFault::BadLine(1));
    };
    let Some(rest) = after_header(alloc, version, sizes, bytes)? else {
        return Err(CodeFault::BadLine(1));
    };
    let instructions = read_lines(alloc, version, rest)?;
    match verify(alloc, instructions, sizes) {
        Ok(code) => Ok(code),
        Err((_, fault)) => Err(fault),
    }
}

// What follows `front` in a text that begins with it.
fn after<'a>(text: &'a [u8], front: &[u8]) -> Option<&'a [u8]>
    ensures { MatchOption result ((more : List ℕ) → front.now ++ more ≡ text.now → ⊥) (λ rest. front.now ++ rest.now ≡ text.now) }
{
    if text.starts_with(front) {
        Some(&text[front.len()..])
    } else {
        None
    }
}

// What follows the header of this version and these sizes, where the text begins with it. The header
// is written to compare.
fn after_header<'a>(
    alloc: Global,
    version: u8,
    sizes: Sizes,
    text: &'a [u8],
) -> Result<Option<&'a [u8]>, AllocError>
    ensures { IfOk result (FollowsHeader version sizes text.now) }
{
    let mut header = String::new(alloc);
    push_header(&mut header, version, sizes)?;
    Ok(after(text, header.as_bytes()))
}

// Whether texts of this version have lines of the instruction.
fn is_in(version: u8, instruction: Instr) -> bool
    ensures { IsTrue result ↔ IsIn version instruction }
{
    match instruction {
        Instr::Clear | Instr::Held(..) => version == 2,
        _ => true,
    }
}

// What follows the line of this instruction, where the text begins with it and texts of this version
// have it. The line is written to compare.
fn after_line<'a>(
    version: u8,
    text: &'a [u8],
    instruction: Instr,
    line: &mut String,
) -> Result<Option<&'a [u8]>, AllocError>
    ensures { IfOk result (Follows version instruction text.now) }
{
    if !is_in(version, instruction) {
        return Ok(None);
    }
    line.clear();
    push_line(line, instruction)?;
    Ok(after(text, line.as_bytes()))
}

// The instructions whose lines the text is, in this version. Each line is guessed, and compared.
fn read_lines(alloc: Global, version: u8, text: &[u8]) -> Result<Vec<Instr>, CodeFault>
    ensures ok { IfOk result (λ is. code_lines is.items ≡ text.now) }
    ensures lines { IfOk result (λ is. AllMayStand version is.items) }
    ensures err { IfErr result (λ fault. fault ≢ NoMemory → (k : ℕ) × (fault ≡ BadLine (k + 2)) × HasBadLine version k text.now) }
{
    let mut instructions = Vec::new(alloc);
    let mut line = String::new(alloc);
    let mut rest = text;
    while !rest.is_empty() {
        let instruction = guess(rest);
        let Some(more) = after_line(version, rest, instruction, &mut line)? else {
            return Err(CodeFault::BadLine(instructions.len() + 2));
        };
        instructions.push(instruction)?;
        rest = more;
    }
    Ok(instructions)
}
