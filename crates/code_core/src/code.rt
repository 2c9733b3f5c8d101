//! `Code`: instructions that have no fault, in words. `verify` accepts them, or tells their first fault.
ghost use Rattle.std.specs.Prelude.{◌≡◌, ◌≢◌, ◌≤◌, ◌<◌, [], length, slice_get, IfOk, OnOk, IfErr};
ghost use Rattle.code_core.specs.Heights.{greatest_height, placed};
ghost use Rattle.code_core.specs.Verified.{code_fault, first_fault, IsVerified};
ghost use Rattle.code_core.specs.Words.{words_of, constants_of, decoded_all};

use crate::fault::CodeFault;
use crate::instr::Instr;
use crate::sizes::Sizes;
use crate::verifier::Verifier;
use crate::words::{Words, decoded, in_words, word_at};
use std::alloc::{AllocError, Global};
use std::marker::Model;

/// A list of 1 to 65,535 instructions that has no fault, kept in words.
#[derive(Drop)]
pub struct Code {
    sizes: Sizes,
    words: Vec<u32>,
    constants: Vec<u32>,
    height: u16,
}

impl Model for Code {
    ghost use Rattle.std.specs.Prelude.{◌≡◌};
    ghost use Rattle.code_core.specs.Instructions.{StepCode};
    ghost use Rattle.code_core.specs.Heights.{greatest_height};
    ghost use Rattle.code_core.specs.Verified.{IsVerified};
    ghost use Rattle.code_core.specs.Words.{decoded_all};
    ghost use Rattle.code_core.specs.prover.Coding.{AreCoded};

    ghost Value = { StepCode };

    ghost view = { λ fields. record { sizes = fields.sizes; instructions = decoded_all fields.constants.items fields.words.items } };

    ghost invariant = { λ fields.
        let code = decoded_all fields.constants.items fields.words.items in
        IsVerified fields.sizes code × (fields.height ≡ greatest_height code) × AreCoded code fields.words.items fields.constants.items };
}

/// Accepts the instructions as a code of these sizes. Where they have a fault, or memory is refused,
/// they come back with it; the first fault is told.
pub fn verify(
    alloc: Global,
    instructions: Vec<Instr>,
    sizes: Sizes,
) -> Result<Code, (Vec<Instr>, CodeFault)>
    ensures code { IfOk result (λ code. code ≡ record { sizes = sizes; instructions = instructions.items }) }
    ensures verified { OnOk result (IsVerified sizes instructions.items) }
    ensures refused { IfErr result (λ e. e.1 ≢ CodeFault.NoMemory → code_fault sizes instructions.items ≡ Some e.1) }
    ensures accepts { IsVerified sizes instructions.items → IfErr result (λ e. e.1 ≡ CodeFault.NoMemory) }
    ensures unchanged { IfErr result (λ e. e.0 ≡ instructions) }

    // These two need no memory.
    ensures empty { length instructions.items ≡ 0 → IfErr result (λ e. e.1 ≡ CodeFault.Empty) }
    ensures too_long { 65535 < length instructions.items → IfErr result (λ e. e.1 ≡ CodeFault.TooLong) }
{
    match code_of(alloc, sizes, &instructions) {
        Ok(code) => Ok(code),
        Err(fault) => Err((instructions, fault)),
    }
}

// The code of these instructions, or their first fault.
fn code_of(alloc: Global, sizes: Sizes, code: &[Instr]) -> Result<Code, CodeFault>
    ensures code { IfOk result (λ made. made ≡ record { sizes = sizes; instructions = code.now }) }
    ensures verified { OnOk result (IsVerified sizes code.now) }
    ensures refused { IfErr result (λ fault. fault ≢ CodeFault.NoMemory → code_fault sizes code.now ≡ Some fault) }
    ensures empty { length code.now ≡ 0 → IfErr result (λ fault. fault ≡ CodeFault.Empty) }
    ensures too_long { 65535 < length code.now → IfErr result (λ fault. fault ≡ CodeFault.TooLong) }
{
    let height = verified_height(alloc, sizes, code)?;
    let made = Code::of_verified(alloc, sizes, code, height)?;
    Ok(made)
}

// The greatest height of any place of a code without faults, or its first fault.
fn verified_height(alloc: Global, sizes: Sizes, code: &[Instr]) -> Result<u16, CodeFault>
    ensures verified { OnOk result (IsVerified sizes code.now) }
    ensures height { IfOk result (λ height. height ≡ greatest_height code.now) }
    ensures refused { IfErr result (λ fault. fault ≢ CodeFault.NoMemory → code_fault sizes code.now ≡ Some fault) }
    ensures empty { length code.now ≡ 0 → IfErr result (λ fault. fault ≡ CodeFault.Empty) }
    ensures too_long { 65535 < length code.now → IfErr result (λ fault. fault ≡ CodeFault.TooLong) }
{
    if code.is_empty() {
        return Err(CodeFault::Empty);
    }
    if code.len() > 65535 {
        return Err(CodeFault::TooLong);
    }
    passed_height(alloc, sizes, code)
}

// The same of a code that is neither empty nor too long.
fn passed_height(alloc: Global, sizes: Sizes, code: &[Instr]) -> Result<u16, CodeFault>
    requires few { length code.now ≤ 65535 }
    ensures verified { OnOk result (first_fault sizes code.now [] (placed code.now) ≡ None) }
    ensures height { IfOk result (λ height. height ≡ greatest_height code.now) }
    ensures refused { IfErr result (λ fault. fault ≢ CodeFault.NoMemory → first_fault sizes code.now [] (placed code.now) ≡ Some fault) }
{
    let mut pass = Verifier::new(alloc, sizes, code)?;
    for place in 0..code.len() as u16 {
        pass.step(sizes, code, place)?;
    }
    Ok(pass.greatest)
}

impl Code {
    /// The code of instructions that are known to have no fault, with the greatest height of their
    /// places.
    pub fn of_verified(
        alloc: Global,
        sizes: Sizes,
        instructions: &[Instr],
        height: u16,
    ) -> Result<Code, AllocError>
        requires verified { IsVerified sizes instructions.now }
        requires height { height ≡ greatest_height instructions.now }
        ensures { IfOk result (λ code. code ≡ record { sizes = sizes; instructions = instructions.now }) }
    {
        let Words { words, constants } = in_words(alloc, instructions)?;
        Ok(Code {
            sizes,
            words,
            constants,
            height,
        })
    }

    /// How many instructions there are, 1 to 65,535.
    pub fn len(&self) -> usize
        ensures count { result ≡ length self.now.instructions }
        ensures at_least_one { 1 ≤ result }
        ensures at_most { result ≤ 65535 }
    {
        self.words.len()
    }

    /// For how many processes, variables, scans and register rows it was accepted.
    #[inline(always)]
    pub fn sizes(&self) -> Sizes
        ensures sizes { result ≡ self.now.sizes }
        ensures verified { IsVerified self.now.sizes self.now.instructions }
    {
        self.sizes
    }

    /// The instruction at a place, which is below `len()`.
    #[inline(always)]
    pub fn instr(&self, place: u16) -> Instr
        requires { place < length self.now.instructions }
        ensures { slice_get self.now.instructions place ≡ Some result }
    {
        decoded(&self.constants, word_at(&self.words, place))
    }

    /// A word for each instruction.
    pub fn words(&self) -> &[u32]
        ensures words { result.now ≡ words_of self.now.instructions }
        ensures decode { decoded_all (constants_of self.now.instructions) result.now ≡ self.now.instructions }
    {
        self.words.as_slice()
    }

    /// The values that the instructions push, in order of their places.
    pub fn constants(&self) -> &[u32]
        ensures { result.now ≡ constants_of self.now.instructions }
    {
        self.constants.as_slice()
    }

    /// The greatest height of the stack at any place.
    pub fn height(&self) -> u16
        ensures { result ≡ greatest_height self.now.instructions }
    {
        self.height
    }
}
