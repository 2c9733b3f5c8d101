// Which refusal an input has, by the crates that read it.
ghost use Rattle.std.specs.Prelude.{◌≡◌, ◌≢◌, ◌++◌, ℕ, List, IfOk, MatchOption, MatchResult, codes, true, false};
ghost use Rattle.language_schedules.specs.Schedule.{schedule_of};
ghost use Rattle.ticketc_refusals.specs.Refusals.{BeginsCode, CodeIn, IsCode, IsCodeRefused, IsNoText, IsProgram, IsProgramRefused, IsScheduleRefused, ProgramIn, SpelledIn, TextIn};

use crate::refusal::Refusal;
use crate::spelled_program::SpelledProgram;
use base::NoMemory;
use code_core::{Code, CodeFault};
use code_text::read_code;
use language_schedules::{ScheduleFault, read_schedule};
use std::alloc::Global;
use std::str;
use tick_kinds::{KindFault, Program, check};
use tick_syntax::{TextFault, parse, parse_with_tokens};

/// The longest input that is taken, in bytes.
const INPUT_LIMIT: usize = 1_000_000;

/// An input as a text, or why it is none.
pub fn text_of(input: &[u8]) -> Result<&str, Refusal>
    ensures { MatchResult result (λ text. TextIn input.now text.now) (IsNoText input.now) }
{
    if input.len() > INPUT_LIMIT {
        return Err(Refusal::Text(TextFault::TextTooLong));
    }
    match str::from_utf8(input) {
        Ok(text) => Ok(text),
        Err(error) => Err(Refusal::Text(TextFault::BadCharacter(error.valid_up_to()))),
    }
}

/// The accepted program that an input is, or why it is none.
pub fn program_in(alloc: Global, input: &[u8]) -> Result<Result<Program, Refusal>, NoMemory>
    ensures { IfOk result (λ found. MatchResult found (ProgramIn input.now) (IsProgramRefused input.now)) }
{
    let text = match text_of(input) {
        Ok(text) => text,
        Err(refusal) => return Ok(Err(refusal)),
    };
    let tree = match parse(alloc, text) {
        Ok(tree) => tree,
        Err(fault) => return Ok(Err(of_text(fault)?)),
    };
    match check(alloc, tree) {
        Ok(program) => Ok(Ok(program)),
        Err((_tree, fault)) => Ok(Err(of_kinds(fault)?)),
    }
}

/// The accepted program that an input is, with the tokens of its text, or why it is none. Both are of one
/// reading of the text.
pub fn program_with_tokens(
    alloc: Global,
    input: &[u8],
) -> Result<Result<SpelledProgram, Refusal>, NoMemory>
    ensures { IfOk result (λ found. MatchResult found (SpelledIn input.now) (IsProgramRefused input.now)) }
{
    let text = match text_of(input) {
        Ok(text) => text,
        Err(refusal) => return Ok(Err(refusal)),
    };
    let (tree, tokens) = match parse_with_tokens(alloc, text) {
        Ok(read) => read,
        Err(fault) => return Ok(Err(of_text(fault)?)),
    };
    match check(alloc, tree) {
        Ok(program) => Ok(Ok(SpelledProgram { program, tokens })),
        Err((_tree, fault)) => Ok(Err(of_kinds(fault)?)),
    }
}

/// Why an input is no accepted program, where it is none.
pub fn program_refusal(alloc: Global, input: &[u8]) -> Result<Option<Refusal>, NoMemory>
    ensures { IfOk result (λ found. MatchOption found (IsProgram input.now) (IsProgramRefused input.now)) }
{
    Ok(program_in(alloc, input)?.err())
}

// A fault as a refusal, unless memory was refused.
fn of_text(fault: TextFault) -> Result<Refusal, NoMemory>
    ensures { IfOk result (λ refusal. (fault ≢ TextFault.NoMemory) × (refusal ≡ Refusal.Text fault)) }
{
    match fault {
        TextFault::NoMemory => Err(NoMemory),
        fault => Ok(Refusal::Text(fault)),
    }
}

fn of_kinds(fault: KindFault) -> Result<Refusal, NoMemory>
    ensures { IfOk result (λ refusal. (fault ≢ KindFault.NoMemory) × (refusal ≡ Refusal.Kinds fault)) }
{
    match fault {
        KindFault::NoMemory => Err(NoMemory),
        fault => Ok(Refusal::Kinds(fault)),
    }
}

/// Whether an input begins as codes do.
pub fn begins_code(input: &[u8]) -> bool
    ensures yes { result ≡ true → BeginsCode input.now }
    ensures no { result ≡ false → BeginsCode input.now → ⊥ }
{
    input.starts_with(b"tickcode ")
}

/// The verified code that an input is, or why it is none.
pub fn code_in(alloc: Global, input: &[u8]) -> Result<Result<Code, Refusal>, NoMemory>
    ensures { IfOk result (λ found. MatchResult found (CodeIn input.now) (IsCodeRefused input.now)) }
{
    let text = match text_of(input) {
        Ok(text) => text,
        Err(refusal) => return Ok(Err(refusal)),
    };
    match read_code(alloc, text) {
        Ok(code) => Ok(Ok(code)),
        Err(fault) => match fault {
            CodeFault::NoMemory => Err(NoMemory),
            fault => Ok(Err(Refusal::Code(fault))),
        },
    }
}

/// Why an input is no verified code, where it is none.
pub fn code_refusal(alloc: Global, input: &[u8]) -> Result<Option<Refusal>, NoMemory>
    ensures { IfOk result (λ found. MatchOption found (IsCode input.now) (IsCodeRefused input.now)) }
{
    Ok(code_in(alloc, input)?.err())
}

/// Why a text is no schedule of so many processes, where it is none.
pub fn schedule_refusal(alloc: Global, text: &str, n: u8) -> Result<Option<Refusal>, NoMemory>
    ensures { IfOk result (λ found. MatchOption found ((steps : List ℕ) × (schedule_of n text.now ≡ Ok steps)) (IsScheduleRefused n text.now)) }
{
    match read_schedule(alloc, text, n) {
        Ok(_steps) => Ok(None),
        Err(fault) => match fault {
            ScheduleFault::NoMemory => Err(NoMemory),
            fault => Ok(Some(Refusal::Schedule(fault))),
        },
    }
}
