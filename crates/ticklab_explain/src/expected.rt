// What may stand next in a program, as the parser itself decides.
ghost use Rattle.std.specs.Prelude.{◌≡◌, ◌≢◌, ◌<◌, IfOk, length, min, take};
ghost use Rattle.ticklab_explain.specs.Following.{AreFitting, BeginsProgram, Fits, IsWhole, MayFollow, Tests, is_at_end, sample};

use crate::wanted::Wanted;
use base::NoMemory;
use std::alloc::Global;
use std::str;
use tick_syntax::{TextFault, parse};

/// Which of these may stand at a place of a text.
pub fn fitting_at(
    alloc: Global,
    text: &[u8],
    place: usize,
    among: &[Wanted],
) -> Result<Vec<Wanted>, NoMemory>
    ensures { IfOk result (λ wanted. AreFitting (take (min place (length text.now)) text.now) among.now wanted.items) }
{
    let place = place.min(text.len());
    match str::from_utf8(&text[..place]) {
        Ok(front) => fitting(alloc, front, among),
        Err(_) => Ok(Vec::new(alloc)),
    }
}

// Which of these may stand after a text.
fn fitting(alloc: Global, front: &str, among: &[Wanted]) -> Result<Vec<Wanted>, NoMemory>
    ensures { IfOk result (λ wanted. AreFitting front.now among.now wanted.items) }
{
    let mut wanted = Vec::new(alloc);
    for one in among {
        if fits(alloc, front, *one)? {
            wanted.push(*one)?;
        }
    }
    Ok(wanted)
}

fn fits(alloc: Global, front: &str, one: Wanted) -> Result<bool, NoMemory>
    ensures { IfOk result (Tests (Fits front.now one)) }
{
    match one {
        Wanted::TextEnd => is_whole(alloc, front),
        _ => may_follow(alloc, front, one),
    }
}

// Whether what is wanted may stand after the text, on a new line.
fn may_follow(alloc: Global, front: &str, one: Wanted) -> Result<bool, NoMemory>
    ensures { IfOk result (Tests (MayFollow front.now one)) }
{
    let mut text = String::from_str(alloc, front)?;
    text.push_str("\n")?;
    text.push_str(one.sample())?;
    begins_program(alloc, text.as_str())
}

// Whether the text is a program, or one goes on from its end.
fn begins_program(alloc: Global, text: &str) -> Result<bool, NoMemory>
    ensures { IfOk result (Tests (BeginsProgram text.now)) }
{
    match parse(alloc, text) {
        Ok(_tree) => Ok(true),
        Err(fault) => is_at_end(fault, text.len()),
    }
}

// Whether the fault is that nothing goes on from the end of a text of this length.
fn is_at_end(fault: TextFault, length: usize) -> Result<bool, NoMemory>
    ensures { IfOk result (λ ends. (fault ≢ TextFault.NoMemory) × (ends ≡ is_at_end fault length)) }
{
    match fault {
        TextFault::Unexpected(span) => Ok(span.start == length),
        TextFault::NoMemory => Err(NoMemory),
        TextFault::TextTooLong
        | TextFault::BadCharacter(_)
        | TextFault::NumberTooBig(_)
        | TextFault::NameTooLong(_)
        | TextFault::TooDeep(_) => Ok(false),
    }
}

// Whether a text is a whole program.
fn is_whole(alloc: Global, text: &str) -> Result<bool, NoMemory>
    ensures { IfOk result (Tests (IsWhole text.now)) }
{
    match parse(alloc, text) {
        Ok(_tree) => Ok(true),
        Err(TextFault::NoMemory) => Err(NoMemory),
        Err(_fault) => Ok(false),
    }
}
