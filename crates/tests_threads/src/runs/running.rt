//! Runs of codes that are given as texts.
use code_text::read_code;
use std::sync::Wait;
use std::test::Fail;
use std::thread::Threads;
use tests_shared::holds;
use tick_run::{Gate, RunEnd, RunOutcome, run};

/// What each process gives out, how each ends, and what each row of registers holds.
#[derive(Drop)]
pub struct Wanted<'a> {
    pub outputs: &'a [&'a [u32]],
    pub ends: &'a [RunEnd],
    pub registers: &'a [&'a [u32]],
}

fn are_lists(found: &[Vec<u32>], wanted: &[&[u32]]) -> bool {
    for (list, wanted) in found.iter().zip(wanted) {
        if list.as_slice() != *wanted {
            return false;
        }
    }
    found.len() == wanted.len()
}

fn is_one_of(outcome: &RunOutcome, allowed: &[Wanted<'_>]) -> bool {
    for wanted in allowed {
        if outcome.ends.as_slice() == wanted.ends
            && are_lists(&outcome.outputs, wanted.outputs)
            && are_lists(&outcome.registers, wanted.registers)
        {
            return true;
        }
    }
    false
}

/// The code that the text is, with a gate for each of its processes, comes to one of these within 1,000 turns and 4
/// outputs.
pub fn comes_to_one_of<G: Gate + Send, R: AllocGlobal + Threads + Wait>(
    rt: &R,
    text: &str,
    gates: Vec<G>,
    allowed: &[Wanted<'_>],
) -> Result<(), Fail> {
    let code = read_code(rt.alloc(), text)?;
    if gates.len() != code.sizes().processes() as usize {
        return Err(Fail::from("a gate for each process"));
    }
    let outcome = run(rt, rt.alloc(), &code, gates, 1_000, 4)?;
    holds(is_one_of(&outcome, allowed), text)
}
