//! What is left of a schedule without some of its steps.
ghost use Rattle.std.specs.Prelude.{◌≡◌, ◌⊎◌, ◌<◌, ◌≤◌, ◌++◌, ◌∷◌, [], length, take, drop, IfOk};
ghost use Rattle.searches_hunt.specs.prover.Parts.{IsLeft};

use base::NoMemory;
use std::alloc::Global;

/// What is left of a schedule without the items from one place to another.
pub fn without(alloc: Global, schedule: &[u8], from: usize, to: usize) -> Result<Vec<u8>, NoMemory>
    requires from { from ≤ to }
    requires to { to ≤ length schedule.now }
    ensures rest { IfOk result (λ rest. rest.items ≡ take from schedule.now ++ drop to schedule.now) }
    ensures left { IfOk result (λ rest. IsLeft rest.items schedule.now) }
{
    with_ends(alloc, schedule, from, to)
}

// The items before one place and those from another on.
fn with_ends(alloc: Global, schedule: &[u8], from: usize, to: usize) -> Result<Vec<u8>, NoMemory>
    requires from { from ≤ to }
    requires to { to ≤ length schedule.now }
    ensures { IfOk result (λ rest. rest.items ≡ take from schedule.now ++ drop to schedule.now) }
{
    let mut rest = Vec::with_capacity(alloc, schedule.len() - (to - from))?;
    rest.extend_from_slice(&schedule[..from])?;
    rest.extend_from_slice(&schedule[to..])?;
    Ok(rest)
}

// Keeps an item, or leaves it out.
fn keep(rest: &mut Vec<u8>, is_kept: bool, item: u8) -> Result<(), NoMemory>
    ensures { IfOk result (λ _. (rest.new.items ≡ rest.old.items ++ item ∷ []) ⊎ (rest.new.items ≡ rest.old.items)) }
{
    if is_kept {
        rest.push(item)?;
    }
    Ok(())
}

/// Which steps are left out.
#[derive(Clone, Copy)]
pub enum Spared<'a> {
    /// Those of a process from one place to another.
    OfProcess { process: u8, from: usize, to: usize },
    /// Those that are marked.
    Marked(&'a [bool]),
}

impl<'a> Spared<'a> {
    // Whether it has the step of this process at this place.
    fn has(&self, at: usize, step: u8) -> bool {
        match *self {
            Spared::OfProcess { process, from, to } => process == step && from <= at && at < to,
            Spared::Marked(marks) => marks.get(at).copied().unwrap_or(false),
        }
    }
}

/// What is left of a schedule without these steps.
pub fn without_steps(
    alloc: Global,
    schedule: &[u8],
    spared: Spared<'_>,
) -> Result<Vec<u8>, NoMemory>
    ensures { IfOk result (λ rest. IsLeft rest.items schedule.now) }
{
    let mut rest = Vec::with_capacity(alloc, schedule.len())?;
    for at in 0..schedule.len() {
        let process = schedule[at];
        keep(&mut rest, !spared.has(at, process), process)?;
    }
    Ok(rest)
}

/// The place after so many more steps of process `p`, from this place on; the end where there are not as many.
pub fn place_after(schedule: &[u8], from: usize, p: u8, steps: usize) -> usize
    requires { from < length schedule.now }
    ensures { from < result }
{
    let mut left = steps;
    for at in from..schedule.len() {
        if schedule[at] == p {
            if left <= 1 {
                return at + 1;
            }
            left -= 1;
        }
    }
    schedule.len()
}

/// The place from which on there are so many steps of process `p`; the start where there are not as many.
pub fn place_of_last(schedule: &[u8], p: u8, steps: usize) -> usize {
    let mut left = steps;
    for at in (0..schedule.len()).rev() {
        if schedule[at] == p {
            if left <= 1 {
                return at;
            }
            left -= 1;
        }
    }
    0
}
