//! Random orders of steps on what is shared.

use crate::played::Played;
use crate::programs::Small;
use crate::random::Random;
use code_machine::Code;
use std::alloc::Global;
use std::test::Fail;
use tick_run::RunOutcome;

const MOST_STEPS: u32 = 10_000;

// One of those that may go on.
fn any_able(able: &[bool; 6], random: &mut Random) -> Option<u8> {
    let from = random.below(6) as u8;
    for k in 0..6u8 {
        let p = from.wrapping_add(k) % 6;
        if able[p as usize] {
            return Some(p);
        }
    }
    None
}

// Goes on in any order: which process made which step.
fn any_steps(alloc: Global, played: &mut Played, seed: u64) -> Result<Vec<u8>, Fail> {
    let mut random = Random::new(seed);
    let mut order = Vec::new(alloc);
    for _ in 0..MOST_STEPS {
        let Some(p) = any_able(&played.able(), &mut random) else {
            break;
        };
        played.go(p)?;
        order.push(p)?;
    }
    Ok(order)
}

/// An order in which the processes make their steps on what is shared: how many instructions each makes, and
/// what the machine comes to.
#[derive(Drop)]
pub struct Ordered {
    pub order: Vec<u8>,
    pub turns: Vec<u64>,
    pub outcome: RunOutcome,
}

pub fn any_order(alloc: Global, code: &Code, small: &Small, seed: u64) -> Result<Ordered, Fail> {
    let mut played = Played::new(alloc, code, small)?;
    let order = any_steps(alloc, &mut played, seed)?;
    let turns = played.turns_made(alloc)?;
    let outcome = played.outcome(alloc)?;
    Ok(Ordered {
        order,
        turns,
        outcome,
    })
}
