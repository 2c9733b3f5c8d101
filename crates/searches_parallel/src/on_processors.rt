ghost use Rattle.std.specs.Prelude.{◌≤◌, max};

use crate::sharing::side_by_side;
use searches_hunt::{NoMemory, Plan, Sought, Trials};
use std::thread::{Threads, available_parallelism};

/// How many runs a thread tries at most before the threads meet.
const LARGEST_PIECE: u32 = 4096;

/// Tries runs on so many threads at once; 0 counts as 1.
///
/// The threads meet after 1 run of each, after 2 more, after 4, and so on up to 4,096. So they go on after a fault for
/// about as long as it took to come to it, at most.
#[derive(Drop)]
pub struct OnProcessors<'a, R> {
    pub rt: &'a R,
    pub jobs: u8,
}

impl<'a, R: Threads> OnProcessors<'a, R> {
    /// Tries runs on as many threads as `processors` tells.
    pub fn new(rt: &'a R) -> OnProcessors<'a, R>
        ensures { result.jobs ≤ 64 }
    {
        OnProcessors {
            rt,
            jobs: processors(rt),
        }
    }
}

/// How many processors there are, of which at most 64 count; 1 where that isn't known.
pub fn processors<R: Threads>(rt: &R) -> u8
    ensures { result ≤ 64 }
{
    match available_parallelism(rt) {
        Ok(count) => usize::min(count.get(), 64) as u8,
        Err(_unknown) => 1,
    }
}

impl<'a, R: Threads> Trials for OnProcessors<'a, R> {
    ghost at_once = { λ trials. max 1 trials.jobs };

    fn with_jobs(&self, jobs: u32) -> OnProcessors<'a, R> {
        OnProcessors {
            rt: self.rt,
            jobs: u32::min(jobs, u32::from(self.jobs)) as u8,
        }
    }

    fn first_fault(&self, sought: Sought, plan: Plan, from: u32) -> Result<Option<u32>, NoMemory> {
        let threads = u8::max(1, self.jobs);
        let end = from.saturating_add(plan.runs);
        let mut next = from;
        let mut most = u32::from(threads);
        'rounds: while next < end {
            let round = Plan {
                runs: u32::min(most, end - next),
                ..plan
            };
            let told = side_by_side(self.rt, sought, round, next, threads)?;
            if let Some(run) = told {
                return Ok(Some(run));
            }
            next += round.runs;
            most = u32::min(2 * most, u32::from(threads) * LARGEST_PIECE);
        }
        Ok(None)
    }
}
