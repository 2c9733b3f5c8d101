//! A limit of memory: a search stops where it holds more bytes.

use searches_explore::{
    Conditions, Fault, Limits, MustStop, NoMemory, StepKind, Verdict, Watch, explore, explore_ends,
};
use std::alloc::Global;
use std::test::Fail;
use tests_shared::{Checked, counting, holds, is_same};
use tick_kinds::Program;

/// How many bytes were held when that was told last.
#[derive(Drop)]
struct Held {
    bytes: u64,
}

impl Watch for Held {
    ghost hears = { λ before states gone bytes after. Unit {0} };

    fn seen(&mut self, _states: u32, _gone: u32, bytes: u64) {
        self.bytes = bytes;
    }
}

// How many states there are, where all were seen.
fn number<E>(explored: &Verdict<Fault, E>) -> Option<u32> {
    match explored {
        Verdict::Nowhere { states, .. } => Some(*states),
        _ => None,
    }
}

/// A search: by which steps, whether it is asked for ends, how far each of three processes counts, and what else it
/// does each time.
#[derive(Clone, Copy)]
struct Search {
    steps: StepKind,
    of_ends: bool,
    most: u32,
    acts: &'static str,
}

impl Search {
    // How many states it sees within so many bytes, if these are all, and how many bytes it holds then.
    fn within(
        &self,
        alloc: Global,
        program: &Program,
        bytes: u64,
    ) -> Result<(Option<u32>, u64), NoMemory> {
        let mut held = Held { bytes: 0 };
        let (steps, states, watch) = (self.steps, u32::MAX, &mut held);
        let limits = Limits { states, bytes };
        let found = if self.of_ends {
            let asked = Conditions {
                fair: MustStop::All,
                wait_free: MustStop::All,
                alone: MustStop::All,
            };
            number(&explore_ends(alloc, program, &[], asked, steps, limits, watch)?)
        } else {
            number(&explore(alloc, program, &[], steps, limits, watch)?)
        };
        Ok((found, held.bytes))
    }

    // It sees so many states within as many bytes as they take, and not within half as many.
    fn stops(&self, alloc: Global, states: u32) -> Result<(), Fail> {
        let text = counting(alloc, self.most, self.acts, "")?;
        let checked = Checked::new(alloc, &text)?;
        let (all, bytes) = self.within(alloc, &checked.program, u64::MAX)?;
        let (enough, _bytes) = self.within(alloc, &checked.program, bytes)?;
        let (half, held) = self.within(alloc, &checked.program, bytes / 2)?;
        is_same(&(all, enough, half), &(Some(states), Some(states), None))?;
        holds(held > bytes / 2 && held - bytes / 2 < 200_000, held)
    }
}

#[test]
fn each_search(rt: HostRuntime) -> Result<(), Fail> {
    for of_ends in [false, true] {
        // A process is before its test with each number up to 12, before its assignment with each up to 11, has nothing
        // left, or has ended: 27 states, so three have 27 * 27 * 27.
        let single = Search {
            steps: StepKind::Single,
            of_ends,
            most: 12,
            acts: "",
        };
        single.stops(rt.alloc(), 19_683)?;
        // Between merged steps a process stands at its start, before its `clear` with each number from 1 to 24, or at its
        // end: 26 states, so three have 26 * 26 * 26.
        let merged = Search {
            steps: StepKind::Merged,
            of_ends,
            most: 24,
            acts: "clear; ",
        };
        merged.stops(rt.alloc(), 17_576)?;
    }
    Ok(())
}
