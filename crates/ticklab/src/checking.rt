//! Files that are searched side by side, on threads, and the clock that says how long each takes.
ghost use Rattle.std.specs.Prelude.{max};

use crate::search::Ground;
use crate::searching::side_by_side;
use searches_explore::Limits;
use searches_parallel::processors;
use std::alloc::Global;
use std::sync::Wait;
use std::thread::Threads;
use std::time::Instant;
use ticklab_check::{CheckFault, Checks, Listener, Source, Stopwatch, Timed};

/// Hundredths of a second since it was made.
#[derive(Drop)]
pub struct HostStopwatch<'a> {
    clock: &'a HostRuntime,
    start: Option<Instant>,
}

impl<'a> HostStopwatch<'a> {
    /// One that starts now, or never where there is no clock.
    pub fn new(clock: &'a HostRuntime) -> HostStopwatch<'a> {
        HostStopwatch {
            clock,
            start: Instant::now(clock).ok(),
        }
    }
}

impl<'a> Stopwatch for HostStopwatch<'a> {
    fn hundredths(&self) -> u64 {
        let Some(start) = self.start else {
            return 0;
        };
        match start.elapsed(self.clock) {
            Ok(time) => time
                .as_secs()
                .saturating_mul(100)
                .saturating_add(u64::from(time.subsec_millis() / 10)),
            Err(_unknown) => 0,
        }
    }
}

/// Searches files on so many threads at once; 0 counts as 1. A file is begun when the one so many places before it has ended.
#[derive(Drop)]
pub struct SideBySide<'a, R> {
    rt: &'a R,
    clock: &'a HostRuntime,
    jobs: u8,
}

impl<'a, R: Threads> SideBySide<'a, R> {
    /// Searches files on as many threads as `processors` tells.
    pub fn new(rt: &'a R, clock: &'a HostRuntime) -> SideBySide<'a, R> {
        SideBySide {
            rt,
            clock,
            jobs: processors(rt),
        }
    }
}

impl<'a, R: Threads + Wait> Checks for SideBySide<'a, R> {
    ghost most = { λ checks. max 1 checks.jobs };

    fn with_jobs(&self, jobs: u32) -> SideBySide<'a, R> {
        SideBySide {
            rt: self.rt,
            clock: self.clock,
            jobs: u32::min(jobs, u32::from(self.jobs)) as u8,
        }
    }

    fn at_once(&self) -> u32 {
        u32::from(self.jobs).max(1)
    }

    fn checked<L: Listener>(
        &self,
        alloc: Global,
        sources: &[Source],
        limits: Limits,
        listener: &mut L,
    ) -> Result<Vec<Timed>, CheckFault> {
        let ground = Ground {
            rt: self.rt,
            clock: self.clock,
        };
        let most = usize::from(self.jobs);
        side_by_side(&ground, alloc, most, sources, limits, listener)
    }
}
