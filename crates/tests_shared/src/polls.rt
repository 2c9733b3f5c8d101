//! Bounded waiting for other threads.

use std::sync::atomic::AtomicU64;
use std::sync::atomic::Ordering::SeqCst;
use std::thread::yield_now;

const MOST_POLLS: u64 = 10_000_000;

/// What has to come, and whether it was waited for in vain.
#[derive(Drop)]
pub struct Polls {
    late: AtomicU64,
}

impl Polls {
    pub fn new() -> Polls {
        Polls {
            late: AtomicU64::new(0),
        }
    }

    /// Polls until the count is this far. After 10,000,000 polls it gives up, and no other poll waits
    /// any more.
    pub fn wait(&self, count: &AtomicU64, least: u64) {
        for _ in 0..MOST_POLLS {
            if count.load(SeqCst) >= least || self.late.load(SeqCst) > 0 {
                return;
            }
            yield_now();
        }
        self.late.fetch_add(1, SeqCst);
    }

    /// Whether all that was waited for has come.
    pub fn all_came(&self) -> bool {
        self.late.load(SeqCst) == 0
    }
}
