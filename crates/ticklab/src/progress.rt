//! How far a search is, told on standard error where that is a terminal.
ghost use Rattle.std.specs.Prelude.{◌≡◌, false};

use searches_explore::Watch;
use std::io::IsTerminal;
use std::time::Instant;
use ticklab_verdicts::Progress;

/// A line that is written over while a search goes on.
#[derive(Drop)]
pub struct HostProgress<'a> {
    rt: &'a HostRuntime,
    is_told: bool,
    /// The search is by merged steps.
    is_merged: bool,
    /// When it began, where the clock says so.
    since: Option<Instant>,
}

impl<'a> HostProgress<'a> {
    pub fn new(rt: &'a HostRuntime) -> HostProgress<'a>
        ensures { result.is_told ≡ false }
    {
        HostProgress {
            rt,
            is_told: false,
            is_merged: false,
            since: None,
        }
    }

    // How many states are seen a second, where the clock says so.
    fn rate(&self, states: u32) -> Option<u64> {
        let taken = self.since?.elapsed(self.rt).ok()?;
        let millis = u64::try_from(taken.as_millis()).ok()?;
        Some(u64::from(states) * 1000 / millis.max(1))
    }
}

impl<'a> Watch for HostProgress<'a> {
    ghost hears = { λ before states gone bytes after. Unit {0} };

    fn seen(&mut self, states: u32, gone: u32, bytes: u64) {
        if self.rt.stderr().is_terminal() {
            self.is_told = true;
            let steps = if self.is_merged { "merged" } else { "single" };
            let open = states.saturating_sub(gone);
            let megabytes = bytes / 1_000_000;
            let each = bytes / u64::from(states.max(1));
            let _written = eprint!(self.rt;
                "\rticklab: {steps}: {states} states, {open} open, {megabytes} MB, {each} bytes each"
            );
            if let Some(rate) = self.rate(states) {
                let _written = eprint!(self.rt; ", {rate} a second   ");
            }
        }
    }
}

impl<'a> Progress for HostProgress<'a> {
    ghost begins = { λ before is_merged after. Unit {0} };

    // A second search has a line of its own.
    fn begin(&mut self, is_merged: bool) {
        self.end();
        self.is_told = false;
        self.is_merged = is_merged;
        self.since = Instant::now(self.rt).ok();
    }

    ghost finds = { λ before is_break after. Unit {0} };

    // It has a line of its own too.
    fn found(&mut self, is_break: bool) {
        self.end();
        self.is_told = self.rt.stderr().is_terminal();
        if self.is_told {
            let fault = if is_break {
                "a line breaks"
            } else {
                "a process traps"
            };
            let _written = eprint!(self.rt; "ticklab: {fault}; looking for a shorter schedule");
        }
    }

    // Leaves the line, if there is one.
    fn end(&self) {
        if self.is_told {
            // A line of progress that can't be written is no fault of the search.
            let _written = eprintln!(self.rt; "");
        }
    }
}
