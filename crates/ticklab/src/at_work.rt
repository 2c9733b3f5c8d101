//! Which file is at work, told on standard error where that is a terminal.
use std::io::IsTerminal;
use ticklab_check::Source;

/// A line that stands while a file is searched. It is cleared before what the file comes to is told.
#[derive(Drop)]
pub struct AtWork<'a> {
    rt: &'a HostRuntime,
    is_told: bool,
}

impl<'a> AtWork<'a> {
    /// Tells that this file is at work.
    pub fn new(rt: &'a HostRuntime, source: &Source) -> AtWork<'a> {
        let is_told = rt.stderr().is_terminal();
        if is_told {
            let name = source.name.as_str();
            // A line of progress that can't be written is no fault of the search.
            let _written = eprint!(rt; "\rticklab: {name} is searched");
        }
        AtWork { rt, is_told }
    }

    /// Clears the line.
    pub fn clear(self) {
        if self.is_told {
            let _written = eprint!(self.rt; "\r\x1b[K");
        }
    }
}
