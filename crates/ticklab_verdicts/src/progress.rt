ghost use Rattle.std.specs.Prelude.{Bool};

use searches_explore::Watch;

/// Who is told which search is under way, and how far it is.
pub trait Progress: Watch {
    // What it is for it to be told that a search begins, of what is told before and after.
    ghost begins: { Self → Bool → Self → Type 0 };

    /// A search through all schedules begins, by merged steps or by single ones.
    fn begin(&mut self, is_merged: bool)
        ensures { Self.begins self.old is_merged self.new };

    // What it is for it to be told that a fault is found, of what is told before and after.
    ghost finds: { Self → Bool → Self → Type 0 };

    /// The search has found a fault: a line breaks, or else a process traps. A shorter schedule is looked for next.
    fn found(&mut self, is_break: bool)
        ensures { Self.finds self.old is_break self.new };

    /// The search is over, and the answer comes next.
    fn end(&self);
}
