// The registers: a read, and a write.
ghost use Rattle.std.specs.Prelude.{◌≡◌, ◌+◌, ◌*◌, ◌<◌, ◌≤◌};
ghost use Rattle.word_core.specs.History.{register_at};
ghost use Rattle.word_core.specs.declared.history.SharedAct.TheVariants.{Read, Write};
ghost use Rattle.stamp_table.specs.Passes.{Holds, by, Appends, memory_seen};

use crate::pass::Pass;
use crate::steps::{fetched, stored};
use crate::table::StampTable;
use std::marker::Brand;

impl StampTable {
    /// The register of process `i` in row `r`. It is a step of process `p`.
    #[inline(always)]
    pub fn read(&self, pass: &mut Pass, p: u8, r: u8, i: u8) -> u32
        requires here { pass.old.table ≡ self.now }
        requires held { Holds pass.old.held p }
        requires row { r < self.now.rows }
        requires index { i < self.now.n }
        ensures step { Appends pass.old (by p (Read r i result)) pass.new }
        ensures value { result ≡ register_at (memory_seen pass.new).rows r i }
    {
        let place = register_place(self.n, r, i);
        fetched::<Brand>(&self.table.shared, &mut pass.seat, p, r, i, place) as u32
    }

    /// Writes the register of process `p` in row `r`. It is a step of `p`.
    #[inline(always)]
    pub fn write(&self, pass: &mut Pass, p: u8, r: u8, v: u32)
        requires here { pass.old.table ≡ self.now }
        requires held { Holds pass.old.held p }
        requires row { r < self.now.rows }
        ensures { Appends pass.old (by p (Write r v)) pass.new }
    {
        let seat = &mut pass.seat;
        let place = register_place(self.n, r, p);
        stored::<Brand>(&self.table.shared, seat, p, r, place, v);
    }
}

/// Where the register of process `i` in row `r` stands among all of `n` processes.
#[inline(always)]
pub fn register_place(n: u8, r: u8, i: u8) -> usize
    requires few { n ≤ 6 }
    requires row { r < 8 }
    requires index { i < n }
    ensures place { result ≡ r * n + i }
    ensures small { result < 48 }
{
    r as usize * n as usize + i as usize
}
