ghost use Rattle.std.specs.Prelude.{◌↔◌, ◌<◌, IsTrue};
ghost use Rattle.stamp_table.specs.Passes.{Holds};

use crate::rule::View;
use atomic_table::Seat;
use std::marker::Model;

/// Some of the processes of a table, and the steps that they have seen. It can go to another thread.
/// The processes of a pass that is dropped take no further step.
#[derive(Drop)]
pub struct Pass {
    pub(crate) seat: Seat<u8, View>,
    pub(crate) held: [bool; 6],
    pub(crate) n: u8,
    pub(crate) rows: u8,
}

impl Model for Pass {
    ghost use Rattle.std.specs.Prelude.{◌≡◌, ◌<◌, ℕ, []};
    ghost use Rattle.stamp_table.specs.Passes.{PassView, Holds};
    ghost use Rattle.stamp_table.specs.Rule.{plain};

    ghost Value = { PassView };

    ghost view = { λ pass. record { table = record { id = pass.seat.table_id; n = pass.n; rows = pass.rows }; held = pass.held; seen = pass.seat.me.0.seen } };

    ghost invariant = { λ pass. (pass.seat.me ≡ (plain pass.held pass.seat.me.0.seen, [])) × ((p : ℕ) → Holds pass.held p → p < pass.n) };
}

impl Pass {
    /// Whether the pass holds process `p`, which then is one of its table's.
    pub fn holds(&self, p: u8) -> bool
        ensures held { IsTrue result ↔ Holds self.now.held p }
        ensures range { Holds self.now.held p → p < self.now.table.n }
    {
        match self.held.get(p as usize) {
            Some(&held) => held,
            None => false,
        }
    }
}
