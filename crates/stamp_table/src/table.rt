// A table: how it is made, and how its passes are split and meet.
ghost use Rattle.std.specs.Prelude.{◌≡◌, ◌↔◌, ◌≤◌, ℕ, true, false, IfOk, slice_set};
ghost use Rattle.stamp_table.specs.Passes.{Holds, none_held, together, whole, part, Meets};
ghost use Rattle.word_core.specs.History.{IsLegal};

use crate::fault::OpenFault;
use crate::pass::Pass;
use crate::rule::{Glue, Layout, OneHistory, View};
use crate::steps::{cut, looked};
use atomic_table::Table;
use std::alloc::Global;
use std::marker::{Brand, Model};
use word_core::LabelWord;

/// A label word and rows of registers, for one to six processes. Threads share it by reference.
#[derive(Drop)]
pub struct StampTable {
    pub(crate) table: Table<u8, View, Layout, OneHistory, Global>,
    pub(crate) n: u8,
    pub(crate) rows: u8,
}

impl Model for StampTable {
    ghost use Rattle.std.specs.Prelude.{◌≡◌, ◌+◌, ◌*◌, ◌<◌, ◌≤◌};
    ghost use Rattle.stamp_table.specs.Passes.{TableView};

    ghost Value = { TableView };

    ghost view = { λ t. record { id = t.table.shared.table_id; n = t.n; rows = t.rows } };

    ghost invariant = { λ t. (t.n ≡ t.table.shared.key.n) × (t.rows ≡ t.table.shared.key.rows) × (t.table.shared.table_id.words ≡ 1 + t.rows * t.n) × (t.table.shared.table_id.slots ≡ 0) × (1 ≤ t.n) × (t.n ≤ 6) × (t.rows ≤ 8) };
}

/// A table of `n` processes with this many rows of registers, each of which has a register for each
/// process. Nobody has stamped, each register is 0, and the pass holds all processes.
pub fn open(alloc: Global, n: u8, rows: u8) -> Result<(StampTable, Pass), OpenFault>
    requires at_least_one { 1 ≤ n }
    requires at_most_six { n ≤ 6 }
    requires at_most_eight { rows ≤ 8 }
    ensures layout { IfOk result (λ made. (made.0.n ≡ n) × (made.0.rows ≡ rows)) }
    ensures pass { IfOk result (λ made. made.1 ≡ whole made.0) }
{
    let mut words = [0; 49];
    words[0] = LabelWord::start(n).bits();
    let count = 1 + rows as usize * n as usize;
    let (table, seat) = Table::of_words(alloc, &words[..count], &Layout { n, rows })?;
    let held = [n > 0, n > 1, n > 2, n > 3, n > 4, n > 5];
    let pass = Pass {
        seat,
        held,
        n,
        rows,
    };
    Ok((StampTable { table, n, rows }, pass))
}

impl StampTable {
    /// The pass without process `p`, and one that holds `p` alone. Both have seen what the pass had.
    pub fn split(&self, pass: Pass, p: u8) -> (Pass, Pass)
        requires here { pass.table ≡ self.now }
        requires held { Holds pass.held p }
        ensures rest { result.0 ≡ part pass (slice_set pass.held p false) }
        ensures one { result.1 ≡ part pass (slice_set none_held p true) }
    {
        let Pass {
            mut seat,
            mut held,
            n,
            rows,
        } = pass;
        let other = cut::<Brand>(&self.table.shared, &mut seat, p);
        held[p as usize] = false;
        let mut alone = [false; 6];
        alone[p as usize] = true;
        let rest = Pass {
            seat,
            held,
            n,
            rows,
        };
        let one = Pass {
            seat: other,
            held: alone,
            n,
            rows,
        };
        (rest, one)
    }

    // The pass as it is. What it has seen is a legal history.
    pub(crate) fn looked_at(&self, pass: Pass) -> Pass
        requires here { pass.table ≡ self.now }
        ensures table { result.table ≡ self.now }
        ensures held { (p : ℕ) → Holds result.held p ↔ Holds pass.held p }
        ensures seen { result.seen ≡ pass.seen }
        ensures legal { IsLegal self.now.n self.now.rows result.seen }
    {
        let Pass {
            mut seat,
            held,
            n,
            rows,
        } = pass;
        looked::<Brand>(&self.table.shared, &mut seat);
        Pass {
            seat,
            held: either_held(&held, &[false; 6]),
            n,
            rows,
        }
    }

    /// A pass that holds what both hold, and has seen what either had.
    pub fn meet(&self, first: Pass, second: Pass) -> Pass
        requires first_here { first.table ≡ self.now }
        requires second_here { second.table ≡ self.now }
        ensures { Meets first second result }
    {
        let Pass {
            mut seat,
            held,
            n,
            rows,
        } = first;
        let Pass {
            seat: other,
            held: others,
            n: _,
            rows: _,
        } = second;
        self.table.shared.join_seat::<Glue>(&mut seat, other);
        looked::<Brand>(&self.table.shared, &mut seat);
        Pass {
            seat,
            held: either_held(&held, &others),
            n,
            rows,
        }
    }
}

// The processes that one of the two has.
fn either_held(held: &[bool; 6], others: &[bool; 6]) -> [bool; 6]
    ensures { result ≡ together held.now others.now }
{
    [
        held[0] | others[0],
        held[1] | others[1],
        held[2] | others[2],
        held[3] | others[3],
        held[4] | others[4],
        held[5] | others[5],
    ]
}
