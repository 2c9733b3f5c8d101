// The rule of a table, what each kind of step tells its caller, and how views are cut and joined. All of it
// is for proofs: no `View` exists when the program runs.

use atomic_table::{Join, Play, Split, TableRule};
use std::collections::LinkedList;
use std::marker::{Brand, PhantomData};
use word_core::Shared;

/// Which processes a pass holds, and the steps that it has seen; and the same of a pass that it has
/// taken in, until it finds which of the two saw more.
pub struct View {
    pub held: [bool; 6],
    pub seen: LinkedList<Shared>,
    pub more: [bool; 6],
    pub told: LinkedList<Shared>,
}

/// The number of processes and of register rows.
#[derive(Drop)]
pub struct Layout {
    pub n: u8,
    pub rows: u8,
}

/// The passes of a table share one growing history.
pub struct OneHistory;

impl TableRule<u8, View, Layout> for OneHistory {
    ghost use Rattle.stamp_table.specs.Rule.{IsKept, first_view};

    ghost holds = { λ layout. IsKept layout.n layout.rows };

    ghost first = { λ layout. first_view layout.n };
}

/// Which step is made of the word that is found, on a table of `n` processes and `rows` register rows.
pub trait Doing {
    ghost use Rattle.std.specs.Prelude.{ℕ};
    ghost use Rattle.word_core.specs.declared.history.Shared.{Shared};

    ghost n: { ℕ };

    ghost rows: { ℕ };

    ghost makes: { ℕ → Shared };
}

impl Doing for Brand {
    ghost use Rattle.stamp_table.specs.prover.Steps.{no_step};

    ghost n = { 0 };

    ghost rows = { 0 };

    ghost makes = { no_step };
}

/// A step of the history.
pub struct OneStep<J> {
    of: PhantomData<J>,
}

impl<J: Doing> Play<u8, View> for OneStep<J> {
    ghost use Rattle.stamp_table.specs.prover.Steps.{Does};

    ghost then = { λ _ v found w. Does J.n J.rows (J.makes found) v w };
}

/// A look at the table that is no step of the history: it finds which of two views saw more.
pub struct Look<J> {
    of: PhantomData<J>,
}

impl<J: Doing> Play<u8, View> for Look<J> {
    ghost use Rattle.stamp_table.specs.prover.Steps.{Settles};

    ghost then = { λ _ v found w. Settles J.n J.rows v w };
}

/// Which process is cut off.
pub trait OfProcess {
    ghost use Rattle.std.specs.Prelude.{ℕ};

    ghost who: { ℕ };
}

impl OfProcess for Brand {
    ghost who = { 0 };
}

/// One process leaves with all that was seen.
pub struct Cut<J> {
    of: PhantomData<J>,
}

impl<J: OfProcess> Split<View> for Cut<J> {
    ghost use Rattle.stamp_table.specs.prover.Steps.{without, alone};

    ghost left = { without J.who };

    ghost right = { alone J.who };
}

/// One view takes in another, of which nothing is left.
pub struct Glue;

impl Join<View> for Glue {
    ghost use Rattle.stamp_table.specs.prover.Steps.{joined, nobody};

    ghost both = { joined };

    ghost spent = { nobody };
}
