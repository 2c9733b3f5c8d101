// The atomic steps on the words of a table, each with what it has to satisfy by the rule, and what it tells.
// The caller's proof says which step of the history it is (`Doing`).
ghost use Rattle.std.specs.Prelude.{◌≡◌, ◌+◌, ◌^◌, ◌<◌, ◌==◌, [], bit_and};
ghost use prog.Atomic.{either};
ghost use Rattle.stamp_table.specs.Rule.{plain};
ghost use Rattle.stamp_table.specs.Passes.{Holds};
ghost use Rattle.stamp_table.specs.prover.Steps.{Does, Goes, Settles, without, alone};

use crate::rule::{Cut, Doing, Layout, Look, OfProcess, OneHistory, OneStep, View};
use atomic_table::{Seat, Shared};

pub type TableWords = Shared<u8, View, Layout, OneHistory>;

pub type TableSeat = Seat<u8, View>;

/// Loads the label word.
#[inline(always)]
pub fn loaded<J: Doing>(words: &TableWords, seat: &mut TableSeat, _process: u8) -> u64
    requires fits { (seat.old.table_id ≡ words.now.table_id) × (0 < words.now.table_id.words) }
    requires plain { seat.old.me ≡ (plain seat.old.me.0.held seat.old.me.0.seen, []) }
    requires layout { (J.n ≡ words.now.key.n) × (J.rows ≡ words.now.key.rows) }
    requires goes { Goes J.n J.rows seat.old.me.0.held 0 (λ found. found) J.makes }
    ensures same { seat.new.table_id ≡ seat.old.table_id }
    ensures did { Does J.n J.rows (J.makes result) seat.old.me seat.new.me }
{
    words.load::<OneStep<J>>(seat, 0)
}

/// Exchanges the label word where it is `old`, and gives the word found.
#[inline(always)]
pub fn exchanged<J: Doing>(
    words: &TableWords,
    seat: &mut TableSeat,
    _process: u8,
    old: u64,
    new: u64,
) -> u64
    requires fits { (seat.old.table_id ≡ words.now.table_id) × (0 < words.now.table_id.words) }
    requires plain { seat.old.me ≡ (plain seat.old.me.0.held seat.old.me.0.seen, []) }
    requires layout { (J.n ≡ words.now.key.n) × (J.rows ≡ words.now.key.rows) }
    requires goes { Goes J.n J.rows seat.old.me.0.held 0 (λ found. either (found == old) new found) J.makes }
    ensures same { seat.new.table_id ≡ seat.old.table_id }
    ensures did { Does J.n J.rows (J.makes result) seat.old.me seat.new.me }
{
    words.compare_exchange::<OneStep<J>>(seat, 0, old, new)
}

/// Leaves of the label word what the mask has, and gives the word found.
#[inline(always)]
pub fn masked<J: Doing>(words: &TableWords, seat: &mut TableSeat, _process: u8, mask: u64) -> u64
    requires fits { (seat.old.table_id ≡ words.now.table_id) × (0 < words.now.table_id.words) }
    requires plain { seat.old.me ≡ (plain seat.old.me.0.held seat.old.me.0.seen, []) }
    requires layout { (J.n ≡ words.now.key.n) × (J.rows ≡ words.now.key.rows) }
    requires goes { Goes J.n J.rows seat.old.me.0.held 0 (λ found. bit_and found mask) J.makes }
    ensures same { seat.new.table_id ≡ seat.old.table_id }
    ensures did { Does J.n J.rows (J.makes result) seat.old.me seat.new.me }
{
    words.fetch_and::<OneStep<J>>(seat, 0, mask)
}

/// Loads the register at this place.
#[inline(always)]
pub fn fetched<J: Doing>(
    words: &TableWords,
    seat: &mut TableSeat,
    _process: u8,
    _row: u8,
    _index: u8,
    place: usize,
) -> u64
    requires fits { (seat.old.table_id ≡ words.now.table_id) × (1 + place < words.now.table_id.words) }
    requires plain { seat.old.me ≡ (plain seat.old.me.0.held seat.old.me.0.seen, []) }
    requires layout { (J.n ≡ words.now.key.n) × (J.rows ≡ words.now.key.rows) }
    requires room { 1 + place < 2 ^ 64 }
    requires goes { Goes J.n J.rows seat.old.me.0.held (1 + place) (λ found. found) J.makes }
    ensures same { seat.new.table_id ≡ seat.old.table_id }
    ensures did { Does J.n J.rows (J.makes result) seat.old.me seat.new.me }
{
    words.load::<OneStep<J>>(seat, 1 + place)
}

/// Stores a value in the register at this place.
#[inline(always)]
pub fn stored<J: Doing>(
    words: &TableWords,
    seat: &mut TableSeat,
    _process: u8,
    _row: u8,
    place: usize,
    value: u32,
)
    requires fits { (seat.old.table_id ≡ words.now.table_id) × (1 + place < words.now.table_id.words) }
    requires plain { seat.old.me ≡ (plain seat.old.me.0.held seat.old.me.0.seen, []) }
    requires layout { (J.n ≡ words.now.key.n) × (J.rows ≡ words.now.key.rows) }
    requires room { 1 + place < 2 ^ 64 }
    requires goes { Goes J.n J.rows seat.old.me.0.held (1 + place) (λ found. value) (λ found. J.makes value) }
    ensures same { seat.new.table_id ≡ seat.old.table_id }
    ensures did { Does J.n J.rows (J.makes value) seat.old.me seat.new.me }
{
    words.store::<OneStep<J>>(seat, 1 + place, u64::from(value))
}

/// A seat for process `p` alone, which leaves this one.
pub fn cut<J: OfProcess>(words: &TableWords, seat: &mut TableSeat, _p: u8) -> TableSeat
    requires fits { (seat.old.table_id ≡ words.now.table_id) × (0 < words.now.table_id.words) }
    requires plain { seat.old.me ≡ (plain seat.old.me.0.held seat.old.me.0.seen, []) }
    requires held { Holds seat.old.me.0.held J.who }
    ensures same { (seat.new.table_id ≡ seat.old.table_id) × (result.table_id ≡ seat.old.table_id) }
    ensures left { seat.new.me ≡ (without J.who seat.old.me.0, []) }
    ensures right { result.me ≡ (alone J.who seat.old.me.0, []) }
{
    words.split_seat::<Cut<J>>(seat)
}

/// Looks at the table with a seat that has taken in another, to find which of the two saw more. It is
/// no step of the history.
pub fn looked<J: Doing>(words: &TableWords, seat: &mut TableSeat)
    requires fits { (seat.old.table_id ≡ words.now.table_id) × (0 < words.now.table_id.words) }
    requires layout { (J.n ≡ words.now.key.n) × (J.rows ≡ words.now.key.rows) }
    ensures same { seat.new.table_id ≡ seat.old.table_id }
    ensures did { Settles J.n J.rows seat.old.me seat.new.me }
{
    words.load::<Look<J>>(seat, 0);
}
