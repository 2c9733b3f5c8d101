ghost use Rattle.std.specs.Prelude.{◌≡◌, ◌<◌, length, slice_index};
ghost use Rattle.word_core.specs.Stamps.{label_at, is_present};
ghost use Rattle.word_core.specs.Order.{IsOrdered, older_label, label_ranks};
ghost use Rattle.word_core.specs.Agreement.{StandsFor};
ghost use Rattle.stamp_table.specs.Passes.{memory_seen};
ghost use Rattle.stamp_calls.specs.Callers.{tickets_seen};

use stamp_table::Pass;
use std::marker::Model;
use word_core::LabelWord;

/// The order of the processes at one point of the history. A process is older than another where its
/// ticket is smaller: where it took it earlier, or holds none and the other does. Of those that hold
/// none, none is older than another.
#[derive(Clone, Copy, PartialEq, Eq, Debug)]
pub struct Order {
    pub(crate) word: LabelWord,
}

impl Model for Order {
    ghost use Rattle.word_core.specs.Stamps.{Labels};
    ghost use Rattle.word_core.specs.Order.{IsOrdered};

    ghost Value = { Labels };

    ghost view = { λ order. order.word };

    ghost invariant = { λ order. IsOrdered order.word };

    ghost inverse = { λ labels. record { word = labels } };
}

impl Order {
    /// Whether process `i` is older than process `j`.
    pub fn older(&self, i: u8, j: u8) -> bool
        requires first_in_range { i < length self.now }
        requires second_in_range { j < length self.now }
        ensures { result ≡ older_label self.now i j }
    {
        self.word.older(i, j)
    }

    /// How many processes are older than process `i`.
    pub fn rank(&self, i: u8) -> u8
        requires { i < length self.now }
        ensures { result ≡ slice_index (label_ranks self.now) i }
    {
        self.word.rank(i)
    }

    /// Whether process `i` holds a ticket: it has stamped, and has not cleared since.
    pub fn held(&self, i: u8) -> bool
        requires { i < length self.now }
        ensures { result ≡ is_present (label_at self.now i) }
    {
        self.word.held(i)
    }

    // The order after what a pass has seen, where the word is that of the labels there.
    pub(crate) fn after(pass: &Pass, word: LabelWord) -> Order
        requires { word ≡ (memory_seen pass.now).labels }
        ensures order { result ≡ word }
        ensures tickets { StandsFor pass.now.table.n (tickets_seen pass.now) result }
    {
        Order { word }
    }

    /// The labels that say it.
    pub fn word(&self) -> LabelWord
        ensures labels { result ≡ self.now }
        ensures ordered { IsOrdered result }
    {
        self.word
    }
}
