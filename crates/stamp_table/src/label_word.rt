// The label word: a load, an exchange, and a clear.
ghost use Rattle.std.specs.Prelude.{◌≡◌, ◌<◌, length};
ghost use Rattle.word_core.specs.Stamps.{stamped, cleared};
ghost use Rattle.word_core.specs.Packed.{AreLabels, word};
ghost use Rattle.word_core.specs.declared.history.SharedAct.TheVariants.{Load, Clear};
ghost use Rattle.stamp_table.specs.Passes.{Holds, by, Appends, memory_seen};
ghost use Rattle.stamp_table.specs.Ordered.{AreInOrder};
ghost use Rattle.stamp_table.specs.Swapped.{swap_act, swap_leaves, LostToOthers};
ghost use Rattle.stamp_table.specs.Cleared.{Clears};

use crate::pass::Pass;
use crate::steps::{exchanged, loaded, masked};
use crate::table::StampTable;
use std::marker::Brand;
use word_core::{LabelWord, clear_mask};

/// What an exchange answers.
#[derive(Clone, Copy, PartialEq, Eq, Debug)]
pub enum Swap {
    /// The word was the old one, and is now the new one.
    Won,
    /// The word was this one, not the old one, and stays.
    Lost(LabelWord),
}

impl StampTable {
    /// The label word as it is. It is a step of process `p`.
    #[inline(always)]
    pub fn load(&self, pass: &mut Pass, p: u8) -> LabelWord
        requires here { pass.old.table ≡ self.now }
        requires held { Holds pass.old.held p }
        ensures step { Appends pass.old (by p (Load (word result))) pass.new }
        ensures labels { result ≡ (memory_seen pass.new).labels }
        ensures ordered { AreInOrder self.now.n result }
        ensures range { p < length result }
    {
        let found = loaded::<Brand>(&self.table.shared, &mut pass.seat, p);
        LabelWord::from_bits(self.n, found)
    }

    /// Puts the new word in the place of the old one, if that is the word; then it is a stamp of
    /// process `p`, whatever came between. Else nothing changes. It is a step of `p` either way.
    #[inline(always)]
    pub fn exchange(&self, pass: &mut Pass, p: u8, old: LabelWord, new: LabelWord) -> Swap
        requires here { pass.old.table ≡ self.now }
        requires held { Holds pass.old.held p }
        requires ordered { AreInOrder self.now.n old }
        requires stamped { new ≡ stamped p old }
        ensures step { Appends pass.old (by p (swap_act old new result)) pass.new }
        ensures labels { swap_leaves new result ≡ (memory_seen pass.new).labels }
        ensures lost { LostToOthers self.now.n old result }
    {
        let n = old.n();
        let old = old.bits();
        let found = exchanged::<Brand>(&self.table.shared, &mut pass.seat, p, old, new.bits());
        if found == old {
            Swap::Won
        } else {
            Swap::Lost(LabelWord::from_bits(n, found))
        }
    }

    /// Gives up the label of process `p`, also where it has none, and tells the word after it. It
    /// never fails, whatever came between. It is a step of `p`.
    #[inline(always)]
    pub fn clear(&self, pass: &mut Pass, p: u8) -> LabelWord
        requires here { pass.old.table ≡ self.now }
        requires held { Holds pass.old.held p }
        ensures clears { Clears p pass.old result pass.new }
        ensures labels { result ≡ (memory_seen pass.new).labels }
        ensures ordered { AreInOrder self.now.n result }
        ensures range { p < length result }
    {
        let found = self.take_out(pass, p);
        found.cleared(p)
    }

    // Takes the label of process `p` out of the word, and gives the word found.
    #[inline(always)]
    fn take_out(&self, pass: &mut Pass, p: u8) -> LabelWord
        requires here { pass.old.table ≡ self.now }
        requires held { Holds pass.old.held p }
        ensures step { Appends pass.old (by p (Clear (word result))) pass.new }
        ensures found { AreLabels self.now.n result }
        ensures left { cleared p result ≡ (memory_seen pass.new).labels }
        ensures ordered { AreInOrder self.now.n (cleared p result) }
        ensures range { p < length result }
    {
        let found = masked::<Brand>(&self.table.shared, &mut pass.seat, p, clear_mask(p));
        LabelWord::from_bits(self.n, found)
    }
}
