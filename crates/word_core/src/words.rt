//! `LabelWord`: the labels of all processes in one word. It is read, asked, and changed by stamps and clears.
ghost use Rattle.std.specs.Prelude.{◌≡◌, ◌↔◌, ◌+◌, ◌-◌, ◌<◌, ◌≤◌, ℕ, Option, None, Some, List, [], ◌++◌, length, take, replicate, slice_index, slice_set, All, IfSome, MatchOption, IsTrue};
ghost use Rattle.label_core.specs.Labels.{IsLabel, next};
ghost use Rattle.ticket_core.specs.Tickets.{start_tickets, stamp_ticket, clear_ticket};
ghost use Rattle.word_core.specs.Stamps.{Labels, start_labels, label_at, is_present, present, stamped, cleared};
ghost use Rattle.word_core.specs.Packed.{AreLabels, IsWordOf, word};
ghost use Rattle.word_core.specs.Order.{IsOrdered, older_label, label_ranks};
ghost use Rattle.word_core.specs.Agreement.{Agrees};
ghost use Rattle.word_core.specs.prover.Numbers.{AreRanks};

use crate::order::{above, are_apart, differ_in_rank};
use crate::packing::{all_count, clear_mask, fits, gather_in, is_present, label_in, with_label};
use label_core::{Label, MOST_LABELS, next_label, ranks, write_ranks};
use std::marker::Model;

/// What is written for a label of no digits, that of a single process that is present.
pub const EMPTY_LABEL: &str = "-";

/// What is written for the label of a process that is absent.
pub const ABSENT_LABEL: &str = ".";

/// A label or none for each of one to six processes, packed into 64 bits.
#[derive(Clone, Copy, PartialEq, Eq, Debug)]
pub struct LabelWord {
    count: u8,
    bits: u64,
}

impl Model for LabelWord {
    ghost use Rattle.std.specs.Prelude.{◌≡◌, ◌≤◌, ℕ, length};
    ghost use Rattle.word_core.specs.Stamps.{Labels};
    ghost use Rattle.word_core.specs.Packed.{IsWordOf, word};
    ghost use Rattle.word_core.specs.prover.Packing.{labels_in, length-labels_in};

    ghost Value = { Labels };

    ghost view = { λ fields. labels_in fields.count fields.bits };

    ghost invariant = { λ fields. (1 ≤ fields.count) × (fields.count ≤ 6) × IsWordOf fields.count fields.bits (labels_in fields.count fields.bits) };

    ghost inverse = { λ labels. record { count = length labels; bits = word labels } };

    ghost inverse_ok = { λ fields kept i. record {
      count = length-labels_in fields.count fields.bits i;
      bits = kept.2.packs i;
    } };
}

impl LabelWord {
    /// The word of `n` processes of which none is present, as before all stamps.
    pub fn start(n: u8) -> LabelWord
        requires at_least_one { 1 ≤ n }
        requires at_most_six { n ≤ 6 }
        ensures start { result ≡ start_labels n }
        ensures agrees { Agrees n (start_tickets n) result }
    {
        LabelWord { count: n, bits: 0 }
    }

    /// The word of `n` processes with these bits; `None` where they are no word: where a byte is no
    /// number of a label, that of an absent process is not 0, or a bit is set past those of the last.
    pub fn read(n: u8, bits: u64) -> Option<LabelWord>
        requires at_least_one { 1 ≤ n }
        requires at_most_six { n ≤ 6 }
        ensures { MatchOption result ((labels : Labels) → ¬ IsWordOf n bits labels) (IsWordOf n bits) }
    {
        if !fits(n, bits) {
            return None;
        }
        if !all_count(n, bits) {
            return None;
        }
        Some(LabelWord { count: n, bits })
    }

    /// The word of `n` processes with these bits, where it is one of ordered labels; `None` where it is not.
    /// It answers what `read` and then `is_ordered` tell, and goes over the processes once.
    #[inline(always)]
    pub fn read_ordered(n: u8, bits: u64) -> Option<LabelWord>
        requires at_least_one { 1 ≤ n }
        requires at_most_six { n ≤ 6 }
        ensures { MatchOption result ((labels : Labels) → IsWordOf n bits labels → ¬ IsOrdered labels) (λ labels. IsWordOf n bits labels × IsOrdered labels) }
    {
        if !fits(n, bits) {
            return None;
        }
        let mut row = [Label::zeros(0); MOST_LABELS];
        let count = gather_in(n, bits, &mut row)?;
        if !differ_in_rank(&row[..count as usize]) {
            return None;
        }
        Some(LabelWord { count: n, bits })
    }

    /// The ranks, as `ranks` tells them, of the labels of the word of `n` processes with these bits, where they
    /// are ordered; `None` where the bits are no such word. It goes over the processes once, as `read_ordered`.
    #[inline(always)]
    pub fn read_ranks(n: u8, bits: u64) -> Option<[u8; MOST_LABELS]>
        requires at_least_one { 1 ≤ n }
        requires at_most_six { n ≤ 6 }
        ensures { MatchOption result ((labels : Labels) → IsWordOf n bits labels → ¬ IsOrdered labels) (λ ranks. (labels : Labels) × IsWordOf n bits labels × IsOrdered labels × (ranks ≡ label_ranks labels ++ replicate (6 - length labels) 0)) }
    {
        if !fits(n, bits) {
            return None;
        }
        let mut row = [Label::zeros(0); MOST_LABELS];
        let count = gather_in(n, bits, &mut row)?;
        let among = ranks(&row[..count as usize]);
        if !are_apart(&among[..count as usize]) {
            return None;
        }
        let word = LabelWord { count: n, bits };
        Some(word.ranks_from(&among, count))
    }

    /// The word of `n` processes with these bits, which the caller knows to be a word: nothing is
    /// tested. `read` is for bits of which nothing is known.
    pub fn from_bits(n: u8, bits: u64) -> LabelWord
        requires at_least_one { 1 ≤ n }
        requires at_most_six { n ≤ 6 }
        requires word { (labels : Labels) × IsWordOf n bits labels }
        ensures { IsWordOf n bits result }
    {
        LabelWord { count: n, bits }
    }

    /// The number of processes, 1 to 6.
    pub fn n(&self) -> u8
        ensures count { result ≡ length self.now }
        ensures at_least_one { 1 ≤ result }
        ensures at_most_six { result ≤ 6 }
        ensures labels { AreLabels result self.now }
    {
        self.count
    }

    /// The packed labels.
    pub fn bits(&self) -> u64
        ensures { result ≡ word self.now }
    {
        self.bits
    }

    /// The label of process `i`; `None` where it is absent.
    pub fn label(&self, i: u8) -> Option<Label>
        requires { i < length self.now }
        ensures { result ≡ label_at self.now i }
    {
        let n = self.n();
        label_in(self.bits, i, n - 1)
    }

    /// Whether process `i` is present: whether it holds a ticket.
    pub fn held(&self, i: u8) -> bool
        requires { i < length self.now }
        ensures { result ≡ is_present (label_at self.now i) }
    {
        let _n = self.n();
        is_present(self.bits, i)
    }

    /// Whether whole numbers can be given to the processes, 0 exactly to the absent and no other
    /// twice, so that of two that are present one's label dominates the other's exactly where its
    /// number is above.
    pub fn is_ordered(&self) -> bool
        ensures { IsTrue result ↔ IsOrdered self.now }
    {
        let mut row = [0; MOST_LABELS];
        self.rank_among(&mut row).is_some()
    }

    /// The ranks, as `ranks` tells them, of labels that are ordered; `None` where they are not. It costs
    /// little more than the test alone.
    pub fn ordered_ranks(&self) -> Option<[u8; MOST_LABELS]>
        ensures { MatchOption result (¬ IsOrdered self.now) (λ ranks. IsOrdered self.now × (ranks ≡ label_ranks self.now ++ replicate (6 - length self.now) 0)) }
    {
        let mut row = [0; MOST_LABELS];
        let count = self.rank_among(&mut row)?;
        let ranks = self.ranks_from(&row, count);
        Some(ranks)
    }

    /// The word after process `p` has taken its next label beside those of the others that are
    /// present. Its own is given up first.
    pub fn stamped(&self, p: u8) -> LabelWord
        requires in_range { p < length self.now }
        requires ordered { IsOrdered self.now }
        ensures stamped { result ≡ stamped p self.now }
        ensures ordered { IsOrdered result }
        ensures agrees { (tickets : List ℕ) → Agrees (length self.now) tickets self.now → Agrees (length self.now) (stamp_ticket p tickets) result }
    {
        let _n = self.n();
        let next = self.next(p);
        self.cleared(p).with_label(p, &next)
    }

    /// The word after process `p` has given its label up.
    pub fn cleared(&self, p: u8) -> LabelWord
        requires { p < length self.now }
        ensures cleared { result ≡ cleared p self.now }
        ensures ordered { IsOrdered self.now → IsOrdered result }
        ensures agrees { (tickets : List ℕ) → Agrees (length self.now) tickets self.now → Agrees (length self.now) (clear_ticket p tickets) result }
    {
        let n = self.n();
        LabelWord {
            count: n,
            bits: self.bits & clear_mask(p),
        }
    }

    /// For each process how many it is above, and 0 past the last process: an absent one is below
    /// each that is present, and of those that are labels tell.
    pub fn ranks(&self) -> [u8; MOST_LABELS]
        ensures { result ≡ label_ranks self.now ++ replicate (6 - length self.now) 0 }
    {
        let _n = self.n();
        let mut labels = [Label::zeros(0); MOST_LABELS];
        let count = self.gather(&mut labels);
        self.ranks_from(&ranks(&labels[..count as usize]), count)
    }

    /// How many processes `i` is above.
    pub fn rank(&self, i: u8) -> u8
        requires { i < length self.now }
        ensures { result ≡ slice_index (label_ranks self.now) i }
    {
        let n = self.n();
        let label = self.label(i);
        let mut rank = 0;
        for other in 0..n {
            rank += u8::from(above(&label, &self.label(other)));
        }
        rank
    }

    /// Whether process `j` is above process `i`.
    #[inline(always)]
    pub fn older(&self, i: u8, j: u8) -> bool
        requires first_in_range { i < length self.now }
        requires second_in_range { j < length self.now }
        ensures { result ≡ older_label self.now i j }
    {
        let _n = self.n();
        above(&self.label(j), &self.label(i))
    }

    // The label that process `p` takes next.
    fn next(&self, p: u8) -> Label
        requires in_range { p < length self.now }
        requires ordered { IsOrdered self.now }
        ensures next { result ≡ next (length self.now) (present (cleared p self.now)) }
        ensures label { IsLabel (length self.now - 1) result }
    {
        let n = self.n();
        let mut labels = [Label::zeros(0); MOST_LABELS];
        let count = self.cleared(p).gather(&mut labels);
        next_label(n, &labels[..count as usize])
    }

    // The word in which process `p`, which was absent, has this label.
    fn with_label(&self, p: u8, label: &Label) -> LabelWord
        requires in_range { p < length self.now }
        requires absent { label_at self.now p ≡ None }
        requires label { IsLabel (length self.now - 1) label.now }
        ensures { result ≡ slice_set self.now p (Some label.now) }
    {
        let n = self.n();
        LabelWord {
            count: n,
            bits: with_label(self.bits, p, label),
        }
    }

    // Writes the labels of those that are present into a row of empty ones, and answers how many there are.
    fn gather(&self, row: &mut [Label; MOST_LABELS]) -> u8
        requires { row.old ≡ replicate 6 [] }
        ensures labels { row.new ≡ present self.now ++ replicate (6 - length (present self.now)) [] }
        ensures count { result ≡ length (present self.now) }
        ensures few { result ≤ length self.now }
    {
        let n = self.n();
        let mut count = 0;
        for i in 0..n {
            if let Some(label) = self.label(i) {
                row[count as usize] = label;
                count += 1;
            }
        }
        count
    }

    // Writes into a row of zeros how many labels each of those that are present dominates among them,
    // and answers how many there are; `None` where the labels are not ordered, since two of them dominate
    // equally many.
    #[inline(always)]
    fn rank_among(&self, row: &mut [u8; MOST_LABELS]) -> Option<u8>
        requires { row.old ≡ replicate 6 0 }
        ensures { MatchOption result (¬ IsOrdered self.now) (λ count. IsOrdered self.now × AreRanks self.now row.new count) }
    {
        let _n = self.n();
        let mut labels = [Label::zeros(0); MOST_LABELS];
        let count = self.gather(&mut labels);
        write_ranks(&labels[..count as usize], row);
        if are_apart(&row[..count as usize]) {
            Some(count)
        } else {
            None
        }
    }

    // The ranks of all processes, of those that are present from these ranks among themselves.
    fn ranks_from(&self, among: &[u8; MOST_LABELS], count: u8) -> [u8; MOST_LABELS]
        requires { AreRanks self.now among.now count }
        ensures { result ≡ label_ranks self.now ++ replicate (6 - length self.now) 0 }
    {
        let n = self.n();
        let absent = n - count;
        let mut ranks = [0; MOST_LABELS];
        let mut place = 0;
        for i in 0..n {
            if self.held(i) {
                ranks[i as usize] = absent + among[place];
                place += 1;
            }
        }
        ranks
    }
}
