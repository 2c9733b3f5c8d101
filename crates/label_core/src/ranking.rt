ghost use Rattle.std.specs.Prelude.{◌≡◌, ◌-◌, ◌≤◌, ◌∷◌, ◌++◌, length, map, drop, replicate};
ghost use Rattle.label_core.specs.Labels.{AreAlike, dominated, label_ranks};

use crate::digits::Label;

/// The most labels that are ranked together: one for each process.
pub const MOST_LABELS: usize = 6;

/// For each of up to six labels of one length, how many of them it dominates; the entries past the
/// last label are 0.
pub fn ranks(labels: &[Label]) -> [u8; MOST_LABELS]
    requires few { length labels.now ≤ 6 }
    requires alike { AreAlike labels.now }
    ensures { result ≡ label_ranks labels.now ++ replicate (6 - length labels.now) 0 }
{
    let mut ranks = [0; MOST_LABELS];
    write_ranks(labels, &mut ranks);
    ranks
}

/// Writes the ranks of up to six labels of one length into a row, from its first entry on. The entries
/// past the last label stay as they are.
pub fn write_ranks(labels: &[Label], ranks: &mut [u8; MOST_LABELS])
    requires few { length labels.now ≤ 6 }
    requires alike { AreAlike labels.now }
    ensures { ranks.new ≡ label_ranks labels.now ++ drop (length labels.now) ranks.old }
{
    for (process, label) in labels.iter().enumerate() {
        let rank = rank_beside(label, &labels[..process], &mut ranks[..process]);
        ranks[process] = rank;
    }
}

// Ranks a label beside others whose ranks these are, and counts it in theirs. Each pair is compared
// once: of two labels that differ just one dominates the other. No branch hangs on which, since
// a processor could not foresee it.
fn rank_beside(label: &Label, others: &[Label], ranks: &mut [u8]) -> u8
    requires few { length others.now ≤ 5 }
    requires alike { AreAlike (label.now ∷ others.now) }
    requires ranks { ranks.old ≡ label_ranks others.now }
    ensures ranks { ranks.new ≡ map (dominated (label.now ∷ others.now)) others.now }
    ensures rank { result ≡ dominated others.now label.now }
{
    let mut rank = 0;
    for (place, other) in others.iter().enumerate() {
        let over = label.dominates(other);
        let under = !over & (label.number() != other.number());
        rank += u8::from(over);
        ranks[place] += u8::from(under);
    }
    rank
}
