ghost use Rattle.std.specs.Prelude.{◌≡◌, ◌-◌, ◌<◌, ◌≤◌, ◌∷◌, ℕ, true, length, count_by, All};
ghost use Rattle.label_core.specs.Labels.{IsLabel, AreAlike, HasGreatest, CanChoose, dominates, greatest, choice, next};
ghost use Rattle.label_core.specs.prover.Numbers.{is_within};

use crate::digits::{Label, next_digit};
use crate::table::COUNTS;

/// The label that one of `n` processes takes next, beside the labels of others: at most n - 1 of
/// them, each of n - 1 digits, and one of them greatest where there are any. It dominates each of
/// them.
pub fn next_label(n: u8, others: &[Label]) -> Label
    requires at_least_one { 1 ≤ n }
    requires at_most_six { n ≤ 6 }
    requires can { CanChoose n others.now }
    ensures choice { result ≡ next n others.now }
    ensures dominates { All (λ other. dominates result other ≡ true) others.now }
    ensures label { IsLabel (n - 1) result }
{
    match greatest(others) {
        Some(top) => choice(&top, others),
        None => Label::zeros(n - 1),
    }
}

// The label that dominates or equals each of them: no label that comes later dominates it.
fn greatest(labels: &[Label]) -> Option<Label>
    requires alike { AreAlike labels.now }
    requires top { 0 < length labels.now → HasGreatest labels.now }
    ensures { result ≡ greatest labels.now }
{
    let first = labels.first()?;
    let mut top = *first;
    for label in labels {
        if label.dominates(&top) {
            top = *label;
        }
    }
    Some(top)
}

// The digits of the greatest label, as long as few enough of the labels share them. The labels that
// begin with some digits have the numbers of one stretch, from those digits and zeros on.
fn choice(top: &Label, labels: &[Label]) -> Label
    requires { AreAlike (top.now ∷ labels.now) }
    ensures { result ≡ choice top.now labels.now }
{
    let len = top.len();
    let mut before = 0;
    for at in 0..len {
        let digit = top.digit(at);
        let weight = COUNTS[len - (at + 1)];
        let first = before + digit * weight;
        if count_within(first, weight, labels) > len - (at + 1) {
            return Label::numbered(len as u8, before + next_digit(digit) * weight);
        }
        before = first;
    }
    *top
}

// How many of the labels have one of the `count` numbers from `first` on.
fn count_within(first: u8, count: u8, labels: &[Label]) -> usize
    ensures count { result ≡ count_by (is_within first count) labels.now }
    ensures most { result ≤ length labels.now }
{
    let mut within = 0;
    for label in labels {
        within += usize::from(label.number().wrapping_sub(first) < count);
    }
    within
}
