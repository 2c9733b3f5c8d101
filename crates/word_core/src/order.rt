ghost use Rattle.std.specs.Prelude.{◌≡◌, ◌↔◌, ◌<◌, ◌≤◌, ℕ, Option, length, map, All, IfSome, IsTrue};
ghost use Rattle.label_core.specs.Labels.{IsLabel, AreAlike, dominated};
ghost use Rattle.word_core.specs.Order.{above};
ghost use Rattle.word_core.specs.prover.Numbers.{AreApart};

use label_core::{Label, ranks};

/// Whether the first process is above the second: an absent one is below each that is present, and of
/// two that are present labels tell.
pub fn above(label: &Option<Label>, other: &Option<Label>) -> bool
    requires { (digits : ℕ) × IfSome label.now (IsLabel digits) × IfSome other.now (IsLabel digits) }
    ensures { result ≡ above label.now other.now }
{
    match (label, other) {
        (Some(label), Some(other)) => label.dominates(other),
        (Some(_), None) => true,
        (None, _) => false,
    }
}

/// Whether no two of the labels dominate equally many of them.
#[inline(always)]
pub fn differ_in_rank(labels: &[Label]) -> bool
    requires few { length labels.now ≤ 6 }
    requires alike { AreAlike labels.now }
    ensures { IsTrue result ↔ AreApart (map (dominated labels.now) labels.now) }
{
    are_apart(&ranks(labels)[..labels.len()])
}

/// Whether no two of the numbers are equal.
pub fn are_apart(numbers: &[u8]) -> bool
    requires { All (λ number. number < 8) numbers.now }
    ensures { IsTrue result ↔ AreApart numbers.now }
{
    let mut taken = [false; 8];
    for &number in numbers {
        if taken[number as usize] {
            return false;
        }
        taken[number as usize] = true;
    }
    true
}
