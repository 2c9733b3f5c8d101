//! `Label`: the digits of one label, kept as one number in base 3.
ghost use Rattle.std.specs.Prelude.{◌≡◌, ◌↔◌, ◌+◌, ◌-◌, ◌^◌, ◌<◌, ◌≤◌, ◌∷◌, ◌++◌, length, take, replicate, slice_index, All, IsSome, IfSome, MatchOption, ◌==◌, [], slice_index_or};
ghost use Rattle.label_core.specs.Labels.{AreDigits, IsNumbered, dominates, next_digit, zeros, label_number, digits_in};
ghost use Rattle.label_core.specs.declared.table.TheConstants.{DOMINATED};

use crate::table::{COUNTS, DIGITS, DOMINATED};
use std::marker::Model;

/// The most digits that a label has: those of six processes.
pub const MOST_DIGITS: usize = 5;

/// Up to five digits 0, 1, 2, the outermost cycle first. One of n processes has n - 1. They are kept
/// as the number that they are in base 3.
#[derive(Clone, Copy, PartialEq, Eq, Debug)]
pub struct Label {
    len: u8,
    number: u8,
}

impl Model for Label {
    ghost use Rattle.std.specs.Prelude.{◌^◌, ◌<◌, ◌≤◌, ℕ, List, length};
    ghost use Rattle.label_core.specs.Labels.{label_number, digits_in};
    ghost use Rattle.label_core.specs.prover.Numbers.{length-digits_in, number-digits_in};

    ghost Value = { List ℕ };

    ghost view = { λ fields. digits_in fields.len fields.number };

    ghost invariant = { λ fields. (fields.len ≤ 5) × (fields.number < 3 ^ fields.len) };

    ghost inverse = { λ label. record { len = length label; number = label_number label } };

    ghost inverse_ok = { λ fields kept i. record {
      len = length-digits_in fields.len fields.number i;
      number = number-digits_in fields.len fields.number kept.1 i;
    } };
}

impl Label {
    /// The label of these digits; `None` where there are more than five or one is above 2.
    pub fn new(digits: &[u8]) -> Option<Label>
        ensures some { IsSome result ↔ AreDigits digits.now }
        ensures label { IfSome result (λ label. label ≡ digits.now) }
    {
        if digits.len() > MOST_DIGITS {
            return None;
        }
        if !digits.iter().all(|&digit| digit < 3) {
            return None;
        }
        Some(Label {
            len: digits.len() as u8,
            number: number_of(digits),
        })
    }

    /// The label of `len` digits that is this number in base 3.
    #[tactic(auto, using(crate::proofs::Held::numbered))]
    pub fn numbered(len: u8, number: u8) -> Label
        requires few { len ≤ 5 }
        requires small { number < 3 ^ len }
        ensures digits { result ≡ digits_in len number }
        ensures numbered { IsNumbered len number result }
    {
        Label { len, number }
    }

    /// The label of one of `n` processes that is this number in base 3; `None` where the number needs
    /// more than n - 1 digits.
    pub fn of_number(n: u8, number: u8) -> Option<Label>
        requires at_least_one { 1 ≤ n }
        requires at_most_six { n ≤ 6 }
        ensures { MatchOption result (3 ^ (n - 1) ≤ number) (IsNumbered (n - 1) number) }
    {
        let len = n - 1;
        if number >= COUNTS[len as usize] {
            return None;
        }
        Some(Label::numbered(len, number))
    }

    /// The label of `len` digits that are all 0.
    #[tactic(auto, using(crate::specs::prover::Numbers::some_labels, crate::proofs::Held::zeros_held))]
    pub fn zeros(len: u8) -> Label
        requires { len ≤ 5 }
        ensures { result ≡ zeros len }
    {
        Label::numbered(len, 0)
    }

    /// The label read as a number in base 3, the outermost cycle's digit highest.
    #[tactic(auto, using(crate::proofs::Held::number_held, crate::proofs::Held::digits_held))]
    pub fn number(&self) -> u8
        ensures number { result ≡ label_number self.now }
        ensures digits { AreDigits self.now }
    {
        self.number
    }

    /// The number of digits, 0 to 5.
    #[tactic(auto, using(crate::proofs::Held::length_held, crate::proofs::Held::digits_held))]
    pub fn len(&self) -> usize
        ensures len { result ≡ length self.now }
        ensures digits { AreDigits self.now }
    {
        self.len as usize
    }

    /// Whether there is no digit, as for a single process.
    pub fn is_empty(&self) -> bool
        ensures { result ≡ (length self.now == 0) }
    {
        self.len == 0
    }

    /// The digit at place `i`, 0 to 2, the outermost cycle's at place 0.
    pub fn digit(&self, i: usize) -> u8
        requires { i < length self.now }
        ensures digit { result ≡ slice_index self.now i }
        ensures small { result < 3 }
    {
        self.held()[i]
    }

    /// Whether this label dominates the other, of the same length: at the first place at which
    /// they differ, its digit is the other's plus 1, modulo 3.
    pub fn dominates(&self, other: &Label) -> bool
        requires { length self.now ≡ length other.now }
        ensures { result ≡ dominates self.now other.now }
    {
        let _place = self.place();
        let at = other.place();
        (self.dominated()[at / 64] >> (at % 64)) % 2 == 1
    }

    // The digits that count.
    pub(crate) fn held(&self) -> &[u8]
        ensures held { result.now ≡ self.now }
        ensures digits { AreDigits result.now }
    {
        let row: &[u8] = self.row();
        &row[MOST_DIGITS - self.len as usize..]
    }

    // The row of the table that tells which labels this one dominates.
    #[tactic(auto, using(crate::proofs::Held::number_held))]
    fn dominated(&self) -> &[u64; 4]
        ensures { result.now ≡ slice_index_or DOMINATED (label_number self.now) [] }
    {
        &DOMINATED[self.number as usize]
    }

    // The number as the place in a row.
    fn place(&self) -> usize
        ensures place { result ≡ label_number self.now }
        ensures small { result < 243 }
        ensures digits { AreDigits self.now }
    {
        self.number() as usize
    }

    // The digits below as many zeros as make them five.
    #[tactic(auto, using(crate::proofs::Held::row_held, crate::proofs::Held::digits_held))]
    fn row(&self) -> &[u8; MOST_DIGITS]
        ensures row { result.now ≡ replicate (5 - length self.now) 0 ++ self.now }
        ensures digits { AreDigits self.now }
    {
        &DIGITS[self.number as usize]
    }
}

// The digit that dominates this one.
pub(crate) fn next_digit(digit: u8) -> u8
    requires { digit < 3 }
    ensures { result ≡ next_digit digit }
{
    (digit + 1) % 3
}

// The number that up to five digits are in base 3.
fn number_of(digits: &[u8]) -> u8
    requires few { length digits.now ≤ 5 }
    requires small { All (λ digit. digit < 3) digits.now }
    ensures small { result < 3 ^ length digits.now }
    ensures digits { digits_in (length digits.now) result ≡ digits.now }
{
    let mut number = 0;
    for &digit in digits {
        number = number * 3 + digit;
    }
    number
}
