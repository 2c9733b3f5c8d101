//! What holds of all labels.

ghost use Rattle.label_core.specs.Laws.{DigitsLaw, NextLaw};

/// For every number `n` of processes and every list of at most `n - 1` labels of `n - 1` digits, one
/// of which is greatest where there are any, the next label has `n - 1` digits and dominates each.
pub fn law_next()
    ensures { NextLaw }
{}

/// Each row of the table of digits has the digits of its number, the highest first.
pub fn law_digits()
    ensures { DigitsLaw }
{}
