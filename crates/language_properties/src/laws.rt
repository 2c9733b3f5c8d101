// What holds of all properties.
ghost use Rattle.language_properties.specs.Laws.{AlikeLaw, ValuesLaw};
ghost use Rattle.language_properties.specs.Asking.{UnaskedLaw};

/// `not (not e)` is 1 where `e` isn't 0; `e or f` is `not ((not e) and (not f))`; `some p: e` is
/// `not (all p: not e)`.
#[tactic(auto, using(crate::proofs::ValueLaws::values_law))]
pub fn law_values()
    ensures { ValuesLaw }
{}

/// A property sees of tickets only who holds one and which of two is older: two states in which these are the
/// same, and all else, give it the same value.
#[tactic(auto, using(crate::proofs::Alike::alike_law))]
pub fn law_alike()
    ensures { AlikeLaw }
{}

/// A property that doesn't ask for a part of what is seen has the same value whatever that part is.
#[tactic(auto, using(crate::proofs::Asking::unasked_law))]
pub fn law_unasked()
    ensures { UnaskedLaw }
{}
