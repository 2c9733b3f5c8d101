ghost use Rattle.tick_kinds.specs.Laws.{AcceptanceLaw, WithinLaw};

/// A program is either accepted, or something refuses it first.
pub fn law_acceptance()
    ensures { AcceptanceLaw }
{}

/// Each number in the body of an accepted program is within its section.
pub fn law_within()
    ensures { WithinLaw }
{}
