//! What holds of the code of every program.

ghost use Rattle.tick_lower.specs.Laws.{AcceptedLaw, LengthLaw, VerifiedLaw};

/// The code has the length that is defined for it.
pub fn law_length()
    ensures { LengthLaw }
{}

/// The code of a program whose names are all declared, and that is not too long, is verified; so is that
/// of each accepted program.
pub fn law_verified()
    ensures declared { VerifiedLaw }
    ensures accepted { AcceptedLaw }
{}
