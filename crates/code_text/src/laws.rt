//! What holds of all codes and all texts.

ghost use Rattle.code_text.specs.Laws.{OneReadingLaw, RoundTripLaw, SomeReadingLaw};

/// A text is read as one code, or has one fault.
pub fn law_one_reading()
    ensures at_most_one { OneReadingLaw }
    ensures some { SomeReadingLaw }
{}

/// A verified code that was written is read as itself.
pub fn law_round_trip()
    ensures { RoundTripLaw }
{}
