//! What holds of all rows of private steps.

ghost use Rattle.ticklab_trace.specs.RowLaws.{InOrderLaw, StandsLaw, TogetherLaw};

/// The rows of private steps stand in order, and none is empty. A private step stands in a row of its process, and no other
/// step stands in one. Two steps, one behind the other, stand in the same row exactly where both are private, of one process
/// and of one part of the run: so no row can be longer.
pub fn law_rows()
    ensures in_order { InOrderLaw }
    ensures stands { StandsLaw }
    ensures together { TogetherLaw }
{}
