//! What holds of all pictures, and of all frames.

ghost use Rattle.ticklab_draw.specs.LaneLaws.{LanesLaw, StackLaw};
ghost use Rattle.ticklab_draw.specs.Laws.{MarkupLaw, RenamedLaw};
ghost use Rattle.ticklab_draw.specs.labels.Laws.{FramesLaw};

/// No title, no name of a row and no text of what must never hold opens a tag: in whatever columns, a picture has as
/// many `<` whatever they are.
pub fn law_markup()
    ensures in_columns { MarkupLaw }
    ensures renamed { RenamedLaw }
{}

/// A band has a lane for the processes of whose marks it shows one, and for no other; a picture that shows no mark has one lane
/// for each process. Above the lanes of a band stand those of the bands before it.
pub fn law_lanes()
    ensures lanes { LanesLaw }
    ensures stacked { StackLaw }
{}

/// Frame `k` has the labels after the first `k` moves, and the order that it shows is that of the
/// whole-number tickets then.
pub fn law_frames()
    ensures { FramesLaw }
{}
