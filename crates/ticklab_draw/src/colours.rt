// The colours of lanes.
ghost use Rattle.std.specs.Prelude.{◌≡◌, ◌++◌, OnOk};
ghost use Rattle.ticklab_draw.specs.Colours.{colour, stroke};

use crate::writing::{Added, push};

// From dark to light.
const DARK_BLUE: &str = "#0b2a4a";

const BROWN: &str = "#7a3a0c";

const GREEN: &str = "#0f6351";

const VIOLET: &str = "#7d4cae";

const OCHRE: &str = "#a8700a";

const LIGHT_BLUE: &str = "#3f93c7";

const STROKE: &str = " stroke=\"";

/// The colour of a lane: from dark to light in the order of the processes.
#[tactic(auto, unfolding(crate::specs::Colours::colour))]
pub fn colour(p: u8) -> &'static str
    ensures { result.now ≡ colour p }
{
    match p % 6 {
        0 => DARK_BLUE,
        1 => BROWN,
        2 => GREEN,
        3 => VIOLET,
        4 => OCHRE,
        _ => LIGHT_BLUE,
    }
}

/// Adds the colour of a lane.
pub fn push_colour(out: &mut Vec<u8>, p: u8) -> Added
    ensures { OnOk result (out.new.items ≡ out.old.items ++ colour p) }
{
    push(out, colour(p))
}

/// Begins a line in the colour of a process.
#[tactic(auto, unfolding(crate::specs::Colours::stroke))]
pub fn push_stroke(out: &mut Vec<u8>, line: &str, p: u8) -> Added
    ensures { OnOk result (out.new.items ≡ out.old.items ++ stroke line.now p) }
{
    push(out, line)?;
    push(out, STROKE)?;
    push_colour(out, p)?;
    push(out, "\"")
}
