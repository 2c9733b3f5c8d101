// How a picture looks: which marks it shows.
ghost use Rattle.std.specs.Prelude.{◌≡◌};
ghost use Rattle.ticklab_draw.specs.Chosen.{chosen_count, is_chosen, is_shared};

use crate::mark::{Mark, Sight};
use ticklab_trace::is_shared_act;

/// How a picture of a run looks.
#[derive(Clone, Copy)]
pub struct Look {
    /// The first step whose mark is shown.
    pub from: usize,
    /// Only what other processes can see is shown.
    pub is_shared: bool,
    /// How wide it is, in pixels: from 300 to 20,000. Any other width is taken for the nearest of these.
    pub width: u32,
}

/// Whether a mark is shown.
pub fn is_chosen(look: Look, mark: &Mark) -> bool
    ensures { result ≡ is_chosen look mark.now }
{
    look.from <= mark.step && (!look.is_shared || is_shared(mark.sight))
}

// Whether other processes can see it.
fn is_shared(sight: Sight) -> bool
    ensures { result ≡ is_shared sight }
{
    match sight {
        Sight::Act(act) => is_shared_act(act),
        _ => true,
    }
}

/// How many of these marks are shown.
pub fn chosen_count(look: Look, marks: &[Mark]) -> usize
    ensures { result ≡ chosen_count look marks.now }
{
    let mut count = 0;
    for mark in marks {
        if is_chosen(look, mark) {
            count += 1;
        }
    }
    count
}
