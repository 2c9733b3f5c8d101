ghost use Rattle.std.specs.Prelude.{◌≡◌, length};
ghost use Rattle.ticklab_verdicts.specs.BySteps.{begins_merged, kind_of};

use crate::search::Search;
use searches_explore::StepKind;
use ticklab_line::Steps;

/// How far a program was explored where no schedule is shown.
#[derive(Clone, Copy)]
pub struct SearchExtent {
    /// How many lines must never hold, of which none breaks.
    pub lines: usize,
    /// Whether the states are those between merged steps.
    pub is_merged: bool,
    /// How many states there are, or more than how many.
    pub states: u32,
}

/// So many states of a program.
pub fn extent_of(search: &Search<'_, '_>, is_merged: bool, states: u32) -> SearchExtent
    ensures { result ≡ record { lines = length search.now.lines.now.places.items; is_merged = is_merged; states = states } }
{
    SearchExtent {
        lines: search.lines.places.len(),
        is_merged,
        states,
    }
}

/// Whether the first search is by merged steps.
pub fn begins_merged(steps: Steps) -> bool
    ensures { result ≡ begins_merged steps }
{
    match steps {
        Steps::Single => false,
        Steps::Merged | Steps::MergedFirst => true,
    }
}

/// By merged steps, or by single ones.
pub fn kind_of(is_merged: bool) -> StepKind
    ensures { result ≡ kind_of is_merged }
{
    if is_merged {
        StepKind::Merged
    } else {
        StepKind::Single
    }
}
