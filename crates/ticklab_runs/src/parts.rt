//! The parts of a run that goes round for ever.
ghost use Rattle.std.specs.Prelude.{◌≡◌};
ghost use Rattle.ticklab_runs.specs.Parts.{parts_of};

use ticklab_trace::Parts;

/// The first so many steps are the schedule, the last so many are the round, and there are so many in all. What doesn't go
/// round has no parts.
pub fn parts_of(schedule: usize, round: usize, all: usize) -> Option<Parts>
    ensures { result ≡ parts_of schedule round all }
{
    if round == 0 {
        return None;
    }
    Some(Parts {
        lead_in: schedule,
        cycle: all.saturating_sub(round),
    })
}
