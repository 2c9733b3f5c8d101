//! The parts of a run that goes on for ever.

ghost use Rattle.std.specs.Prelude.{◌≡◌};
ghost use Rattle.ticklab_trace.specs.Parts.{begun_after, begun_at, is_same, last_part, part_at, part_in, part_name};

/// Where the parts of a run begin that goes on for ever: after so many steps those that lead on to what repeats, and after
/// so many one round of it.
#[derive(Clone, Copy)]
pub struct Parts {
    pub lead_in: usize,
    pub cycle: usize,
}

/// A part of such a run.
#[derive(Clone, Copy)]
pub enum Part {
    /// The schedule that comes first.
    Schedule,
    /// The steps that lead on from where it ends.
    LeadIn,
    /// One round of the steps that repeat.
    Cycle,
}

impl Part {
    /// What stands before its steps.
    pub fn name(self) -> &'static str
        ensures { result.now ≡ part_name self }
    {
        match self {
            Part::Schedule => "",
            Part::LeadIn => "these steps lead on",
            Part::Cycle => "again and again",
        }
    }

    /// Whether they are the same.
    pub fn is_same(self, other: Part) -> bool
        ensures { result ≡ is_same self other }
    {
        match (self, other) {
            (Part::Schedule, Part::Schedule) => true,
            (Part::LeadIn, Part::LeadIn) => true,
            (Part::Cycle, Part::Cycle) => true,
            _ => false,
        }
    }

    /// The part, where the part before it is another.
    fn begun_after(self, last: Part) -> Option<Part>
        ensures { result ≡ begun_after last self }
    {
        if self.is_same(last) { None } else { Some(self) }
    }
}

impl Parts {
    fn part(self, before: usize) -> Part
        ensures { result ≡ part_in self before }
    {
        if before < self.lead_in {
            Part::Schedule
        } else if before < self.cycle {
            Part::LeadIn
        } else {
            Part::Cycle
        }
    }
}

/// The part to which the step behind so many others belongs. A run without parts is a schedule.
pub fn part_at(parts: Option<Parts>, before: usize) -> Part
    ensures { result ≡ part_at parts before }
{
    match parts {
        Some(parts) => parts.part(before),
        None => Part::Schedule,
    }
}

/// The part that begins with this step, where one does.
pub fn begun_at(parts: Option<Parts>, before: usize) -> Option<Part>
    ensures { result ≡ begun_at parts before }
{
    part_at(parts, before).begun_after(last_part(parts, before))
}

// The part of the step before.
fn last_part(parts: Option<Parts>, before: usize) -> Part
    ensures { result ≡ last_part parts before }
{
    if before == 0 {
        Part::Schedule
    } else {
        part_at(parts, before - 1)
    }
}
