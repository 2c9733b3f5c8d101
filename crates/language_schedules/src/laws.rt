ghost use Rattle.language_schedules.specs.Laws.{SchedulesLaw};

/// Each schedule of at most 10,000,000 steps reads back from its written text.
pub fn law_schedules()
    ensures { SchedulesLaw }
{}
