//! What a program and its code have in common under every schedule.

ghost use Rattle.tick_sim.specs.Laws.{DropLaw, LiftLaw, RoundLaw};
ghost use Rattle.tick_sim.specs.Properties.{PropertiesLaw};
ghost use Rattle.tick_sim.specs.Ends.{EndsLaw};

/// Under every schedule the code of a program shows the events, the register rows and the statuses
/// that the program shows on whole-number tickets under the schedule that `drop` makes of it.
pub fn law_drop()
    ensures { DropLaw }
{}

/// Whatever a program shows under a schedule, its code shows under the schedule that `lift` makes of
/// it.
pub fn law_lift()
    ensures { LiftLaw }
{}

/// What `lift` makes of a schedule, `drop` takes back to it, without the items at which the process
/// had stopped.
pub fn law_round()
    ensures { RoundLaw }
{}

/// A property of what all can see (register rows, who holds a ticket and whose is older, who has ended or
/// trapped) has after every schedule of the code the value that it has in the program after the schedule that
/// `drop` makes of it; and after every schedule of the program the value that it has in the code after the
/// one that `lift` makes.
pub fn law_properties()
    ensures { PropertiesLaw }
{}

/// After a schedule of the code the processes that are asked for can still all stop exactly if they can in the
/// program after the schedule that `drop` makes of it; and after a schedule of the program exactly if they can
/// in the code after the one that `lift` makes. So a program can always end exactly if its code can.
pub fn law_ends()
    ensures { EndsLaw }
{}
