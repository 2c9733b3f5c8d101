//! What an exploration of a program says of the program's code on bounded labels.

ghost use Rattle.ticklab_answers.specs.Laws.{CodeEndsLaw, CodeLaw, ThreadsLaw};

/// Where no process of a program traps under any schedule, none of its code does under any; and where one
/// traps under a schedule, one of the code does under the schedule that leads through it.
pub fn law_code()
    ensures { CodeLaw }
{}

/// Where no process of a program traps under any schedule, none ends trapped in any run of its code on
/// threads, however the threads meet.
pub fn law_threads()
    ensures { ThreadsLaw }
{}

/// Where processes of a program can always end, they can in its code; and where they can't end any more after a
/// schedule, they can't in the code after the schedule that leads through it.
pub fn law_ends()
    ensures { CodeEndsLaw }
{}
