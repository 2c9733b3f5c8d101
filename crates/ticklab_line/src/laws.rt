//! What command lines ask for, computed from the description of the command line alone.
ghost use Rattle.ticklab_line.specs.Laws.{CommandsLaw, HuntsLaw, NoCommandsLaw};

/// Each command but `hunt`, with its options and without, is taken and asks for what its words say.
pub fn law_commands()
    ensures { CommandsLaw }
{}

/// `hunt` asks for its plan, or for runs on threads.
pub fn law_hunts()
    ensures { HuntsLaw }
{}

/// No words, unknown ones, too few, a number that is none or too large, and a wish for help ask for nothing.
pub fn law_no_commands()
    ensures { NoCommandsLaw }
{}
