//! What command lines ask for, computed from the description of the command line alone.
ghost use Rattle.ticketc_line.specs.Laws.{BareCommandsLaw, CommandsWithTextLaw, OtherLinesLaw};

/// `check` and `emit` take no text.
pub fn law_bare_commands()
    ensures { BareCommandsLaw }
{}

/// Each other command takes exactly one text: an empty one, and any that begins with a digit, a
/// space or a plus sign.
pub fn law_commands_with_text()
    ensures { CommandsWithTextLaw }
{}

/// No words, unknown ones, and a wish for help or the version are no command.
pub fn law_other_lines()
    ensures { OtherLinesLaw }
{}
