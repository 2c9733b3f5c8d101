//! What holds of every run of every verified code.

ghost use Rattle.code_machine.specs.Laws.{NeverStuckLaw};

/// No process of a verified code is ever stuck: in every state of every run its place is inside the
/// code, its stack has the height of that place, its instruction finds its operands and its slots,
/// and at an exchange there are labels to compare with, and beside them their stamp.
pub fn law_never_stuck()
    ensures { NeverStuckLaw }
{}
