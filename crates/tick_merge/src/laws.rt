//! What holds of every process of every code by itself, and of every history in which each process makes
//! just the steps that it makes by itself.

ghost use Rattle.tick_merge.specs.Laws.{MergeLaw};
ghost use Rattle.tick_merge.specs.LocalLaws.{OncePerAnswersLaw, BeginningsLaw};
ghost use Rattle.tick_merge.specs.Refusals.{OneAnswerLaw};

/// The answers that a process is given decide what it does.
pub fn law_answers_decide()
    ensures { OncePerAnswersLaw }
{}

/// A process that came so far was at each number of instructions before.
pub fn law_beginnings()
    ensures { BeginningsLaw }
{}

/// A legal history in which each process makes, in so many instructions, just its own steps is the
/// shared part of one run of the code: that under the merged schedule.
pub fn law_merge()
    ensures { MergeLaw }
{}

/// What `merge` answers is one: a history that it merges is refused nowhere, and no other at two places
/// or in two ways.
pub fn law_one_answer()
    ensures { OneAnswerLaw }
{}
