//! What holds of the answers that `specs/Commands.antt` defines, whichever program gives them.
ghost use Rattle.ticketc_answers.specs.Ended.{WholeLaw};
ghost use Rattle.ticketc_answers.specs.Laws.{AtMostOneAnswerLaw, DropLaw, LiftLaw, RunOutcomeLaw, RunProgramLaw, RunRefusalLaw, SomeAnswerLaw};

use ticketc_io::{ByteSink, ByteSource};

/// Each command line has an answer on each input, and no two.
pub fn law_answers()
    ensures at_most_one { AtMostOneAnswerLaw }
    ensures some { SomeAnswerLaw }
{}

/// An answer to `run` is of one kind or the other: an outcome of the code that the input has, or, where it
/// has none, the one refusal that `code` has too. An outcome of a program's code is one of the program, on
/// whole-number tickets under one schedule.
pub fn law_run_answers()
    ensures outcome { RunOutcomeLaw }
    ensures program { RunProgramLaw }
    ensures refusal { RunRefusalLaw }
{}

/// What `code` reports on a program is what `source` reports under the schedule that `drop` prints; and
/// what `source` reports is what `code` reports under the one that `lift` prints.
pub fn law_reports()
    ensures drop { DropLaw }
    ensures lift { LiftLaw }
{}

/// `ended`, and `run_ended` where that tells a run, are the program as a whole.
pub fn law_whole<R: ByteSource, W: ByteSink>()
    ensures { WholeLaw R.remaining R.counts W.written W.counts }
{}
