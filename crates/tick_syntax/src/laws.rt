// What holds of all texts and all programs.
ghost use Rattle.tick_syntax.specs.Decided.{OneProgram, OneRefusal, NeverBoth, NeverNeither};
ghost use Rattle.tick_syntax.specs.RoundTrip.{PrintedReadsBack, PrintedStays, SpansDoNotShow};

/// Printing and reading. Of every program that some text is, the printed form
/// is a text that is the same program, places aside, and no other program; and
/// the printed form of what is read in a printed form is that form again.
pub fn law_print()
    ensures reads_back { PrintedReadsBack }
    ensures stays { PrintedStays }
    ensures spans { SpansDoNotShow }
{}

/// Reading. Each text is one program within the limits, or it has one refusal;
/// it is never both, and never neither.
#[tactic(auto, using(crate::proofs::Decided::one_refusal, crate::proofs::Decided::never_both))]
pub fn law_reading()
    ensures one_program { OneProgram }
    ensures one_refusal { OneRefusal }
    ensures never_both { NeverBoth }
    ensures never_neither { NeverNeither }
{}
