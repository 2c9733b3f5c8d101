//! What holds of every run of a program's code on threads.

ghost use Rattle.threads_source.specs.Laws.{ThreadedSourceLaw};

/// The outputs, the register rows and the ends of a run of the code on threads are those of the program
/// on whole-number tickets, under the schedule that the run's stands for.
pub fn law_threaded_source()
    ensures { ThreadedSourceLaw }
{}
