ghost use Rattle.std.specs.Prelude.{ℕ, IfOk};
ghost use Rattle.code_core.specs.Instructions.{StepCode};
ghost use Rattle.base.specs.Observables.{RunObservables, run_observed};
ghost use Rattle.tick_merge.specs.Runs.{IsWholeRun};

use crate::run_fault::RunFault;
use base::RunOutcome;
use code_core::Code;

/// Makes one run of a code, and is used up by it: who has one, and no threads, can't run again.
pub trait OneRun: Drop {
    /// Runs the code: each process makes at most `turns` instructions, and gives out at most `outs` values.
    fn run_once(self, code: &Code, turns: u64, outs: u32) -> Result<RunOutcome, RunFault>
        ensures { IfOk result (λ outcome. IsWholeRun code.now turns outs (run_observed outcome)) };
}

/// Makes runs of codes, one for each call.
pub trait Runner {
    // What it is before a run of a code, in which each process makes at most so many instructions and
    // gives out at most so many values, the outcome of that run, and what it is after it.
    ghost Ran: { Self → StepCode → ℕ → ℕ → RunObservables → Self → Type 0 };

    /// Runs the code: each process makes at most `turns` instructions, and gives out at most `outs` values.
    fn run_next(&mut self, code: &Code, turns: u64, outs: u32) -> Result<RunOutcome, RunFault>
        ensures { IfOk result (λ outcome. Self.Ran self.old code.now turns outs (run_observed outcome) self.new) };
}
