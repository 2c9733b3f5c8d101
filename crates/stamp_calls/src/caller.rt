ghost use Rattle.std.specs.Prelude.{◌≡◌};
ghost use Rattle.stamp_table.specs.Passes.{Holds};

use stamp_table::Pass;
use std::marker::Model;

/// A pass and the process that steps with it. It can go to another thread.
#[derive(Drop)]
pub struct Caller {
    pub(crate) pass: Pass,
    pub(crate) process: u8,
}

impl Model for Caller {
    ghost use Rattle.std.specs.Prelude.{◌<◌};
    ghost use Rattle.stamp_table.specs.Passes.{Holds};
    ghost use Rattle.stamp_calls.specs.Callers.{CallerView};

    ghost Value = { CallerView };

    ghost view = { λ caller. record { pass = caller.pass; process = caller.process } };

    ghost invariant = { λ caller. Holds caller.pass.held caller.process × (caller.process < caller.pass.table.n) };
}

impl Caller {
    /// The caller that steps as process `p`.
    pub fn new(pass: Pass, p: u8) -> Caller
        requires held { Holds pass.held p }
        ensures pass { result.pass ≡ pass }
        ensures process { result.process ≡ p }
    {
        prove!(pass.holds(p));
        Caller { pass, process: p }
    }

    /// The pass, with all that the caller has seen.
    pub fn into_pass(self) -> Pass
        ensures pass { result ≡ self.pass }
        ensures held { Holds result.held self.process }
    {
        self.pass
    }
}
