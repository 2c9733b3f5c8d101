ghost use Rattle.std.specs.Prelude.{◌≡◌, ◌<◌, IfOk, OnOk};
ghost use Rattle.code_machine.specs.Machine.{code_step};
ghost use Rattle.tick_sim.specs.Maps.{is_commit};
ghost use Rattle.tick_sim.specs.prover.Stepping.{IsReached, ends_told};

use base::NoMemory;
use code_core::Instr;
use code_machine::{CodeMachine, Made};
use tick_lower::ends_step;

/// Makes the next step of process `p` of the code, and tells whether it ended a step of the program.
#[inline(always)]
pub fn step_ends(machine: &mut CodeMachine, p: u8) -> Result<bool, NoMemory>
    requires reached { IsReached machine.old }
    requires process { p < machine.old.code.sizes.processes }
    ensures ends { IfOk result (λ ended. ended ≡ is_commit machine.old.code.sizes.processes machine.old.code.instructions p machine.old.state) }
    ensures state { OnOk result (machine.new.state ≡ code_step machine.old.code.sizes.processes machine.old.code.instructions p machine.old.state) }
    ensures code { machine.new.code ≡ machine.old.code }
    ensures reached { IsReached machine.new }
{
    match machine.make_step(p)? {
        Some(made) => Ok(ends(made)),
        None => Ok(false),
    }
}

// Whether what was made ended a step of the program: an exchange that is lost tells nothing, and a
// trap tells itself.
#[inline(always)]
fn ends(made: Made) -> bool
    ensures { result ≡ ends_told made.instruction made.told }
{
    match made.instruction {
        Instr::Exchange(_) => made.told,
        instruction => made.told || ends_step(instruction),
    }
}
