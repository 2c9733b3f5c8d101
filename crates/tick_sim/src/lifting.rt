ghost use Rattle.std.specs.Prelude.{◌≡◌, ℕ, ◌<◌, ◌++◌, All, length, slice_get, Some, IfOk, OnOk};
ghost use Rattle.code_machine.specs.Machine.{code_run, statuses_of};
ghost use Rattle.tick_kinds.specs.Resolution.{resolved};
ghost use Rattle.tick_lower.specs.Lowered.{lowered, lowered_sizes};
ghost use Rattle.tick_sim.specs.Maps.{steps_to_commit, steps_of, lifted};
ghost use Rattle.tick_sim.specs.Laws.{seen, seen_of_code};
ghost use Rattle.tick_sim.specs.prover.Stepping.{IsReached};

use crate::stepping::step_ends;
use base::{NoMemory, Status};
use code_core::Code;
use code_machine::CodeMachine;
use std::alloc::Global;
use tick_kinds::Program;

/// The schedule of the code of a program that leads through the steps of a schedule of the program:
/// each item becomes as many as end its process's next step, and none where the process has stopped.
/// Each number is below the number of processes.
pub fn lift(
    alloc: Global,
    program: &Program,
    code: &Code,
    schedule: &[u8],
) -> Result<Vec<u8>, NoMemory>
    requires code { code.now ≡ record { sizes = lowered_sizes (resolved program.now); instructions = lowered (resolved program.now) } }
    requires processes { All (λ p. p < (resolved program.now).processes) schedule.now }
    ensures lifted { IfOk result (λ steps. steps.items ≡ lifted code.now.sizes code.now.instructions schedule.now) }

    // The code shows under the answer what the program shows under the schedule.
    ensures seen { IfOk result (λ steps. seen_of_code (resolved program.now) steps.items ≡ seen (resolved program.now) schedule.now) }
    ensures lawful { IfOk result (λ steps. All (λ p. p < (resolved program.now).processes) steps.items) }
{
    // With its sizes comes that the code is verified.
    let _sizes = code.sizes();
    let mut machine = CodeMachine::new(alloc, code)?;
    let mut steps = Vec::new(alloc);
    for &p in schedule {
        lead_through(&mut machine, code, p, &mut steps)?;
    }
    Ok(steps)
}

// Steps of one process until one ends a step of the program; none where it has stopped.
fn lead_through(
    machine: &mut CodeMachine,
    code: &Code,
    p: u8,
    steps: &mut Vec<u8>,
) -> Result<(), NoMemory>
    requires reached { IsReached machine.old }
    requires code { machine.old.code ≡ code.now }
    requires process { p < code.now.sizes.processes }
    requires commits { slice_get (statuses_of machine.old.state) p ≡ Some Status.Running → (k : ℕ) × (steps_to_commit code.now.sizes.processes code.now.instructions p (length code.now.instructions) machine.old.state ≡ Some k) }
    ensures steps { OnOk result (steps.new.items ≡ steps.old.items ++ steps_of code.now.sizes.processes code.now.instructions p machine.old.state) }
    ensures state { OnOk result (machine.new.state ≡ code_run code.now.sizes.processes code.now.instructions (steps_of code.now.sizes.processes code.now.instructions p machine.old.state) machine.old.state) }
    ensures reached { IsReached machine.new }
    ensures code { machine.new.code ≡ machine.old.code }
{
    let Status::Running = machine.status(p) else {
        return Ok(());
    };
    for _ in 0..code.len() {
        steps.push(p)?;
        if step_ends(machine, p)? {
            return Ok(());
        }
    }
    // One of so many steps ends a step of the program.
    unreachable!()
}
