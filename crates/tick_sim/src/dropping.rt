ghost use Rattle.std.specs.Prelude.{◌≡◌, ◌<◌, All, IfOk};
ghost use Rattle.tick_kinds.specs.Resolution.{resolved};
ghost use Rattle.tick_lower.specs.Lowered.{lowered, lowered_sizes};
ghost use Rattle.tick_sim.specs.Maps.{dropped};
ghost use Rattle.tick_sim.specs.Laws.{seen, seen_of_code};

use crate::stepping::step_ends;
use base::NoMemory;
use code_core::Code;
use code_machine::CodeMachine;
use std::alloc::Global;
use tick_kinds::Program;

/// The schedule of the program that a schedule of its code stands for: the same processes, without
/// each step that ended no step of the program. Each number is below the number of processes.
pub fn drop(
    alloc: Global,
    program: &Program,
    code: &Code,
    schedule: &[u8],
) -> Result<Vec<u8>, NoMemory>
    requires code { code.now ≡ record { sizes = lowered_sizes (resolved program.now); instructions = lowered (resolved program.now) } }
    requires processes { All (λ p. p < (resolved program.now).processes) schedule.now }
    ensures dropped { IfOk result (λ steps. steps.items ≡ dropped code.now.sizes code.now.instructions schedule.now) }

    // The program shows under the answer what its code shows under the schedule.
    ensures seen { IfOk result (λ steps. seen (resolved program.now) steps.items ≡ seen_of_code (resolved program.now) schedule.now) }
    ensures lawful { IfOk result (λ steps. All (λ p. p < (resolved program.now).processes) steps.items) }
{
    // With its sizes comes that the code is verified.
    let _sizes = code.sizes();
    let mut machine = CodeMachine::new(alloc, code)?;
    let mut steps = Vec::new(alloc);
    for &p in schedule {
        if step_ends(&mut machine, p)? {
            steps.push(p)?;
        }
    }
    Ok(steps)
}
