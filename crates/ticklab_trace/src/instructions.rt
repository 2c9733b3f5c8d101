ghost use Rattle.std.specs.Prelude.{◌≡◌, ◌<◌, IfOk, OnOk, length, option_map};
ghost use Rattle.code_machine.specs.Machine.{code_step};
ghost use Rattle.ticklab_trace.specs.InstructionSteps.{IsInstructionStep, lost_to};

use crate::shown::{act_after, shown};
use crate::steps::InstructionStep;
use base::{Act, NoMemory};
use code_core::Instr;
use code_machine::{CodeMachine, Made};
use word_core::LabelWord;

/// Makes the next step of process `p`, which is below the number of processes, and tells it.
pub fn instruction_step(machine: &mut CodeMachine<'_>, p: u8) -> Result<InstructionStep, NoMemory>
    requires { p < length machine.old.state.processes }
    ensures ok { OnOk result (machine.new.state ≡ code_step machine.old.code.sizes.processes machine.old.code.instructions p machine.old.state) }
    ensures step { IfOk result (IsInstructionStep machine.old.code.instructions p machine.old.state machine.new.state) }
    ensures code { machine.new.code ≡ machine.old.code }
    ensures processes { length machine.new.state.processes ≡ length machine.old.state.processes }
{
    let place = machine.place(p);
    let told = machine.events().len();
    let instruction = instruction_of(machine.make_step(p)?);
    let act = act_after(machine.events(), told);
    let word = machine.word();
    let lost = lost_to(instruction, act, word);
    let labels = shown(act, word);
    Ok(InstructionStep {
        process: p,
        place,
        instruction,
        act,
        lost,
        labels,
    })
}

fn instruction_of(made: Option<Made>) -> Option<Instr>
    ensures { result ≡ option_map (λ made. made.instruction) made }
{
    match made {
        Some(made) => Some(made.instruction),
        None => None,
    }
}

// The labels that an exchange found which was lost, of which others see this.
fn lost_to(instruction: Option<Instr>, act: Option<Act>, labels: LabelWord) -> Option<LabelWord>
    ensures { result ≡ lost_to instruction act labels }
{
    match (instruction, act) {
        (Some(Instr::Exchange(_)), None) => Some(labels),
        _ => None,
    }
}
