//! The calls that take memory. A call whose memory was refused is made once more. So these tests also pass if
//! any one growth of such a call is refused: the call then gives the error, and never another answer.
ghost use Rattle.std.specs.Prelude.{◌≡◌, ◌<◌, length, IfOk, All};
ghost use Rattle.code_machine.specs.Machine.{code_start};

use code_machine::{Code, CodeMachine, NoMemory, Outcome};
use std::alloc::Global;
use step_code::run;

pub fn machine_of<'a>(alloc: Global, code: &'a Code) -> Result<CodeMachine<'a>, NoMemory>
    ensures { IfOk result (λ machine. machine.state ≡ code_start code.now.sizes) }
{
    match CodeMachine::new(alloc, code) {
        Err(NoMemory) => CodeMachine::new(alloc, code),
        machine => machine,
    }
}

fn step(machine: &mut CodeMachine<'_>, p: u8) -> Result<(), NoMemory>
    requires { p < length machine.old.state.processes }
    ensures { length machine.new.state.processes ≡ length machine.old.state.processes }
{
    match machine.step(p) {
        Err(NoMemory) => machine.step(p),
        Ok(()) => Ok(()),
    }
}

pub fn step_often(machine: &mut CodeMachine<'_>, p: u8, count: u32) -> Result<(), NoMemory>
    requires { p < length machine.old.state.processes }
    ensures { length machine.new.state.processes ≡ length machine.old.state.processes }
{
    for _step in 0..count {
        step(machine, p)?;
    }
    Ok(())
}

pub fn outcome_of(alloc: Global, code: &Code, schedule: &[u8]) -> Result<Outcome, NoMemory>
    requires { All (λ p. p < code.now.sizes.processes) schedule.now }
{
    match run(alloc, code, schedule) {
        Err(NoMemory) => run(alloc, code, schedule),
        outcome => outcome,
    }
}
