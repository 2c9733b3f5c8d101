//! The calls of the source machine that take memory. A call whose memory was refused is made once more. So a
//! test of these calls also passes if any one growth of such a call is refused.
ghost use Rattle.std.specs.Prelude.{◌≡◌, ◌<◌, length, IfOk};
ghost use Rattle.std.specs.List.{All};
ghost use Rattle.tick_kinds.specs.Resolution.{resolved};

use std::alloc::Global;
use tick_kinds::Program;
use tick_source::{NoMemory, Outcome, SourceMachine, run};

pub fn machine_of<'a>(alloc: Global, program: &'a Program) -> Result<SourceMachine<'a>, NoMemory>
    ensures processes { IfOk result (λ machine. length machine.processes ≡ program.now.processes) }
    ensures rows { IfOk result (λ machine. length machine.rows ≡ length program.now.registers) }
{
    match SourceMachine::new(alloc, program) {
        Err(NoMemory) => SourceMachine::new(alloc, program),
        machine => machine,
    }
}

fn step(machine: &mut SourceMachine<'_>, p: u8) -> Result<(), NoMemory>
    requires { p < length machine.old.processes }
    ensures { length machine.new.processes ≡ length machine.old.processes }
{
    match machine.step(p) {
        Err(NoMemory) => machine.step(p),
        Ok(()) => Ok(()),
    }
}

pub fn step_often(machine: &mut SourceMachine<'_>, p: u8, count: u32) -> Result<(), NoMemory>
    requires { p < length machine.old.processes }
    ensures { length machine.new.processes ≡ length machine.old.processes }
{
    for _step in 0..count {
        step(machine, p)?;
    }
    Ok(())
}

pub fn outcome_of(alloc: Global, program: &Program, schedule: &[u8]) -> Result<Outcome, NoMemory>
    requires { All (λ p. p < (resolved program.now).processes) schedule.now }
{
    match run(alloc, program, schedule) {
        Err(NoMemory) => run(alloc, program, schedule),
        outcome => outcome,
    }
}
