//! `SourceMachine`: all processes of a program, which share tickets and registers. One of them steps at a time.
ghost use Rattle.std.specs.Prelude.{◌≡◌, ◌<◌, length, OnOk, OnErr, IfOk, IsOk, Some, map, slice_get};
ghost use Rattle.std.specs.List.{All};
ghost use Rattle.tick_kinds.specs.Resolution.{resolved};
ghost use Rattle.base.specs.RegisterRows.{register_at};
ghost use Rattle.base.specs.Observables.{observed};
ghost use Rattle.tick_source.specs.Source.{source, source_start, source_step, observables, statuses_of, IsQuietStep};

use crate::memory::SourceMemory;
use crate::process::Process;
use base::{Event, NoMemory, Outcome, Status};
use std::alloc::Global;
use std::marker::Model;
use tick_kinds::Program;
use ticket_core::Tickets;

/// A program on whole-number tickets, one step at a time. The program says what a step does; which
/// process steps is the caller's choice.
#[derive(Drop)]
pub struct SourceMachine<'a> {
    shared: SourceMemory,
    processes: Vec<Process<'a>>,
}

impl<'a> Model for SourceMachine<'a> {
    ghost use Rattle.std.specs.Coded.{codes};
    ghost use Rattle.tick_source.specs.Source.{SourceState};
    ghost use Rattle.base.specs.prover.Coding.{resolved_blocks};

    ghost Value = { SourceState };

    ghost coded = { Prim.hlevel (codes, resolved_blocks) };

    ghost use Rattle.tick_source.specs.prover.Machine.{state_of, IsTicketed};

    ghost view = { state_of };

    ghost invariant = { IsTicketed };
}

impl<'a> SourceMachine<'a> {
    /// The program before its first step: all variables, registers and tickets are 0.
    pub fn new(alloc: Global, program: &'a Program) -> Result<SourceMachine<'a>, NoMemory>
        ensures start { IfOk result (λ m. m ≡ source_start (resolved program.now)) }
        ensures processes { IfOk result (λ m. length m.processes ≡ program.now.processes) }
        ensures rows { IfOk result (λ m. length m.rows ≡ length program.now.registers) }
    {
        let n = program.processes();
        let shared = SourceMemory::new(alloc, n, program.registers())?;
        let mut processes = Vec::with_capacity(alloc, usize::from(n))?;
        for _ in 0..n {
            let process = Process::new(alloc, program)?;
            processes.push(process)?;
        }
        Ok(SourceMachine { shared, processes })
    }

    /// Makes the next step of process `p`, which is below the number of processes. A step of a
    /// process that has stopped changes nothing. Where memory is refused the machine is as it was.
    pub fn step(&mut self, p: u8) -> Result<(), NoMemory>
        requires { p < length self.old.processes }
        ensures ok { OnOk result (self.new ≡ source_step (length self.old.processes) p self.old) }
        ensures err { OnErr result (self.new ≡ self.old) }

        // A process that has stopped needs no memory, nor do a copy, an assignment of a value and a loop
        // that is left.
        ensures quiet { IsQuietStep (length self.old.processes) p self.old → IsOk result }

        // No step adds or takes a process or a register row.
        ensures processes { length self.new.processes ≡ length self.old.processes }
        ensures rows { length self.new.rows ≡ length self.old.rows }
    {
        let process = &mut self.processes[p as usize];
        match process.status {
            Status::Running => process.step(p, &mut self.shared),
            _ => Ok(()),
        }
    }

    /// What the steps so far let others see, in their order.
    pub fn events(&self) -> &[Event]
        ensures { result.now ≡ self.now.events }
    {
        self.shared.events.as_slice()
    }

    /// The value in register row `r` of process `i`.
    pub fn register(&self, r: u8, i: u8) -> u32
        requires row { r < length self.now.rows }
        requires process { i < length self.now.processes }
        ensures { result ≡ register_at self.now.rows r i }
    {
        self.shared.registers.get(r, i)
    }

    /// Whether process `p` goes on.
    pub fn status(&self, p: u8) -> Status
        requires { p < length self.now.processes }
        ensures { slice_get (statuses_of self.now) p ≡ Some result }
    {
        self.processes[p as usize].status
    }

    /// The variables of process `p`, in the order in which they are declared.
    pub fn variables(&self, p: u8) -> &[u32]
        requires { p < length self.now.processes }
        ensures { slice_get (map (λ q. q.variables) self.now.processes) p ≡ Some result.now }
    {
        self.processes[p as usize].variables.as_slice()
    }

    /// The tickets of all processes.
    pub fn tickets(&self) -> Tickets
        ensures { result ≡ self.now.tickets }
    {
        self.shared.tickets
    }

    // What the run lets others see.
    fn into_outcome(self, alloc: Global) -> Result<Outcome, NoMemory>
        ensures { IfOk result (λ o. observed o ≡ observables self.entry) }
    {
        let mut statuses = Vec::with_capacity(alloc, self.processes.len())?;
        for process in &self.processes {
            statuses.push(process.status)?;
        }
        Ok(Outcome {
            events: self.shared.events,
            registers: self.shared.registers.into_rows(),
            statuses,
        })
    }
}

/// Runs the program: the processes step in the order of the schedule. Each number in the schedule is
/// below the number of processes.
pub fn run(alloc: Global, program: &Program, schedule: &[u8]) -> Result<Outcome, NoMemory>
    requires { All (λ p. p < (resolved program.now).processes) schedule.now }
    ensures { IfOk result (λ o. observed o ≡ observables (source (resolved program.now) schedule.now)) }
{
    let mut machine = SourceMachine::new(alloc, program)?;
    for &p in schedule {
        machine.step(p)?;
    }
    machine.into_outcome(alloc)
}
