//! `CodeMachine`: all processes of a code, which share labels and registers. One of them steps at a time.
ghost use Rattle.std.specs.Prelude.{◌≡◌, false, ℕ, ◌<◌, ◌≤◌, List, length, map, slice_get, OnOk, OnErr, IfOk, IfSome, IsOk, IsTrue, Some, is_some, option_map, option_and_then, All};
ghost use Rattle.base.specs.RegisterRows.{register_at};
ghost use Rattle.base.specs.Observables.{observed};
ghost use Rattle.code_machine.specs.Machine.{code_start, code_step, running_as, next_instruction, next_act, run_of, statuses_of, places_of, observables, made, labels_left, rows_left};
ghost use Rattle.code_machine.specs.Safety.{AreOrdered};
ghost use Rattle.code_machine.specs.Process.{IsOf, event_of, next_of};
ghost use Rattle.code_machine.specs.prover.Parts.{moved_as, Makes, Keeps, AreNew};

use crate::ask::Advance;
use crate::memory::CodeMemory;
use crate::proc::Proc;
use base::{Event, NoMemory, Outcome, Status};
use code_core::{Code, Instr};
use std::alloc::Global;
use std::marker::Model;
use word_core::LabelWord;

/// What a step made.
#[derive(Clone, Copy, PartialEq, Eq, Debug)]
pub struct Made {
    /// Its instruction.
    pub instruction: Instr,
    /// Whether others see it.
    pub told: bool,
}

/// A code on bounded labels, one step at a time. The code says what a step does; which process steps
/// is the caller's choice.
#[derive(Drop)]
pub struct CodeMachine<'a> {
    code: &'a Code,
    shared: CodeMemory,
    processes: Vec<Proc>,
    events: Vec<Event>,
}

impl<'a> Model for CodeMachine<'a> {
    ghost use Rattle.code_machine.specs.Machine.{CodeRun};
    ghost use Rattle.code_machine.specs.prover.Parts.{state_of, IsSound};

    ghost Value = { CodeRun };

    ghost view = { λ fields. record { code = fields.code.now; state = state_of fields } };

    ghost invariant = { IsSound };
}

impl<'a> CodeMachine<'a> {
    /// The code before its first step: all variables and registers are 0, and no process is present.
    pub fn new(alloc: Global, code: &'a Code) -> Result<CodeMachine<'a>, NoMemory>
        ensures code { IfOk result (λ m. m.code ≡ code.now) }
        ensures start { IfOk result (λ m. m.state ≡ code_start code.now.sizes) }
    {
        let sizes = code.sizes();
        let shared = CodeMemory::new(alloc, sizes)?;
        let processes = processes_of(alloc, code, sizes.processes())?;
        let events = Vec::with_capacity(alloc, 1)?;
        Ok(CodeMachine {
            code,
            shared,
            processes,
            events,
        })
    }

    /// Makes the next step of process `p`, which is below the number of processes. A step of a
    /// process that has stopped changes nothing. Where memory is refused the machine is as it was.
    #[inline(always)]
    pub fn step(&mut self, p: u8) -> Result<(), NoMemory>
        requires { p < length self.old.state.processes }
        ensures ok { OnOk result (self.new.state ≡ code_step self.old.code.sizes.processes self.old.code.instructions p self.old.state) }
        ensures err { OnErr result (self.new.state ≡ self.old.state) }

        // A step that gives no event takes no memory.
        ensures silent { (code_step self.old.code.sizes.processes self.old.code.instructions p self.old.state).events ≡ self.old.state.events → IsOk result }

        // No step adds or takes a process or a register row, or changes the code.
        ensures code { self.new.code ≡ self.old.code }
        ensures processes { length self.new.state.processes ≡ length self.old.state.processes }
        ensures rows { length self.new.state.rows ≡ length self.old.state.rows }
    {
        self.make_step(p)?;
        Ok(())
    }

    /// As `step`, for whoever wants to know what was made; `None` where the process had stopped.
    #[inline(always)]
    pub fn make_step(&mut self, p: u8) -> Result<Option<Made>, NoMemory>
        requires { p < length self.old.state.processes }
        ensures instruction { IfOk result (λ step. option_map (λ m. m.instruction) step ≡ next_instruction self.old.code.instructions p self.old.state) }
        ensures told { IfOk result (λ step. IfSome step (λ m. m.told ≡ is_some (next_act self.old.code.sizes.processes self.old.code.instructions p self.old.state))) }
        ensures ok { OnOk result (self.new.state ≡ code_step self.old.code.sizes.processes self.old.code.instructions p self.old.state) }
        ensures err { OnErr result (self.new.state ≡ self.old.state) }
        ensures silent { (code_step self.old.code.sizes.processes self.old.code.instructions p self.old.state).events ≡ self.old.state.events → IsOk result }
        ensures code { self.new.code ≡ self.old.code }
        ensures processes { length self.new.state.processes ≡ length self.old.state.processes }
        ensures rows { length self.new.state.rows ≡ length self.old.state.rows }
    {
        let process = &mut self.processes[p as usize];
        step_one(self.code, &mut self.shared, process, p, &mut self.events)
    }

    /// What the steps so far let others see, in their order.
    pub fn events(&self) -> &[Event]
        ensures { result.now ≡ self.now.state.events }
    {
        self.events.as_slice()
    }

    /// The value in register row `r` of process `i`.
    pub fn register(&self, r: u8, i: u8) -> u32
        requires row { r < length self.now.state.rows }
        requires process { i < length self.now.state.processes }
        ensures { result ≡ register_at self.now.state.rows r i }
    {
        self.shared.registers.get(r, i)
    }

    /// Whether process `p` goes on.
    pub fn status(&self, p: u8) -> Status
        requires { p < length self.now.state.processes }
        ensures { slice_get (statuses_of self.now.state) p ≡ Some result }
    {
        self.processes[p as usize].status()
    }

    /// The place of the next instruction of process `p`; where it has stopped, of its last.
    pub fn place(&self, p: u8) -> u16
        requires { p < length self.now.state.processes }
        ensures { slice_get (places_of self.now.state) p ≡ Some result }
    {
        self.processes[p as usize].place()
    }

    /// The labels of all processes.
    pub fn word(&self) -> LabelWord
        ensures { result ≡ self.now.state.labels }
    {
        self.shared.labels
    }

    // What the run has let others see.
    fn into_outcome(self, alloc: Global) -> Result<Outcome, NoMemory>
        ensures { IfOk result (λ outcome. observed outcome ≡ observables self.entry.state) }
    {
        let statuses = statuses_in(alloc, &self.processes)?;
        Ok(Outcome {
            events: self.events,
            registers: self.shared.registers.into_rows(),
            statuses,
        })
    }
}

// The first `n` processes of the code before their first step.
fn processes_of(alloc: Global, code: &Code, n: u8) -> Result<Vec<Proc>, NoMemory>
    requires { n ≤ code.now.sizes.processes }
    ensures { IfOk result (λ processes. AreNew code.now n processes.items) }
{
    let mut processes = Vec::with_capacity(alloc, usize::from(n))?;
    for p in 0..n {
        let process = Proc::at_start(alloc, code, p)?;
        processes.push(process)?;
    }
    Ok(processes)
}

// Whether each of the processes goes on.
fn statuses_in(alloc: Global, processes: &[Proc]) -> Result<Vec<Status>, NoMemory>
    ensures { IfOk result (λ statuses. statuses.items ≡ map (λ one. one.process.status) processes.now) }
{
    let mut statuses = Vec::with_capacity(alloc, processes.len())?;
    for process in processes {
        statuses.push(process.status())?;
    }
    Ok(statuses)
}

/// Runs the code: the processes step in the order of the schedule. Each number in the schedule is
/// below the number of processes.
pub fn run(alloc: Global, code: &Code, schedule: &[u8]) -> Result<Outcome, NoMemory>
    requires { All (λ p. p < code.now.sizes.processes) schedule.now }
    ensures { IfOk result (λ outcome. observed outcome ≡ observables (run_of code.now.sizes code.now.instructions schedule.now)) }
{
    let mut machine = CodeMachine::new(alloc, code)?;
    for &p in schedule {
        machine.step(p)?;
    }
    machine.into_outcome(alloc)
}

// Makes this instruction, the next of a process that runs. What is shared answers what it asks.
#[inline(always)]
fn make(
    code: &Code,
    shared: &mut CodeMemory,
    process: &mut Proc,
    p: u8,
    instruction: Instr,
) -> Option<Event>
    requires of { IsOf code.now process.old }
    requires me { process.old.me ≡ p }
    requires labels { AreOrdered code.now.sizes.processes shared.old.labels }
    requires running { process.old.process.status ≡ Status.Running }
    requires here { slice_get code.now.instructions process.old.process.place ≡ Some instruction }
    ensures event { result ≡ event_of p (made shared.old.labels shared.old.registers (next_of code.now process.old)).act }
    ensures process { process.new.process ≡ (made shared.old.labels shared.old.registers (next_of code.now process.old)).process }
    ensures labels { shared.new.labels ≡ labels_left p (next_of code.now process.old) shared.old.labels }
    ensures rows { shared.new.registers ≡ rows_left p (next_of code.now process.old) shared.old.registers }
    ensures me { process.new.me ≡ p }
    ensures of { IsOf code.now process.new }
{
    match process.make(code, instruction) {
        // It had not stopped, so it is never told that it had.
        Advance::Silent | Advance::Stopped => None,
        Advance::Did(event) => Some(event),
        Advance::Ask(ask) => {
            let reply = shared.serve(p, ask);
            let again = reply;
            let event = process.told(code, instruction, again);
            process.finish(code, instruction, reply);
            event
        }
    }
}

// A step of one process, with what it made. Memory is taken where an event has no room.
#[inline(always)]
fn step_one(
    code: &Code,
    shared: &mut CodeMemory,
    process: &mut Proc,
    p: u8,
    events: &mut Vec<Event>,
) -> Result<Option<Made>, NoMemory>
    requires of { IsOf code.now process.old }
    requires me { process.old.me ≡ p }
    requires labels { AreOrdered code.now.sizes.processes shared.old.labels }
    ensures instruction { IfOk result (λ step. option_map (λ m. m.instruction) step ≡ option_and_then (λ q. slice_get code.now.instructions q.place) (running_as process.old.process process.old.process.status)) }
    ensures told { IfOk result (λ step. IfSome step (λ m. m.told ≡ is_some (moved_as process.old.process.status process.old.process shared.old.labels shared.old.registers (next_of code.now process.old)).act)) }
    ensures ok { OnOk result (Makes code.now p shared.old shared.new process.old process.new events.old.items events.new.items) }
    ensures err { OnErr result (Keeps shared.old shared.new process.old process.new events.old.items events.new.items) }
    ensures silent { is_some (moved_as process.old.process.status process.old.process shared.old.labels shared.old.registers (next_of code.now process.old)).act ≡ false → IsOk result }
    ensures me { process.new.me ≡ p }
    ensures of { IsOf code.now process.new }
{
    if events.len() == events.capacity() && process.tells(code, &shared.labels) {
        events.reserve(1)?;
    }
    let Some(instruction) = process.instruction(code) else {
        return Ok(None);
    };
    let event = make(code, shared, process, p, instruction);
    let told = event.is_some();
    if let Some(event) = event {
        events.push_reserved(event);
    }
    Ok(Some(Made { instruction, told }))
}
