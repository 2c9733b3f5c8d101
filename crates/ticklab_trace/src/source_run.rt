//! A run of a program that tells what each step does.
ghost use Rattle.std.specs.Prelude.{◌≡◌, ◌<◌, ℕ, [], All, IfOk, OnErr, OnOk, length, map, option_map, slice_index};
ghost use Rattle.tick_kinds.specs.Resolution.{resolved};
ghost use Rattle.base.specs.Plain.{Block};
ghost use Rattle.tick_source.specs.Source.{source, source_start, source_step};
ghost use Rattle.ticklab_trace.specs.StatementSteps.{AreStatementSteps, IsStatementStep, events_after, running_at, wrote};
ghost use Rattle.ticklab_trace.specs.prover.Links.{HasCome, IsTable, link_at, linked_taken, linked_target};

use crate::links::{Link, following, links, taken_by, target};
use crate::shown::{act_after, shown};
use crate::steps::{Scanned, StatementStep, Written};
use base::{NoMemory, Status};
use std::alloc::Global;
use std::marker::Model;
use tick_kinds::Program;
use tick_source::SourceMachine;

/// A program on whole-number tickets, one step at a time. Each step is told.
#[derive(Drop)]
pub struct SourceRun<'a> {
    program: &'a Program,
    machine: SourceMachine<'a>,
    links: Vec<Link<'a>>,
    // To which number each process has come.
    numbers: Vec<usize>,
}

impl<'a> Model for SourceRun<'a> {
    ghost use Rattle.std.specs.Coded.{codes};
    ghost use Rattle.base.specs.prover.Coding.{resolved_blocks};
    ghost use Rattle.ticklab_trace.specs.StatementSteps.{RunState};

    ghost Value = { RunState };

    ghost coded = { Prim.hlevel (codes, resolved_blocks) };

    ghost use Rattle.ticklab_trace.specs.prover.Runs.{IsFollowed, run_of};

    ghost view = { run_of };

    ghost invariant = { IsFollowed };
}

impl<'a> SourceRun<'a> {
    /// The run before its first step.
    pub fn new(alloc: Global, program: &'a Program) -> Result<SourceRun<'a>, NoMemory>
        ensures body { IfOk result (λ run. run.body ≡ (resolved program.now).body) }
        ensures start { IfOk result (λ run. run.state ≡ source_start (resolved program.now)) }
        ensures processes { IfOk result (λ run. length run.state.processes ≡ program.now.processes) }
        ensures rows { IfOk result (λ run. length run.state.rows ≡ length program.now.registers) }
    {
        let links = links(alloc, program.body())?;
        let machine = SourceMachine::new(alloc, program)?;
        let numbers = vec![in alloc; 0; usize::from(program.processes())]?;
        Ok(SourceRun {
            program,
            machine,
            links,
            numbers,
        })
    }

    /// The machine in the state that the steps so far have left.
    pub fn machine(&self) -> &SourceMachine<'a>
        ensures { result.now ≡ self.now.state }
    {
        &self.machine
    }

    /// Makes the next step of process `p`, which is below the number of processes, and tells it.
    pub fn step(&mut self, p: u8) -> Result<StatementStep, NoMemory>
        requires { p < length self.old.state.processes }
        ensures ok { OnOk result (self.new.state ≡ source_step (length self.old.state.processes) p self.old.state) }
        ensures step { IfOk result (IsStatementStep self.old.body p self.old.state self.new.state) }
        ensures body { self.new.body ≡ self.old.body }

        // No step adds or takes a process or a register row.
        ensures processes { length self.new.state.processes ≡ length self.old.state.processes }
        ensures rows { length self.new.state.rows ≡ length self.old.state.rows }
    {
        let n = self.program.processes();
        let number = self.numbers[usize::from(p)];
        let next = following(&self.links, number, n, p, self.machine.variables(p));
        let step = made_step(&mut self.machine, &self.links, number, p)?;
        self.numbers[usize::from(p)] = next;
        Ok(step)
    }
}

/// Each step of the program under the schedule. Each number in the schedule is below the number of
/// processes.
pub fn source_steps(
    alloc: Global,
    program: &Program,
    schedule: &[u8],
) -> Result<Vec<StatementStep>, NoMemory>
    requires { All (λ p. p < (resolved program.now).processes) schedule.now }
    ensures steps { IfOk result (λ steps. AreStatementSteps (resolved program.now) schedule.now steps.items) }
    ensures processes { IfOk result (λ steps. map (λ step. step.process) steps.items ≡ schedule.now) }
    ensures events { IfOk result (λ steps. events_after [] steps.items ≡ (source (resolved program.now) schedule.now).events) }
{
    let mut run = SourceRun::new(alloc, program)?;
    let mut steps = Vec::with_capacity(alloc, schedule.len())?;
    for &p in schedule {
        let step = run.step(p)?;
        // so that the borrow checker is told what types a step holds
        let act = step.act;
        steps.push(StatementStep { act, ..step })?;
    }
    Ok(steps)
}

// The next step of process `p`, which has come to this number.
fn made_step(
    machine: &mut SourceMachine<'_>,
    links: &[Link<'_>],
    number: usize,
    p: u8,
) -> Result<StatementStep, NoMemory>
    requires { p < length machine.old.processes }
    ensures ok { OnOk result (machine.new ≡ source_step (length machine.old.processes) p machine.old) }
    ensures err { OnErr result (machine.new ≡ machine.old) }
    ensures step { IfOk result (λ step. (body : Block ℕ) → IsTable body links.now → HasCome body number (running_at p machine.old) → IsStatementStep body p machine.old machine.new step) }
    ensures processes { length machine.new.processes ≡ length machine.old.processes }
    ensures rows { length machine.new.rows ≡ length machine.old.rows }
{
    let link = link_at(links, number, machine.status(p));
    let told = machine.events().len();
    machine.step(p)?;
    let act = act_after(machine.events(), told);
    let written = written(machine, p, link);
    let scanned = scanned(link);
    let tickets = shown(act, machine.tickets());
    let number = number_of(link, number);
    Ok(StatementStep {
        process: p,
        number,
        act,
        written,
        scanned,
        tickets,
    })
}

// The link of this number, where the process runs.
fn link_at<'a>(links: &[Link<'a>], number: usize, status: Status) -> Option<Link<'a>>
    ensures { result ≡ link_at links.now number status }
{
    match status {
        Status::Running => links.get(number).copied(),
        _ => None,
    }
}

fn number_of(link: Option<Link<'_>>, number: usize) -> Option<usize>
    ensures { result ≡ option_map (λ link. number) link.entry }
{
    match link {
        Some(_) => Some(number),
        None => None,
    }
}

// The scan that the statement of this link takes or copies.
fn scanned(link: Option<Link<'_>>) -> Option<Scanned>
    ensures { result ≡ linked_taken link.entry }
{
    taken_by(link?.statement)
}

// The variable that the statement of this link wrote, where the process goes on after it.
fn written(machine: &SourceMachine<'_>, p: u8, link: Option<Link<'_>>) -> Option<Written>
    requires { p < length machine.now.processes }
    ensures { result ≡ wrote (linked_target link.entry) (running_at p machine.now) }
{
    let variable = target(link?.statement)?;
    match machine.status(p) {
        Status::Running => Some(Written {
            variable,
            value: value_at(machine.variables(p), variable),
        }),
        _ => None,
    }
}

fn value_at(variables: &[u32], x: u8) -> u32
    ensures { result ≡ slice_index variables.now x }
{
    variables.get(usize::from(x)).copied().unwrap_or(0)
}
