// One process on its thread.

ghost use Rattle.std.specs.Prelude.{◌≡◌, ◌≢◌, ◌↔◌, ◌&&◌, nat_le, IsTrue, Some, slice_get, vec_items, vec_capacity};
ghost use Rattle.code_machine.specs.Process.{IsOf, is_out};
ghost use Rattle.code_machine.specs.Safety.{HasWord, IsLawful};
ghost use Rattle.stamp_table.specs.Passes.{Holds, mine};
ghost use Rattle.tick_run.specs.prover.Turns.{IsFor, IsTurn, IsServed, turn_by, end_by};
ghost use Rattle.tick_run.specs.prover.Work.{CanWork, IsWork};

use crate::gate::Gate;
use crate::jobs::{Job, Limits};
use base::{Act, Event, RunEnd, Status};
use code_core::{Code, Instr};
use code_machine::{Advance, Ask, Proc, Reply};
use stamp_table::{Pass, StampTable, Swap};

/// What a worker comes back with.
#[derive(Drop)]
pub struct Worked {
    pub pass: Pass,
    pub outputs: Vec<u32>,
    pub end: RunEnd,
}

/// What became of a turn.
pub enum Turn {
    /// An instruction was made.
    Went,
    /// It gave out this value.
    Gave(u32),
}

/// Runs the process until it stops or has done all that it may.
pub fn work<G: Gate>(table: &StampTable, code: &Code, limits: Limits, job: Job<G>) -> Worked
    requires fits { IsFor table.now code.now }
    requires can { CanWork table.now code.now job.process limits.turns limits.outs job.proc job.pass job.outputs.items (vec_capacity job.outputs) }
    ensures { IsWork table.now code.now job.process limits.turns limits.outs result.pass result.outputs.items result.end }
{
    let Job {
        process,
        mut proc,
        mut pass,
        mut gate,
        mut outputs,
    } = job;
    for _ in 0..limits.turns {
        let Some(instruction) = proc.instruction(code) else {
            break;
        };
        if is_past(instruction, outputs.len(), limits.outs) {
            let end = RunEnd::OutputsFull;
            return Worked { pass, outputs, end };
        }
        match make_one(
            table,
            code,
            process,
            instruction,
            &mut proc,
            &mut pass,
            &mut gate,
        ) {
            // A process that has stopped leaves here, so that no turn has to ask whether it had.
            Turn::Went => {
                if has_stopped(proc.status()) {
                    break;
                }
            }
            Turn::Gave(value) => outputs.push_reserved(value),
        }
    }
    let end = end_of(proc.status());
    Worked { pass, outputs, end }
}

// Whether the instruction gives out a value after `given`, where `outs` are allowed.
#[inline(always)]
fn is_past(instruction: Instr, given: usize, outs: u32) -> bool
    ensures { result ≡ (is_out (Some instruction) && nat_le outs given) }
{
    matches!(instruction, Instr::Out) && given >= outs as usize
}

#[inline(always)]
fn has_stopped(status: Status) -> bool
    ensures { IsTrue result ↔ status ≢ Status.Running }
{
    !matches!(status, Status::Running)
}

// How a process of this status ends where it makes no further instruction.
fn end_of(status: Status) -> RunEnd
    ensures { result ≡ end_by status }
{
    match status {
        Status::Running => RunEnd::TurnsSpent,
        Status::Ended => RunEnd::Ended,
        Status::Trapped(trap) => RunEnd::Trapped(trap),
    }
}

// Makes this instruction, the next of the process.
#[inline(always)]
fn make_one<G: Gate>(
    table: &StampTable,
    code: &Code,
    process: u8,
    instruction: Instr,
    proc: &mut Proc,
    pass: &mut Pass,
    gate: &mut G,
) -> Turn
    requires fits { IsFor table.now code.now }
    requires me { proc.old.me ≡ process }
    requires of { IsOf code.now proc.old }
    requires running { proc.old.process.status ≡ Status.Running }
    requires next { slice_get code.now.instructions proc.old.process.place ≡ Some instruction }
    requires here { pass.old.table ≡ table.now }
    requires held { Holds pass.old.held process }
    ensures me { proc.new.me ≡ process }
    ensures of { IsOf code.now proc.new }
    ensures here { pass.new.table ≡ table.now }
    ensures held { pass.new.held ≡ pass.old.held }
    ensures turn { IsTurn result code.now process proc.old.process (mine process pass.old.seen) proc.new.process (mine process pass.new.seen) }
{
    match proc.make(code, instruction) {
        // It had not stopped, so it is never told that it had.
        Advance::Silent | Advance::Stopped => Turn::Went,
        Advance::Did(event) => turn_of(event),
        Advance::Ask(ask) => {
            let reply = served(table, code, process, pass, gate, ask);
            // An instruction that asks gives nothing out.
            proc.finish(code, instruction, reply);
            Turn::Went
        }
    }
}

#[inline(always)]
fn turn_of(event: Event) -> Turn
    ensures { result ≡ turn_by event.act }
{
    match event.act {
        Act::Out(value) => Turn::Gave(value),
        _ => Turn::Went,
    }
}

// Tells the gate, and makes the step that is asked for.
#[tactic(auto, using(crate::proofs::Serving::load_served, crate::proofs::Serving::won_served))]
#[inline(always)]
fn served<G: Gate>(
    table: &StampTable,
    code: &Code,
    p: u8,
    pass: &mut Pass,
    gate: &mut G,
    ask: Ask,
) -> Reply
    requires fits { IsFor table.now code.now }
    requires here { pass.old.table ≡ table.now }
    requires held { Holds pass.old.held p }
    requires lawful { IsLawful code.now.sizes p ask }
    ensures here { pass.new.table ≡ table.now }
    ensures held { pass.new.held ≡ pass.old.held }
    ensures served { IsServed code.now.sizes.processes p ask result pass.old.seen pass.new.seen }
    ensures word { HasWord code.now.sizes.processes result }
{
    let told = ask;
    gate.before(p, told);
    match ask {
        Ask::LoadWord | Ask::Scan => Reply::Word(table.load(pass, p)),
        Ask::Exchange(old, new) => match table.exchange(pass, p, old, new) {
            Swap::Won => Reply::Won,
            Swap::Lost(found) => Reply::Lost(found),
        },
        Ask::Get(r, i) => Reply::Value(table.read(pass, p, r, i)),
        Ask::Put(r, v) => {
            table.write(pass, p, r, v);
            Reply::Written
        }
        Ask::Clear => {
            table.clear(pass, p);
            Reply::Cleared
        }
    }
}
