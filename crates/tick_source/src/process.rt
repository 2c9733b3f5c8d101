//! `Process`: one process of a program, and its step, by the statement that comes next.
ghost use Rattle.std.specs.Prelude.{◌≡◌, ◌<◌, length, OnOk, OnErr, IfOk, IsOk};
ghost use Rattle.std.specs.List.{All};
ghost use Rattle.tick_kinds.specs.Resolved.{resolved_expression, resolved_statement, resolved_block};
ghost use Rattle.base.specs.Plain.{assign, get, put, stamp, clear, scan, copy, older, held, out, branch, repeat, number, cons};
ghost use Rattle.tick_source.specs.prover.Remaining.{after_first};
ghost use Rattle.tick_source.specs.Source.{scan_at, start_process, IsQuiet, HasQuietFirst};
ghost use Rattle.tick_source.specs.prover.Machine.{process_of};
ghost use Rattle.tick_kinds.specs.Resolution.{resolved};
ghost use Rattle.tick_source.specs.Values.{value};
ghost use Rattle.tick_source.specs.prover.Steps.{Makes, Keeps, traps_from, does_from, did_from};

use crate::memory::SourceMemory;
use crate::remaining::Remaining;
use crate::value::value_of;
use base::{Act, NoMemory, Status, Trap, set_at};
use std::alloc::Global;
use tick_kinds::Program;
use tick_kinds::resolved::{Expression, Statement};
use ticket_core::Tickets;

/// A process that runs.
#[derive(Drop)]
pub struct Process<'a> {
    pub variables: Vec<u32>,
    pub scans: Vec<Tickets>,
    pub rest: Remaining<'a>,
    pub status: Status,
}

impl<'a> Process<'a> {
    /// A process that has done nothing of the program yet.
    pub fn new(alloc: Global, program: &'a Program) -> Result<Process<'a>, NoMemory>
        ensures { IfOk result (λ q. process_of q ≡ start_process (resolved program.now)) }
    {
        let scan = Tickets::new(program.processes());
        Ok(Process {
            variables: vec![in alloc; 0; usize::from(program.variables())]?,
            scans: vec![in alloc; scan; usize::from(program.scans())]?,
            rest: Remaining::new(alloc, program.body())?,
            status: Status::Running,
        })
    }

    fn value(&self, p: u8, shared: &SourceMemory, expression: &Expression) -> Result<u32, Trap>
        ensures { result ≡ value (length shared.now.tickets) p self.now.variables.items (resolved_expression expression.now) }
    {
        value_of(shared.tickets.count(), p, &self.variables, expression)
    }

    fn scan(&self, shared: &SourceMemory, s: u8) -> Tickets
        ensures { result ≡ scan_at (length shared.now.tickets) self.now.scans.items s }
    {
        match self.scans.get(s as usize) {
            Some(scan) => *scan,
            None => Tickets::new(shared.tickets.count()),
        }
    }

    fn trap(&mut self, p: u8, shared: &mut SourceMemory, trap: Trap) -> Result<(), NoMemory>
        ensures ok { OnOk result (Makes p (traps_from p shared.old self.old trap) shared.old shared.new self.new) }
        ensures err { OnErr result (Keeps shared.old shared.new self.old self.new) }
    {
        shared.tell(p, Act::Trap(trap))?;
        self.rest.advance();
        self.status = Status::Trapped(trap);
        Ok(())
    }

    fn assign(
        &mut self,
        p: u8,
        shared: &mut SourceMemory,
        x: u8,
        expression: &Expression,
    ) -> Result<(), NoMemory>
        requires { self.old.status ≡ Status.Running }
        ensures ok { OnOk result (Makes p (does_from p shared.old self.old (assign x (resolved_expression expression.now))) shared.old shared.new self.new) }
        ensures err { OnErr result (Keeps shared.old shared.new self.old self.new) }
        ensures quiet { IsQuiet (length shared.old.tickets) p self.old.variables.items (assign x (resolved_expression expression.now)) → IsOk result }
    {
        match self.value(p, shared, expression) {
            Ok(value) => {
                set_at(&mut self.variables, x as usize, value);
                self.rest.advance();
                Ok(())
            }
            Err(trap) => self.trap(p, shared, trap),
        }
    }

    fn put(
        &mut self,
        p: u8,
        shared: &mut SourceMemory,
        r: u8,
        expression: &Expression,
    ) -> Result<(), NoMemory>
        requires { self.old.status ≡ Status.Running }
        ensures ok { OnOk result (Makes p (does_from p shared.old self.old (put r (resolved_expression expression.now))) shared.old shared.new self.new) }
        ensures err { OnErr result (Keeps shared.old shared.new self.old self.new) }
    {
        match self.value(p, shared, expression) {
            Ok(value) => {
                shared.tell(p, Act::Put(r, value))?;
                shared.set_register(r, p, value);
                self.rest.advance();
                Ok(())
            }
            Err(trap) => self.trap(p, shared, trap),
        }
    }

    fn stamp(&mut self, p: u8, shared: &mut SourceMemory) -> Result<(), NoMemory>
        requires running { self.old.status ≡ Status.Running }
        requires in_range { p < length shared.old.tickets }
        ensures ok { OnOk result (Makes p (does_from p shared.old self.old (stamp)) shared.old shared.new self.new) }
        ensures err { OnErr result (Keeps shared.old shared.new self.old self.new) }
    {
        shared.stamp(p)?;
        self.rest.advance();
        Ok(())
    }

    fn clear(&mut self, p: u8, shared: &mut SourceMemory) -> Result<(), NoMemory>
        requires running { self.old.status ≡ Status.Running }
        requires in_range { p < length shared.old.tickets }
        ensures ok { OnOk result (Makes p (does_from p shared.old self.old (clear)) shared.old shared.new self.new) }
        ensures err { OnErr result (Keeps shared.old shared.new self.old self.new) }
    {
        shared.clear(p)?;
        self.rest.advance();
        Ok(())
    }

    fn take(&mut self, p: u8, shared: &mut SourceMemory, s: u8) -> Result<(), NoMemory>
        requires { self.old.status ≡ Status.Running }
        ensures ok { OnOk result (Makes p (does_from p shared.old self.old (scan s)) shared.old shared.new self.new) }
        ensures err { OnErr result (Keeps shared.old shared.new self.old self.new) }
    {
        let tickets = shared.tickets;
        shared.tell(p, Act::Scan(tickets.ranks()))?;
        set_at(&mut self.scans, s as usize, tickets);
        self.rest.advance();
        Ok(())
    }

    fn copy(&mut self, p: u8, shared: &SourceMemory, target: u8, copied: u8)
        requires { self.old.status ≡ Status.Running }
        ensures { Makes p (does_from p shared.now self.old (copy target copied)) shared.now shared.now self.new }
    {
        let scan = self.scan(shared, copied);
        set_at(&mut self.scans, target as usize, scan);
        self.rest.advance();
    }

    fn give(
        &mut self,
        p: u8,
        shared: &mut SourceMemory,
        expression: &Expression,
    ) -> Result<(), NoMemory>
        requires { self.old.status ≡ Status.Running }
        ensures ok { OnOk result (Makes p (does_from p shared.old self.old (out (resolved_expression expression.now))) shared.old shared.new self.new) }
        ensures err { OnErr result (Keeps shared.old shared.new self.old self.new) }
    {
        match self.value(p, shared, expression) {
            Ok(value) => {
                shared.tell(p, Act::Out(value))?;
                self.rest.advance();
                Ok(())
            }
            Err(trap) => self.trap(p, shared, trap),
        }
    }

    fn get(
        &mut self,
        p: u8,
        shared: &mut SourceMemory,
        x: u8,
        r: u8,
        expression: &Expression,
    ) -> Result<(), NoMemory>
        requires { self.old.status ≡ Status.Running }
        ensures ok { OnOk result (Makes p (does_from p shared.old self.old (get x r (resolved_expression expression.now))) shared.old shared.new self.new) }
        ensures err { OnErr result (Keeps shared.old shared.new self.old self.new) }
    {
        let n = shared.tickets.count();
        match self.value(p, shared, expression) {
            Ok(i) if i < u32::from(n) => {
                let value = shared.registers.get(r, i as u8);
                shared.tell(p, Act::Get(r, i as u8, value))?;
                set_at(&mut self.variables, x as usize, value);
                self.rest.advance();
                Ok(())
            }
            Ok(_) => self.trap(p, shared, Trap::Index),
            Err(trap) => self.trap(p, shared, trap),
        }
    }

    fn compare(
        &mut self,
        p: u8,
        shared: &mut SourceMemory,
        x: u8,
        s: u8,
        first: &Expression,
        second: &Expression,
    ) -> Result<(), NoMemory>
        requires running { self.old.status ≡ Status.Running }
        requires scans { All (λ scan. length scan ≡ length shared.old.tickets) self.old.scans.items }
        ensures ok { OnOk result (Makes p (does_from p shared.old self.old (older x s (resolved_expression first.now) (resolved_expression second.now))) shared.old shared.new self.new) }
        ensures err { OnErr result (Keeps shared.old shared.new self.old self.new) }
    {
        let n = u32::from(shared.tickets.count());
        let left = self.value(p, shared, first);
        let right = self.value(p, shared, second);
        match (left, right) {
            (Err(trap), _) => self.trap(p, shared, trap),
            (Ok(_), Err(trap)) => self.trap(p, shared, trap),
            (Ok(i), Ok(j)) if i < n && j < n => self.answer(p, shared, x, s, i as u8, j as u8),
            _ => self.trap(p, shared, Trap::Index),
        }
    }

    // The answer of a comparison of two processes that there are.
    fn answer(
        &mut self,
        p: u8,
        shared: &mut SourceMemory,
        x: u8,
        s: u8,
        i: u8,
        j: u8,
    ) -> Result<(), NoMemory>
        requires running { self.old.status ≡ Status.Running }
        requires scans { All (λ scan. length scan ≡ length shared.old.tickets) self.old.scans.items }
        requires first { i < length shared.old.tickets }
        requires second { j < length shared.old.tickets }
        ensures ok { OnOk result (Makes p (does_from p shared.old self.old (older x s (number i) (number j))) shared.old shared.new self.new) }
        ensures err { OnErr result (Keeps shared.old shared.new self.old self.new) }
    {
        let answer = u8::from(self.scan(shared, s).older(i, j));
        shared.tell(p, Act::Older(i, j, answer))?;
        set_at(&mut self.variables, x as usize, u32::from(answer));
        self.rest.advance();
        Ok(())
    }

    // Whether a process holds a ticket in a scan.
    fn held(
        &mut self,
        p: u8,
        shared: &mut SourceMemory,
        x: u8,
        s: u8,
        expression: &Expression,
    ) -> Result<(), NoMemory>
        requires running { self.old.status ≡ Status.Running }
        requires scans { All (λ scan. length scan ≡ length shared.old.tickets) self.old.scans.items }
        ensures ok { OnOk result (Makes p (does_from p shared.old self.old (held x s (resolved_expression expression.now))) shared.old shared.new self.new) }
        ensures err { OnErr result (Keeps shared.old shared.new self.old self.new) }
    {
        let n = u32::from(shared.tickets.count());
        match self.value(p, shared, expression) {
            Ok(i) if i < n => {
                let answer = u8::from(self.scan(shared, s).held(i as u8));
                shared.tell(p, Act::Held(i as u8, answer))?;
                set_at(&mut self.variables, x as usize, u32::from(answer));
                self.rest.advance();
                Ok(())
            }
            Ok(_) => self.trap(p, shared, Trap::Index),
            Err(trap) => self.trap(p, shared, trap),
        }
    }

    fn branch(
        &mut self,
        p: u8,
        shared: &mut SourceMemory,
        expression: &Expression,
        then_block: &'a [Statement],
        else_block: &'a [Statement],
    ) -> Result<(), NoMemory>
        requires { self.old.status ≡ Status.Running }
        ensures ok { OnOk result (Makes p (does_from p shared.old self.old (branch (resolved_expression expression.now) (resolved_block then_block.now) (resolved_block else_block.now))) shared.old shared.new self.new) }
        ensures err { OnErr result (Keeps shared.old shared.new self.old self.new) }
    {
        match self.value(p, shared, expression) {
            Ok(0) => self.rest.instead(else_block),
            Ok(_) => self.rest.instead(then_block),
            Err(trap) => self.trap(p, shared, trap),
        }
    }

    fn repeat(
        &mut self,
        p: u8,
        shared: &mut SourceMemory,
        expression: &Expression,
        block: &'a [Statement],
    ) -> Result<(), NoMemory>
        requires running { self.old.status ≡ Status.Running }
        requires first { self.old.rest ≡ cons (repeat (resolved_expression expression.now) (resolved_block block.now)) (after_first self.old.rest) }
        ensures ok { OnOk result (Makes p (does_from p shared.old self.old (repeat (resolved_expression expression.now) (resolved_block block.now))) shared.old shared.new self.new) }
        ensures err { OnErr result (Keeps shared.old shared.new self.old self.new) }
        ensures quiet { IsQuiet (length shared.old.tickets) p self.old.variables.items (repeat (resolved_expression expression.now) (resolved_block block.now)) → IsOk result }
    {
        match self.value(p, shared, expression) {
            Ok(0) => {
                self.rest.advance();
                Ok(())
            }
            Ok(_) => self.rest.enter(block),
            Err(trap) => self.trap(p, shared, trap),
        }
    }

    // The first statement of those that remain.
    fn execute(
        &mut self,
        p: u8,
        shared: &mut SourceMemory,
        statement: &'a Statement,
    ) -> Result<(), NoMemory>
        requires running { self.old.status ≡ Status.Running }
        requires in_range { p < length shared.old.tickets }
        requires scans { All (λ scan. length scan ≡ length shared.old.tickets) self.old.scans.items }
        requires first { self.old.rest ≡ cons (resolved_statement statement.now) (after_first self.old.rest) }
        ensures ok { OnOk result (Makes p (does_from p shared.old self.old (resolved_statement statement.now)) shared.old shared.new self.new) }
        ensures err { OnErr result (Keeps shared.old shared.new self.old self.new) }
        ensures quiet { IsQuiet (length shared.old.tickets) p self.old.variables.items (resolved_statement statement.now) → IsOk result }
    {
        match statement {
            Statement::Assign(x, value) => self.assign(p, shared, *x, value),
            Statement::Get(x, r, place) => self.get(p, shared, *x, *r, place),
            Statement::Put(r, value) => self.put(p, shared, *r, value),
            Statement::Stamp => self.stamp(p, shared),
            Statement::Clear => self.clear(p, shared),
            Statement::Scan(s) => self.take(p, shared, *s),
            Statement::Copy(target, copied) => {
                self.copy(p, shared, *target, *copied);
                Ok(())
            }
            Statement::Older(x, s, first, second) => {
                self.compare(p, shared, *x, *s, first, second)
            }
            Statement::Held(x, s, place) => self.held(p, shared, *x, *s, place),
            Statement::Out(value) => self.give(p, shared, value),
            Statement::If(test, then_block, else_block) => {
                self.branch(p, shared, test, then_block, else_block)
            }
            Statement::While(test, block) => self.repeat(p, shared, test, block),
        }
    }

    /// Makes the next step of process `p`, which this is and which runs.
    pub fn step(&mut self, p: u8, shared: &mut SourceMemory) -> Result<(), NoMemory>
        requires running { self.old.status ≡ Status.Running }
        requires in_range { p < length shared.old.tickets }
        requires scans { All (λ scan. length scan ≡ length shared.old.tickets) self.old.scans.items }
        ensures ok { OnOk result (Makes p (did_from p shared.old self.old) shared.old shared.new self.new) }
        ensures err { OnErr result (Keeps shared.old shared.new self.old self.new) }
        ensures quiet { HasQuietFirst (length shared.old.tickets) p self.old.variables.items self.old.rest → IsOk result }
    {
        match self.rest.first() {
            Some(statement) => self.execute(p, shared, statement),
            None => {
                shared.tell(p, Act::End)?;
                self.status = Status::Ended;
                Ok(())
            }
        }
    }
}
