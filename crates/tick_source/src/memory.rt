ghost use Rattle.std.specs.Prelude.{◌≤◌};
ghost use Rattle.std.specs.Vec.{vec_len};
ghost use Rattle.ticket_core.specs.Tickets.{greatest_ticket};

use base::{Act, Event, NoMemory, Registers};
use std::alloc::Global;
use ticket_core::Tickets;

/// What all processes share, and what the run has shown so far.
#[derive(Drop)]
pub struct SourceMemory {
    pub tickets: Tickets,
    pub registers: Registers,
    pub events: Vec<Event>,
    // Each ticket was taken by a step that gave an event.
    ghost counted: { greatest_ticket tickets ≤ vec_len events },
}

impl SourceMemory {
    ghost use Rattle.std.specs.Prelude.{◌≡◌, ◌<◌, ◌≤◌, ◌++◌, ◌∷◌, [], length, OnOk, OnErr, IfOk};
    ghost use Rattle.ticket_core.specs.Tickets.{start_tickets, stamp_ticket, clear_ticket};
    ghost use Rattle.base.specs.RegisterRows.{start_rows, register_set};
    ghost use Rattle.tick_source.specs.prover.Steps.{Shares};

    /// The start for `n` processes: all tickets and registers 0, and no event.
    pub fn new(alloc: Global, n: u8, rows: u8) -> Result<SourceMemory, NoMemory>
        requires at_least_one { 1 ≤ n }
        requires at_most_six { n ≤ 6 }
        ensures tickets { IfOk result (λ s. s.tickets ≡ start_tickets n) }
        ensures registers { IfOk result (λ s. s.registers ≡ start_rows rows n) }
        ensures events { IfOk result (λ s. s.events.items ≡ []) }
    {
        Ok(SourceMemory {
            tickets: Tickets::new(n),
            registers: Registers::new(alloc, rows, n)?,
            events: Vec::new(alloc),
        })
    }

    /// Adds an event.
    pub fn tell(&mut self, process: u8, act: Act) -> Result<(), NoMemory>
        ensures tickets { self.new.tickets ≡ self.old.tickets }
        ensures registers { self.new.registers ≡ self.old.registers }
        ensures ok { OnOk result (self.new.events.items ≡ self.old.events.items ++ record { process = process; act = act } ∷ []) }
        ensures err { OnErr result (self.new.events.items ≡ self.old.events.items) }
    {
        self.events.push(Event { process, act })?;
        Ok(())
    }

    /// Writes the value in row `row` of process `process`.
    pub fn set_register(&mut self, row: u8, process: u8, value: u32)
        ensures tickets { self.new.tickets ≡ self.old.tickets }
        ensures registers { self.new.registers ≡ register_set self.old.registers row process value }
        ensures events { self.new.events.items ≡ self.old.events.items }
    {
        self.registers.set(row, process, value);
    }

    /// Adds the event of a stamp, and gives process `p` the next ticket.
    pub fn stamp(&mut self, p: u8) -> Result<(), NoMemory>
        requires { p < length self.old.tickets }
        ensures registers { self.new.registers ≡ self.old.registers }
        ensures ok_tickets { OnOk result (self.new.tickets ≡ stamp_ticket p self.old.tickets) }
        ensures ok_events { OnOk result (self.new.events.items ≡ self.old.events.items ++ record { process = p; act = Act.Stamp } ∷ []) }
        ensures err { OnErr result (Shares self.old self.new) }
    {
        self.tell(p, Act::Stamp)?;
        self.tickets.stamp(p);
        Ok(())
    }

    /// Adds the event of a clear, and takes process `p` its ticket.
    pub fn clear(&mut self, p: u8) -> Result<(), NoMemory>
        requires { p < length self.old.tickets }
        ensures registers { self.new.registers ≡ self.old.registers }
        ensures ok_tickets { OnOk result (self.new.tickets ≡ clear_ticket p self.old.tickets) }
        ensures ok_events { OnOk result (self.new.events.items ≡ self.old.events.items ++ record { process = p; act = Act.Clear } ∷ []) }
        ensures err { OnErr result (Shares self.old self.new) }
    {
        self.tell(p, Act::Clear)?;
        self.tickets.clear(p);
        Ok(())
    }
}
