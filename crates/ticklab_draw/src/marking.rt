// The marks of a run, which grow with its steps.
ghost use Rattle.std.specs.Prelude.{◌≡◌, ◌+◌, ◌*◌, [], Some, OnOk, OnErr, option_map};
ghost use Rattle.base.specs.Rows.{padded};
ghost use Rattle.ticklab_draw.specs.declared.mark.Holdings.TheVariants.{Labels};
ghost use Rattle.ticklab_draw.specs.Marks.{last_put, row_put, sight_of, tickets_held, with_act, with_event, with_instruction, with_lost, with_statement};
ghost use Rattle.ticklab_draw.specs.prover.Tables.{IsTable, Notes};

use crate::mark::{Holdings, Mark, Sight};
use base::{Act, Event, MOST_PROCESSES, NoMemory};
use std::alloc::Global;
use std::collections::BTreeMap;
use ticket_core::Tickets;
use ticklab_trace::{InstructionStep, StatementStep};
use word_core::LabelWord;

/// Marks, and where the last put into each register is among them.
#[derive(Drop)]
pub struct Marking {
    pub marks: Vec<Mark>,
    puts: BTreeMap<u16, usize>,
    ghost tabled: { IsTable puts marks.items },
}

impl Marking {
    pub fn new(alloc: Global) -> Marking
        ensures { result.marks.items ≡ [] }
    {
        Marking {
            marks: Vec::new(alloc),
            puts: BTreeMap::new(alloc),
        }
    }

    /// Adds the mark of the step of a program that has this number, where it has one.
    pub fn add_statement(&mut self, number: usize, step: StatementStep) -> Result<(), NoMemory>
        ensures { OnOk result (self.new.marks.items ≡ with_statement number step self.old.marks.items) }
    {
        let held = tickets_held(step.tickets);
        self.add(number, step.process, held, step.act)
    }

    /// The same of a code. An exchange that is lost has a mark too.
    pub fn add_instruction(&mut self, number: usize, step: InstructionStep) -> Result<(), NoMemory>
        ensures { OnOk result (self.new.marks.items ≡ with_instruction number step self.old.marks.items) }
    {
        match step.lost {
            Some(labels) => self.add_lost(number, step.process, Holdings::Labels(labels)),
            None => self.add(number, step.process, labels_held(step.labels), step.act),
        }
    }

    // Adds the mark of an act, where there is one.
    fn add(
        &mut self,
        step: usize,
        process: u8,
        held: Option<Holdings>,
        act: Option<Act>,
    ) -> Result<(), NoMemory>
        ensures { OnOk result (self.new.marks.items ≡ with_act step process held act self.old.marks.items) }
    {
        match act {
            Some(act) => self.add_event(step, held, Event { process, act }),
            None => Ok(()),
        }
    }

    fn add_event(
        &mut self,
        step: usize,
        held: Option<Holdings>,
        event: Event,
    ) -> Result<(), NoMemory>
        ensures { OnOk result (self.new.marks.items ≡ with_event step held event self.old.marks.items) }
    {
        let sight = self.sight_of(held, event.act);
        let process = event.process;
        self.marks.reserve(1)?;
        note(&mut self.puts, event, self.marks.len())?;
        self.marks.push_reserved(Mark {
            step,
            process,
            sight,
        });
        Ok(())
    }

    // Adds the mark of an exchange that is lost.
    fn add_lost(&mut self, step: usize, process: u8, held: Holdings) -> Result<(), NoMemory>
        ensures { OnOk result (self.new.marks.items ≡ with_lost step process held self.old.marks.items) }
    {
        self.marks.reserve(1)?;
        self.marks.push_reserved(Mark {
            step,
            process,
            sight: Sight::Lost(held),
        });
        Ok(())
    }

    fn sight_of(&self, held: Option<Holdings>, act: Act) -> Sight
        ensures { result ≡ sight_of self.now.marks.items act held }
    {
        match (act, held) {
            (Act::Get(row, index, value), _) => {
                Sight::Get(row, index, value, self.last_put(row, index))
            }
            (Act::Stamp, Some(held)) => Sight::Stamp(held),
            (Act::Clear, Some(held)) => Sight::Clear(held),
            _ => Sight::Act(act),
        }
    }

    fn last_put(&self, row: u8, process: u8) -> Option<usize>
        ensures { result ≡ last_put row process self.now.marks.items }
    {
        self.puts.get(&key(row, process)).copied()
    }
}

// The tickets that a step leaves, where it tells them.
fn tickets_held(tickets: Option<Tickets>) -> Option<Holdings>
    ensures { result ≡ option_map tickets_held tickets }
{
    match tickets {
        Some(tickets) => Some(Holdings::Tickets(row_of(&tickets))),
        None => None,
    }
}

// The same of labels.
fn labels_held(labels: Option<LabelWord>) -> Option<Holdings>
    ensures { result ≡ option_map Labels labels }
{
    match labels {
        Some(labels) => Some(Holdings::Labels(labels)),
        None => None,
    }
}

// The ticket of each process, and 0 past the last.
fn row_of(tickets: &Tickets) -> [u64; MOST_PROCESSES]
    ensures { result ≡ padded 6 0 tickets.now }
{
    let mut row = [0; MOST_PROCESSES];
    for process in 0..tickets.count() {
        row[process as usize] = tickets.ticket(process);
    }
    row
}

// Writes down where the event is, if it is a put.
fn note(puts: &mut BTreeMap<u16, usize>, event: Event, at: usize) -> Result<(), NoMemory>
    ensures ok { OnOk result (Notes at event puts.old puts.new) }
    ensures err { OnErr result (puts.new.entries ≡ puts.old.entries) }
{
    match row_put(event.act) {
        Some(row) => {
            puts.insert(key(row, event.process), at)?;
            Ok(())
        }
        None => Ok(()),
    }
}

fn row_put(act: Act) -> Option<u8>
    ensures { result ≡ row_put act }
{
    match act {
        Act::Put(row, _) => Some(row),
        _ => None,
    }
}

// A number of its own for each register.
fn key(row: u8, process: u8) -> u16
    ensures { result ≡ 256 * row + process }
{
    256 * u16::from(row) + u16::from(process)
}
