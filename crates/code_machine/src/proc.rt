//! `Proc`: one process of a code by itself. It asks for what is shared, and goes on by the reply.
ghost use Rattle.std.specs.Prelude.{◌≡◌, ◌≢◌, ◌<◌, slice_get, replicate, Some, IfOk, IfErr, IfSome, IfNone};
ghost use Rattle.std.specs.Vec.{vec_items};
ghost use Rattle.code_machine.specs.Machine.{start_process};
ghost use Rattle.code_machine.specs.Safety.{HasWord};
ghost use Rattle.code_machine.specs.Process.{IsOf, event_of, advance_of, after_advance, answered_by, advance_as, after_advance_as, answered_as, AsksLawfully, next_of, gives_out};

use crate::ask::{Advance, Reply};
use crate::stack::{APART, Stack};
use base::{Event, Status};
use code_core::{Code, CodeFault, Instr};
use std::alloc::{AllocError, Global};
use std::marker::Model;
use word_core::LabelWord;

/// One process of a code, which asks for what it needs of the words that all processes share. It
/// takes all its memory at once. Each of its calls wants the code that it was made of.
#[derive(Drop)]
pub struct Proc {
    pub(crate) me: u8,
    pub(crate) place: u16,
    pub(crate) stack: Stack,
    pub(crate) variables: Vec<u32>,
    pub(crate) scans: Vec<LabelWord>,
    pub(crate) scratch: LabelWord,
    pub(crate) beside: LabelWord,
    pub(crate) status: Status,
}

impl Model for Proc {
    ghost use Rattle.code_machine.specs.Process.{OneProcess};
    ghost use Rattle.code_machine.specs.prover.Held.{one_of};

    ghost Value = { OneProcess };

    ghost view = { one_of };
}

// So many of the item, away from what another process writes.
fn apart<T: Copy>(alloc: Global, item: T, count: u8) -> Result<Vec<T>, AllocError>
    ensures { IfOk result (λ items. vec_items items ≡ replicate count item) }
{
    let mut items = Vec::with_capacity(alloc, usize::from(count) + APART)?;
    items.resize(usize::from(count), item)?;
    Ok(items)
}

impl Proc {
    /// Process `p` before its first step, with room for the values of every place of the code.
    pub fn new(alloc: Global, code: &Code, p: u8) -> Result<Proc, CodeFault>
        requires { p < code.now.sizes.processes }
        ensures me { IfOk result (λ one. one.me ≡ p) }
        ensures start { IfOk result (λ one. one.process ≡ start_process code.now.sizes) }
        ensures of { IfOk result (IsOf code.now) }
        ensures err { IfErr result (λ fault. fault ≡ CodeFault.NoMemory) }
    {
        Ok(Proc::at_start(alloc, code, p)?)
    }

    /// As `new`, for whoever hands on that memory was refused.
    pub fn at_start(alloc: Global, code: &Code, p: u8) -> Result<Proc, AllocError>
        requires { p < code.now.sizes.processes }
        ensures me { IfOk result (λ one. one.me ≡ p) }
        ensures start { IfOk result (λ one. one.process ≡ start_process code.now.sizes) }
        ensures of { IfOk result (IsOf code.now) }
    {
        let sizes = code.sizes();
        let start = LabelWord::start(sizes.processes());
        Ok(Proc {
            me: p,
            place: 0,
            stack: Stack::new(alloc, code.height())?,
            variables: apart(alloc, 0, sizes.variables())?,
            scans: apart(alloc, start, sizes.scans())?,
            scratch: start,
            beside: start,
            status: Status::Running,
        })
    }

    /// Makes its next instruction; where that needs something shared, tells what it asks for and
    /// changes nothing.
    pub fn advance(&mut self, code: &Code) -> Advance
        requires { IsOf code.now self.old }
        ensures answer { result ≡ advance_as self.old.process.status self.old.me (next_of code.now self.old) }
        ensures process { self.new.process ≡ after_advance_as self.old.process.status self.old.process (next_of code.now self.old) }
        ensures me { self.new.me ≡ self.old.me }
        ensures of { IsOf code.now self.new }
        ensures lawful { AsksLawfully code.now.sizes self.old.me result }
    {
        match self.instruction(code) {
            Some(instruction) => self.make(code, instruction),
            None => Advance::Stopped,
        }
    }

    /// Makes its next instruction by the reply to what it asked for. A reply to something else
    /// changes nothing.
    pub fn answer(&mut self, code: &Code, reply: Reply) -> Option<Event>
        requires of { IsOf code.now self.old }
        requires word { HasWord code.now.sizes.processes reply }
        ensures event { result ≡ event_of self.old.me (answered_as self.old.process.status self.old.process (next_of code.now self.old) reply).act }
        ensures process { self.new.process ≡ (answered_as self.old.process.status self.old.process (next_of code.now self.old) reply).process }
        ensures me { self.new.me ≡ self.old.me }
        ensures of { IsOf code.now self.new }
    {
        let instruction = self.instruction(code)?;
        let again = reply;
        let event = self.told(code, instruction, again);
        self.finish(code, instruction, reply);
        event
    }

    /// The instruction that it makes next; `None` where it has stopped.
    #[inline(always)]
    pub fn instruction(&self, code: &Code) -> Option<Instr>
        requires { IsOf code.now self.now }
        ensures running { IfSome result (λ instruction. self.now.process.status ≡ Status.Running) }
        ensures here { IfSome result (λ instruction. slice_get code.now.instructions self.now.process.place ≡ Some instruction) }
        ensures stopped { IfNone result (self.now.process.status ≢ Status.Running) }
    {
        match self.status {
            Status::Running => Some(code.instr(self.place)),
            _ => None,
        }
    }

    /// Makes this instruction, the next of a process that has not stopped, as `advance` does. With
    /// `finish` it is for whoever steps one process as fast as can be: the code is looked at once.
    #[inline(always)]
    pub fn make(&mut self, code: &Code, instruction: Instr) -> Advance
        requires of { IsOf code.now self.old }
        requires running { self.old.process.status ≡ Status.Running }
        requires here { slice_get code.now.instructions self.old.process.place ≡ Some instruction }
        ensures answer { result ≡ advance_of self.old.me (next_of code.now self.old) }
        ensures process { self.new.process ≡ after_advance self.old.process (next_of code.now self.old) }
        ensures me { self.new.me ≡ self.old.me }
        ensures of { IsOf code.now self.new }
        ensures lawful { AsksLawfully code.now.sizes self.old.me result }
    {
        self.perform(code, instruction)
    }

    /// Makes this instruction, which asked, by the reply, as `answer` does. What others see of it is
    /// not told.
    #[inline(always)]
    pub fn finish(&mut self, code: &Code, instruction: Instr, reply: Reply)
        requires of { IsOf code.now self.old }
        requires running { self.old.process.status ≡ Status.Running }
        requires here { slice_get code.now.instructions self.old.process.place ≡ Some instruction }
        requires word { HasWord code.now.sizes.processes reply }
        ensures process { self.new.process ≡ (answered_by self.old.process (next_of code.now self.old) reply).process }
        ensures me { self.new.me ≡ self.old.me }
        ensures of { IsOf code.now self.new }
    {
        self.take_reply(code, instruction, reply);
    }

    /// Whether it goes on.
    #[inline(always)]
    pub fn status(&self) -> Status
        ensures { result ≡ self.now.process.status }
    {
        self.status
    }

    pub(crate) fn place(&self) -> u16
        ensures { result ≡ self.now.process.place }
    {
        self.place
    }

    /// Whether it runs and its next instruction gives out a value.
    #[inline(always)]
    pub fn will_out(&self, code: &Code) -> bool
        requires { IsOf code.now self.now }
        ensures { result ≡ gives_out self.now.process.status (slice_get code.now.instructions self.now.process.place) }
    {
        matches!(self.instruction(code), Some(Instr::Out))
    }
}
