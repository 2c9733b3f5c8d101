// What others see of an instruction.

ghost use Rattle.std.specs.Prelude.{◌≡◌, ◌<◌, ℕ, List, is_some, length, slice_get, slice_index, Some};
ghost use Rattle.code_machine.specs.Machine.{made};
ghost use Rattle.code_machine.specs.Safety.{AreOrdered, HasWord};
ghost use Rattle.code_machine.specs.Process.{IsOf, event_of, answered_by, next_of};
ghost use Rattle.code_machine.specs.prover.Held.{does_of};
ghost use Rattle.code_machine.specs.prover.Parts.{moved_as};

use crate::ask::Reply;
use crate::making::index;
use crate::memory::are_same;
use crate::proc::Proc;
use crate::ranks::ranks_of;
use base::{Act, Event, Status};
use code_core::{Code, Instr};
use word_core::LabelWord;

impl Proc {
    // The value that so many stand above.
    #[inline(always)]
    pub(crate) fn look(&self, above: usize) -> u32
        requires { above < length self.now.process.stack }
        ensures { result ≡ slice_index self.now.process.stack above }
    {
        self.stack.look(above)
    }

    #[inline(always)]
    pub(crate) fn event(&self, act: Act) -> Event
        ensures { result ≡ record { process = self.now.me; act = act } }
    {
        Event {
            process: self.me,
            act,
        }
    }

    // What others see of that instruction.
    pub(crate) fn told(&self, code: &Code, instruction: Instr, reply: Reply) -> Option<Event>
        requires of { IsOf code.now self.now }
        requires here { slice_get code.now.instructions self.now.process.place ≡ Some instruction }
        requires word { HasWord code.now.sizes.processes reply }
        ensures { result ≡ event_of self.now.me (answered_by self.now.process (does_of code.now self.now instruction) reply).act }
    {
        match (instruction, reply) {
            (Instr::Exchange(_), Reply::Won) => Some(self.event(Act::Stamp)),
            (Instr::Scan(_), Reply::Word(labels)) => Some(self.event(Act::Scan(ranks_of(&labels)))),
            (Instr::Get(r, _), Reply::Value(value)) => {
                let i = index(code.sizes().processes(), self.look(0))?;
                Some(self.event(Act::Get(r, i, value)))
            }
            (Instr::Put(r), Reply::Written) => Some(self.event(Act::Put(r, self.look(0)))),
            (Instr::Clear, Reply::Cleared) => Some(self.event(Act::Clear)),
            _ => None,
        }
    }

    // Whether the instruction at its place gives an event.
    fn shows(&self, code: &Code, instruction: Instr, labels: &LabelWord) -> bool
        requires of { IsOf code.now self.now }
        requires here { slice_get code.now.instructions self.now.process.place ≡ Some instruction }
        requires labels { AreOrdered code.now.sizes.processes labels.now }
        ensures { (rows : List (List ℕ)) → result ≡ is_some (made labels.now rows (does_of code.now self.now instruction)).act }
    {
        match instruction {
            Instr::Bin(op) => op.apply(self.look(1), self.look(0)).is_err(),
            Instr::Exchange(_) => are_same(labels, &self.scratch),
            Instr::Get(..)
            | Instr::Put(_)
            | Instr::Scan(_)
            | Instr::Older(..)
            | Instr::Held(..)
            | Instr::Clear
            | Instr::Out
            | Instr::Halt => true,
            _ => false,
        }
    }

    // Whether its next step gives an event, where these are the shared labels. The instruction is
    // looked up here once more, since it is asked for where the events have no room alone: a step
    // that has it in hand goes straight from its kind to what it does.
    pub(crate) fn tells(&self, code: &Code, labels: &LabelWord) -> bool
        requires of { IsOf code.now self.now }
        requires labels { AreOrdered code.now.sizes.processes labels.now }
        ensures exact { (rows : List (List ℕ)) → result ≡ is_some (moved_as self.now.process.status self.now.process labels.now rows (next_of code.now self.now)).act }
        ensures running { (rows : List (List ℕ)) → self.now.process.status ≡ Status.Running → result ≡ is_some (made labels.now rows (next_of code.now self.now)).act }
    {
        match self.instruction(code) {
            Some(instruction) => self.shows(code, instruction, labels),
            None => false,
        }
    }
}
