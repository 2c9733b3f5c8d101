// How a process goes on by the reply to what it asked for.

ghost use Rattle.std.specs.Prelude.{◌≡◌, ℕ, slice_get, slice_index, Some};
ghost use Rattle.code_machine.specs.Machine.{gets, loads, exchanges, scans, writes, clears};
ghost use Rattle.code_machine.specs.Process.{IsOf, answered_by};
ghost use Rattle.code_machine.specs.prover.Held.{does_of, Becomes, Finds};

use crate::ask::Reply;
use crate::proc::Proc;
use code_core::{Code, Instr};

impl Proc {
    // The shared labels go to the scratch.
    #[inline(always)]
    fn finish_load(&mut self, reply: Reply)
        requires { Finds self.old Instr.LoadWord }
        ensures { Becomes self.old (loads self.old.process reply).process self.new }
    {
        if let Reply::Word(labels) = reply {
            self.scratch = labels;
            self.place += 1;
        }
    }

    #[inline(always)]
    fn finish_exchange(&mut self, back: u16, reply: Reply)
        requires { Finds self.old (Instr.Exchange back) }
        ensures { Becomes self.old (exchanges self.old.process back reply).process self.new }
    {
        match reply {
            Reply::Won => self.place += 1,
            Reply::Lost(_) => self.place = back,
            _ => {}
        }
    }

    #[inline(always)]
    fn finish_scan(&mut self, s: u8, reply: Reply)
        requires { Finds self.old (Instr.Scan s) }
        ensures { (n : ℕ) → Becomes self.old (scans self.old.process n s reply).process self.new }
    {
        if let Reply::Word(labels) = reply {
            self.keep(s, labels);
        }
    }

    #[inline(always)]
    fn finish_get(&mut self, n: u8, r: u8, x: u8, reply: Reply)
        requires { Finds self.old (Instr.Get r x) }
        ensures { Becomes self.old (answered_by self.old.process (gets self.old.process n r (slice_index self.old.process.stack 0) x) reply).process self.new }
    {
        let asked = self.look(0) < u32::from(n);
        if let Reply::Value(value) = reply
            && asked
        {
            self.set(x, value, 1);
        }
    }

    #[inline(always)]
    fn finish_put(&mut self, r: u8, reply: Reply)
        requires { Finds self.old (Instr.Put r) }
        ensures { Becomes self.old (writes self.old.process r (slice_index self.old.process.stack 0) reply).process self.new }
    {
        if let Reply::Written = reply {
            self.stack.pop(1);
            self.place += 1;
        }
    }

    #[inline(always)]
    fn finish_clear(&mut self, reply: Reply)
        requires { Finds self.old Instr.Clear }
        ensures { Becomes self.old (clears self.old.process reply).process self.new }
    {
        if let Reply::Cleared = reply {
            self.place += 1;
        }
    }

    /// The instruction at its place, which asked and has its reply.
    #[inline(always)]
    pub(crate) fn take_reply(&mut self, code: &Code, instruction: Instr, reply: Reply)
        requires of { IsOf code.now self.old }
        requires here { slice_get code.now.instructions self.old.process.place ≡ Some instruction }
        ensures { Becomes self.old (answered_by self.old.process (does_of code.now self.old instruction) reply).process self.new }
    {
        self.finds(code, instruction);
        match instruction {
            Instr::LoadWord => self.finish_load(reply),
            Instr::Exchange(back) => self.finish_exchange(back, reply),
            Instr::Scan(s) => self.finish_scan(s, reply),
            Instr::Get(r, x) => self.finish_get(code.sizes().processes(), r, x, reply),
            Instr::Put(r) => self.finish_put(r, reply),
            Instr::Clear => self.finish_clear(reply),
            _ => {}
        }
    }
}
