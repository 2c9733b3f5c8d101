// What an instruction does to its process alone, and what the process asks for.

ghost use Rattle.std.specs.Prelude.{◌≡◌, ◌<◌, ◌≤◌, ◌+◌, ◌==◌, ◌∷◌, ℕ, nat_lt, if◌then◌else◌, length, drop, slice_get, slice_index, Some, None};
ghost use Rattle.base.specs.Operators.{operation};
ghost use Rattle.word_core.specs.Order.{IsOrdered};
ghost use Rattle.code_machine.specs.Machine.{alone, goes, goes_on, stops, results, sets, keeps, scan_at, stamps, gets, compares, tells_held};
ghost use Rattle.code_machine.specs.Process.{IsOf, advance_of, after_advance};
ghost use Rattle.code_machine.specs.prover.Held.{does_of, Becomes, Finds};

use crate::ask::{Advance, Ask};
use crate::proc::Proc;
use base::{Act, Op, Status, Trap};
use code_core::{Code, Instr};
use word_core::LabelWord;

// The number of a process as a value says it, where one of `n` processes has it.
#[inline(always)]
pub fn index(n: u8, value: u32) -> Option<u8>
    ensures { result ≡ (if nat_lt value n then Some value else None) }
{
    if value < u32::from(n) {
        Some(value as u8)
    } else {
        None
    }
}

impl Proc {
    // Stops, by a trap or at the end.
    #[inline(always)]
    fn stop(&mut self, status: Status, act: Act) -> Advance
        ensures answer { result ≡ advance_of self.old.me (alone (stops self.old.process status act)) }
        ensures becomes { Becomes self.old (stops self.old.process status act).process self.new }
    {
        self.status = status;
        Advance::Did(self.event(act))
    }

    #[inline(always)]
    fn push(&mut self, value: u32) -> Advance
        requires room { length self.old.process.stack < self.old.room }
        requires more { self.old.process.place < 65535 }
        ensures answer { result ≡ Advance.Silent }
        ensures becomes { Becomes self.old (goes_on self.old.process (value ∷ self.old.process.stack) None).process self.new }
    {
        self.stack.push(value);
        self.place += 1;
        Advance::Silent
    }

    // The operator between the two top values.
    #[inline(always)]
    fn operate(&mut self, op: Op) -> Advance
        requires { Finds self.old (Instr.Bin op) }
        ensures answer { result ≡ advance_of self.old.me (alone (results self.old.process (drop 2 self.old.process.stack) (operation op (slice_index self.old.process.stack 1) (slice_index self.old.process.stack 0)))) }
        ensures becomes { Becomes self.old (results self.old.process (drop 2 self.old.process.stack) (operation op (slice_index self.old.process.stack 1) (slice_index self.old.process.stack 0))).process self.new }
    {
        let right = self.look(0);
        let left = self.look(1);
        match op.apply(left, right) {
            Ok(value) => {
                self.stack.pop(2);
                self.push(value)
            }
            Err(trap) => self.stop(Status::Trapped(trap), Act::Trap(trap)),
        }
    }

    // Takes so many values off the stack, and goes on with a value in a variable.
    #[inline(always)]
    pub(crate) fn set(&mut self, x: u8, value: u32, taken: usize)
        requires operands { taken ≤ length self.old.process.stack }
        requires slot { x < length self.old.process.variables }
        requires more { self.old.process.place < 65535 }
        ensures { Becomes self.old (sets self.old.process x value (drop taken self.old.process.stack) None).process self.new }
    {
        self.stack.pop(taken);
        self.variables[usize::from(x)] = value;
        self.place += 1;
    }

    #[inline(always)]
    fn store(&mut self, x: u8) -> Advance
        requires { Finds self.old (Instr.Store x) }
        ensures answer { result ≡ Advance.Silent }
        ensures becomes { Becomes self.old (sets self.old.process x (slice_index self.old.process.stack 0) (drop 1 self.old.process.stack) None).process self.new }
    {
        let value = self.look(0);
        self.set(x, value, 1);
        Advance::Silent
    }

    // Asks for the register of a row of the process that the top value tells.
    #[inline(always)]
    fn ask_register(&mut self, n: u8, r: u8, x: u8) -> Advance
        requires { Finds self.old (Instr.Get r x) }
        ensures answer { result ≡ advance_of self.old.me (gets self.old.process n r (slice_index self.old.process.stack 0) x) }
        ensures becomes { Becomes self.old (after_advance self.old.process (gets self.old.process n r (slice_index self.old.process.stack 0) x)) self.new }
    {
        match index(n, self.look(0)) {
            Some(i) => Advance::Ask(Ask::Get(r, i)),
            None => self.stop(Status::Trapped(Trap::Index), Act::Trap(Trap::Index)),
        }
    }

    // Puts beside the scratch what a stamp makes of it.
    #[inline(always)]
    fn stamp(&mut self) -> Advance
        requires found { Finds self.old Instr.Next }
        requires in_range { self.old.me < length self.old.process.scratch }
        requires ordered { IsOrdered self.old.process.scratch }
        ensures answer { result ≡ Advance.Silent }
        ensures becomes { Becomes self.old (stamps self.old.process self.old.me).process self.new }
    {
        // A copy, so that the process itself is lent to no call.
        let labels = self.scratch;
        self.beside = labels.stamped(self.me);
        self.place += 1;
        Advance::Silent
    }

    // Puts labels into a scan, and goes on.
    #[inline(always)]
    pub(crate) fn keep(&mut self, s: u8, labels: LabelWord)
        requires slot { s < length self.old.process.scans }
        requires more { self.old.process.place < 65535 }
        ensures { Becomes self.old (keeps self.old.process s labels None).process self.new }
    {
        self.scans[usize::from(s)] = labels;
        self.place += 1;
    }

    #[inline(always)]
    fn copy(&mut self, s: u8, t: u8) -> Advance
        requires { Finds self.old (Instr.Copy s t) }
        ensures answer { result ≡ Advance.Silent }
        ensures becomes { (n : ℕ) → Becomes self.old (keeps self.old.process t (scan_at self.old.process n s) None).process self.new }
    {
        let labels = self.scans[usize::from(s)];
        self.keep(t, labels);
        Advance::Silent
    }

    // Compares the labels of the two processes that the top values tell.
    #[inline(always)]
    fn compare(&mut self, n: u8, s: u8, x: u8) -> Advance
        requires found { Finds self.old (Instr.Older s x) }
        requires labels { length (scan_at self.old.process n s) ≡ n }
        ensures answer { result ≡ advance_of self.old.me (alone (compares self.old.process n s (slice_index self.old.process.stack 1) (slice_index self.old.process.stack 0) x)) }
        ensures becomes { Becomes self.old (compares self.old.process n s (slice_index self.old.process.stack 1) (slice_index self.old.process.stack 0) x).process self.new }
    {
        let (Some(i), Some(j)) = (index(n, self.look(1)), index(n, self.look(0))) else {
            return self.stop(Status::Trapped(Trap::Index), Act::Trap(Trap::Index));
        };
        let answer = u8::from(self.scans[usize::from(s)].older(i, j));
        self.set(x, u32::from(answer), 2);
        Advance::Did(self.event(Act::Older(i, j, answer)))
    }

    // Looks whether the process that the top value tells is present in a scan.
    #[inline(always)]
    fn look_for(&mut self, n: u8, s: u8, x: u8) -> Advance
        requires found { Finds self.old (Instr.Held s x) }
        requires labels { length (scan_at self.old.process n s) ≡ n }
        ensures answer { result ≡ advance_of self.old.me (alone (tells_held self.old.process n s (slice_index self.old.process.stack 0) x)) }
        ensures becomes { Becomes self.old (tells_held self.old.process n s (slice_index self.old.process.stack 0) x).process self.new }
    {
        let Some(i) = index(n, self.look(0)) else {
            return self.stop(Status::Trapped(Trap::Index), Act::Trap(Trap::Index));
        };
        let answer = u8::from(self.scans[usize::from(s)].held(i));
        self.set(x, u32::from(answer), 1);
        Advance::Did(self.event(Act::Held(i, answer)))
    }

    #[inline(always)]
    fn give_out(&mut self) -> Advance
        requires { Finds self.old Instr.Out }
        ensures answer { result ≡ advance_of self.old.me (alone (goes_on self.old.process (drop 1 self.old.process.stack) (Some (Act.Out (slice_index self.old.process.stack 0))))) }
        ensures becomes { Becomes self.old (goes_on self.old.process (drop 1 self.old.process.stack) None).process self.new }
    {
        let value = self.look(0);
        self.stack.pop(1);
        self.place += 1;
        Advance::Did(self.event(Act::Out(value)))
    }

    #[inline(always)]
    fn jump_zero(&mut self, to: u16) -> Advance
        requires { Finds self.old (Instr.JumpZero to) }
        ensures answer { result ≡ Advance.Silent }
        ensures becomes { Becomes self.old (goes self.old.process (if slice_index self.old.process.stack 0 == 0 then to else self.old.process.place + 1) (drop 1 self.old.process.stack) None).process self.new }
    {
        let value = self.look(0);
        self.stack.pop(1);
        self.place = if value == 0 { to } else { self.place + 1 };
        Advance::Silent
    }

    #[inline(always)]
    fn jump(&mut self, to: u16) -> Advance
        ensures answer { result ≡ Advance.Silent }
        ensures becomes { Becomes self.old (goes self.old.process to self.old.process.stack None).process self.new }
    {
        self.place = to;
        Advance::Silent
    }

    #[inline(always)]
    fn load(&mut self, x: u8) -> Advance
        requires { Finds self.old (Instr.Load x) }
        ensures answer { result ≡ Advance.Silent }
        ensures becomes { Becomes self.old (goes_on self.old.process (slice_index self.old.process.variables x ∷ self.old.process.stack) None).process self.new }
    {
        let value = self.variables[usize::from(x)];
        self.push(value)
    }

    #[inline(always)]
    fn ask_write(&self, r: u8) -> Advance
        requires { Finds self.now (Instr.Put r) }
        ensures { result ≡ Advance.Ask (Ask.Put r (slice_index self.now.process.stack 0)) }
    {
        Advance::Ask(Ask::Put(r, self.look(0)))
    }

    // Does nothing. With it comes what the instruction at its place finds.
    #[inline(always)]
    pub(crate) fn finds(&self, _code: &Code, _instruction: Instr)
        requires of { IsOf _code.now self.now }
        requires here { slice_get _code.now.instructions self.now.process.place ≡ Some _instruction }
        ensures { Finds self.now _instruction }
    {}

    /// The instruction at its place: makes it, or asks.
    #[inline(always)]
    pub(crate) fn perform(&mut self, code: &Code, instruction: Instr) -> Advance
        requires of { IsOf code.now self.old }
        requires here { slice_get code.now.instructions self.old.process.place ≡ Some instruction }
        ensures answer { result ≡ advance_of self.old.me (does_of code.now self.old instruction) }
        ensures becomes { Becomes self.old (after_advance self.old.process (does_of code.now self.old instruction)) self.new }
    {
        self.finds(code, instruction);
        match instruction {
            Instr::Push(value) => self.push(value),
            Instr::Load(x) => self.load(x),
            Instr::Me => self.push(u32::from(self.me)),
            Instr::Count => self.push(u32::from(code.sizes().processes())),
            Instr::Bin(op) => self.operate(op),
            Instr::Store(x) => self.store(x),
            Instr::Get(r, x) => self.ask_register(code.sizes().processes(), r, x),
            Instr::Put(r) => self.ask_write(r),
            Instr::LoadWord => Advance::Ask(Ask::LoadWord),
            Instr::Next => self.stamp(),
            Instr::Exchange(_) => Advance::Ask(Ask::Exchange(self.scratch, self.beside)),
            Instr::Scan(_) => Advance::Ask(Ask::Scan),
            Instr::Copy(s, t) => self.copy(s, t),
            Instr::Older(s, x) => self.compare(code.sizes().processes(), s, x),
            Instr::Out => self.give_out(),
            Instr::JumpZero(to) => self.jump_zero(to),
            Instr::Jump(to) => self.jump(to),
            Instr::Halt => self.stop(Status::Ended, Act::End),
            Instr::Clear => Advance::Ask(Ask::Clear),
            Instr::Held(s, x) => self.look_for(code.sizes().processes(), s, x),
        }
    }
}
