ghost use Rattle.std.specs.Prelude.{◌≡◌, ◌<◌, ◌≤◌, ◌∷◌, [], length, drop, slice_index, IfOk};
ghost use Rattle.std.specs.Vec.{vec_capacity};
ghost use Rattle.code_machine.specs.prover.Held.{on_stack};

use std::alloc::{AllocError, Global};

/// So many values more than are wanted have room, 128 bytes of them, so that no two processes write to
/// one cache line.
pub const APART: usize = 32;

/// The values of a process, in memory that was taken once.
#[derive(Drop)]
pub struct Stack {
    pub values: Vec<u32>,
}

impl Stack {
    /// An empty stack with room for so many values.
    pub fn new(alloc: Global, room: u16) -> Result<Stack, AllocError>
        ensures empty { IfOk result (λ stack. on_stack stack ≡ []) }
        ensures room { IfOk result (λ stack. room ≤ vec_capacity stack.values) }
    {
        Ok(Stack {
            values: Vec::with_capacity(alloc, usize::from(room) + APART)?,
        })
    }

    /// Puts a value on it.
    #[inline(always)]
    pub fn push(&mut self, value: u32)
        requires { length (on_stack self.old) < vec_capacity self.old.values }
        ensures stack { on_stack self.new ≡ value ∷ on_stack self.old }
        ensures room { vec_capacity self.new.values ≡ vec_capacity self.old.values }
    {
        self.values.push_reserved(value);
    }

    /// Takes so many values off it.
    #[inline(always)]
    pub fn pop(&mut self, count: usize)
        requires { count ≤ length (on_stack self.old) }
        ensures stack { on_stack self.new ≡ drop count (on_stack self.old) }
        ensures room { vec_capacity self.new.values ≡ vec_capacity self.old.values }
    {
        // Each is known to be there, so none is asked for.
        for _ in 0..count {
            self.values.take_last();
        }
    }

    /// The value that so many stand above.
    #[inline(always)]
    pub fn look(&self, above: usize) -> u32
        requires { above < length (on_stack self.now) }
        ensures { result ≡ slice_index (on_stack self.now) above }
    {
        self.values[self.values.len() - 1 - above]
    }
}
