//! Runs on threads that keep an order of their steps on what is shared.

use crate::history::history_of;
use crate::notes::Note;
use crate::programs::Small;
use code_machine::{Ask, Code};
use std::alloc::{AllocError, Global};
use std::sync::Wait;
use std::sync::atomic::AtomicU64;
use std::sync::atomic::Ordering::SeqCst;
use std::test::Fail;
use std::thread::Threads;
use tests_shared::{Polls, is_same};
use tick_merge::Shared;
use tick_run::{Gate, RunOutcome, run};

// The order, room for a note of each step, and how many steps were made.
#[derive(Drop)]
struct Plan<'a> {
    order: &'a [u8],
    notes: &'a [Note],
    made: AtomicU64,
    polls: Polls,
}

// Before each step it waits until all steps that come before it in the order were made, and then notes
// what is asked for. That a step of its own was made it tells at its next call, or when it is let go.
struct InOrder<'a> {
    plan: &'a Plan<'a>,
    next: usize,
    is_making: bool,
}

impl InOrder<'_> {
    fn tells(&mut self) {
        if self.is_making {
            self.plan.made.fetch_add(1, SeqCst);
        }
        self.is_making = false;
    }

    // Its step has this place in the order.
    fn comes_to(&mut self, place: usize, ask: Ask) {
        self.plan.polls.wait(&self.plan.made, place as u64);
        self.next = place.saturating_add(1);
        self.is_making = true;
        if let Some(note) = self.plan.notes.get(place) {
            note.take(ask);
        }
    }
}

impl Gate for InOrder<'_> {
    fn before(&mut self, p: u8, ask: Ask) {
        self.tells();
        for place in self.next..self.plan.order.len() {
            if self.plan.order.get(place) == Some(&p) {
                self.comes_to(place, ask);
                return;
            }
        }
    }
}

impl Drop for InOrder<'_> {
    fn drop(mut self) {
        self.tells();
        let Self {
            plan: _,
            next: _,
            is_making: _,
        } = self;
    }
}

fn room_for(alloc: Global, steps: usize) -> Result<Vec<Note>, AllocError> {
    let mut notes = Vec::new(alloc);
    for _ in 0..steps {
        notes.push(Note::new())?;
    }
    Ok(notes)
}

fn gates<'a>(alloc: Global, n: u8, plan: &'a Plan<'a>) -> Result<Vec<InOrder<'a>>, AllocError> {
    let mut gates = Vec::new(alloc);
    for _ in 0..n {
        gates.push(InOrder {
            plan,
            next: 0,
            is_making: false,
        })?;
    }
    Ok(gates)
}

fn run_noted<R: AllocGlobal + Threads + Wait>(
    rt: &R,
    code: &Code,
    small: &Small,
    plan: &Plan<'_>,
) -> Result<RunOutcome, Fail> {
    let gates = gates(rt.alloc(), code.sizes().processes(), plan)?;
    if gates.len() != code.sizes().processes() as usize {
        return Err(Fail::from("a gate for each process"));
    }
    Ok(run(rt, rt.alloc(), code, gates, small.1, small.2)?)
}

/// What a run comes to whose threads keep the order, and the history of its steps.
pub fn run_in_order<R: AllocGlobal + Threads + Wait>(
    rt: &R,
    code: &Code,
    small: &Small,
    order: &[u8],
) -> Result<(RunOutcome, Vec<Shared>), Fail> {
    let notes = room_for(rt.alloc(), order.len())?;
    let plan = Plan {
        order,
        notes: &notes,
        made: AtomicU64::new(0),
        polls: Polls::new(),
    };
    let outcome = run_noted(rt, code, small, &plan)?;
    let found = (plan.polls.all_came(), plan.made.load(SeqCst));
    is_same(&found, &(true, order.len() as u64))?;
    Ok((outcome, history_of(rt.alloc(), order, &notes)?))
}
