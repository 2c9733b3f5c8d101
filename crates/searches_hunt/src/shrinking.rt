//! `shrink`: leaves items of a schedule out, first in large pieces, while there still is a fault.
ghost use Rattle.std.specs.Prelude.{◌≡◌, ◌-◌, ◌<◌, length, slice_get, IfOk, true};
ghost use Rattle.tick_kinds.specs.Resolution.{resolved};
ghost use Rattle.searches_explore.specs.Lines.{lines_of};
ghost use Rattle.searches_hunt.specs.Hunts.{IsPartOf};
ghost use Rattle.searches_hunt.specs.Never.{NeedsAll};
ghost use Rattle.searches_hunt.specs.prover.Parts.{IsFault, IsLeft};

use crate::leaving::{Spared, place_after, place_of_last, without, without_steps};
use crate::trying::to_fault;
use crate::vain::vain_looks;
use base::NoMemory;
use language_properties::Property;
use searches_explore::needless_steps;
use std::alloc::Global;
use tick_kinds::Program;

/// How many pieces are tried at least before smaller ones are given up.
const ENOUGH_PIECES: usize = 64;

/// How many steps all tries with pieces of one size may take, and how long a schedule is at most whose items are left
/// out one by one: a try begins at the start.
const MOST_STEPS: usize = 8_000_000;

const SHORT: usize = 2_000;

/// A program and the lines that must never hold in its states: they say which schedules lead to a fault.
#[derive(Clone, Copy)]
struct Shrinker<'a> {
    alloc: Global,
    program: &'a Program,
    lines: &'a [Property],
}

// What is left without the items from this place on, so many of all or, with those between, of one process; and
// where the next begin.
fn without_piece(
    alloc: Global,
    schedule: &[u8],
    at: usize,
    of: Option<u8>,
    size: usize,
) -> Result<(usize, Vec<u8>), NoMemory>
    requires place { at < length schedule.now }
    requires size { 0 < size }
    ensures next { IfOk result (λ r. at < r.0) }
    ensures left { IfOk result (λ r. IsLeft r.1.items schedule.now) }
{
    match of {
        Some(p) => {
            let to = place_after(schedule, at, p, size);
            let rest = without_steps(
                alloc,
                schedule,
                Spared::OfProcess {
                    process: p,
                    from: at,
                    to,
                },
            )?;
            Ok((to, rest))
        }
        None => {
            let to = at + usize::min(size, schedule.len() - at);
            let rest = without(alloc, schedule, at, to)?;
            Ok((to, rest))
        }
    }
}

// About how many steps the tries of all pieces of a size take.
fn steps_by(length: usize, size: usize, processes: u8) -> usize
    requires { 0 < size }
{
    let tries = (length / size).saturating_mul(usize::from(processes) + 1);
    tries.saturating_mul(length)
}

// Whether the item before this place is the same: to leave out the one or the other comes to the same.
fn is_as_before(schedule: &[u8], at: usize) -> bool
    requires { at < length schedule.now }
    ensures { result ≡ true → (0 < at) × (slice_get schedule.now at ≡ slice_get schedule.now (at - 1)) }
{
    match at.checked_sub(1) {
        Some(before) => schedule[before] == schedule[at],
        None => false,
    }
}

// What is left without the step of this place, if there is one.
fn without_place(alloc: Global, schedule: Vec<u8>, place: usize) -> Result<Vec<u8>, NoMemory>
    ensures { IfOk result (λ rest. IsLeft rest.items schedule.items) }
{
    if place >= schedule.len() {
        return Ok(schedule);
    }
    without(alloc, &schedule, place, place + 1)
}

// What is left without the steps of these places, each a place among those that are left.
fn without_places(alloc: Global, schedule: &[u8], places: &[usize]) -> Result<Vec<u8>, NoMemory>
    ensures { IfOk result (λ rest. IsLeft rest.items schedule.now) }
{
    let mut rest = Vec::from_slice(alloc, schedule)?;
    for at in 0..places.len() {
        rest = without_place(alloc, rest, places[at])?;
    }
    Ok(rest)
}

impl<'a> Shrinker<'a> {
    ghost use Rattle.std.specs.Prelude.{◌≡◌, ◌<◌, length, IfNone, IfOk, IfSome};
    ghost use Rattle.tick_kinds.specs.Resolution.{resolved};
    ghost use Rattle.searches_explore.specs.Lines.{lines_of};
    ghost use Rattle.searches_hunt.specs.Never.{IsFaultless};
    ghost use Rattle.searches_hunt.specs.prover.Parts.{IsFault, IsFaultOf, IsLeft, IsPassed};

    // What leads to the fault of what is left of a schedule, if it has one and fewer items are left.
    fn fewer(&self, schedule: &[u8], rest: &[u8]) -> Result<Option<Vec<u8>>, NoMemory>
        requires fault { IsFault (resolved self.now.program.now) (lines_of self.now.lines.now) schedule.now }
        requires left { IsLeft rest.now schedule.now }
        ensures fault { IfOk result (λ o. IfSome o (λ fewer. IsFaultOf (resolved self.now.program.now) (lines_of self.now.lines.now) schedule.now fewer.items)) }
        ensures fewer { IfOk result (λ o. IfSome o (λ fewer. length fewer.items < length schedule.now)) }
        ensures none { IfOk result (λ o. IfNone o (length rest.now < length schedule.now → IsFaultless (resolved self.now.program.now) (lines_of self.now.lines.now) rest.now)) }
    {
        if rest.len() >= schedule.len() {
            return Ok(None);
        }
        to_fault(self.alloc, self.program, self.lines, rest)
    }

    // Leaves out each piece without which there still is a fault, from the front on: so many items at once, of all or of
    // one process.
    fn without_pieces(
        &self,
        schedule: Vec<u8>,
        of: Option<u8>,
        size: usize,
    ) -> Result<Vec<u8>, NoMemory>
        requires fault { IsFault (resolved self.now.program.now) (lines_of self.now.lines.now) schedule.items }
        requires size { 0 < size }
        ensures { IfOk result (λ kept. IsFaultOf (resolved self.now.program.now) (lines_of self.now.lines.now) schedule.items kept.items) }
    {
        let mut kept = schedule;
        let mut at = 0;
        'pieces: while at < kept.len() {
            let (to, rest) = without_piece(self.alloc, &kept, at, of, size)?;
            match self.fewer(&kept, &rest)? {
                Some(left) => kept = left,
                None => at = to,
            }
        }
        Ok(kept)
    }

    // Pieces of half the schedule, of a quarter, and so on, of each process and of all, while some can be left out.
    fn in_pieces(&self, schedule: Vec<u8>) -> Result<Vec<u8>, NoMemory>
        requires { IsFault (resolved self.now.program.now) (lines_of self.now.lines.now) schedule.items }
        ensures { IfOk result (λ kept. IsFaultOf (resolved self.now.program.now) (lines_of self.now.lines.now) schedule.items kept.items) }
    {
        let mut kept = schedule;
        let mut size = kept.len();
        'sizes: while size > 0 {
            let before = kept.len();
            kept = self.of_each(kept, size)?;
            if kept.len() == before && before / size >= ENOUGH_PIECES {
                return Ok(kept);
            }
            size = usize::min(size, kept.len()) / 2;
            if size > 0 && steps_by(kept.len(), size, self.program.processes()) > MOST_STEPS {
                return Ok(kept);
            }
        }
        Ok(kept)
    }

    // Pieces of so many steps of each process, and then of so many items.
    fn of_each(&self, schedule: Vec<u8>, size: usize) -> Result<Vec<u8>, NoMemory>
        requires fault { IsFault (resolved self.now.program.now) (lines_of self.now.lines.now) schedule.items }
        requires size { 0 < size }
        ensures { IfOk result (λ kept. IsFaultOf (resolved self.now.program.now) (lines_of self.now.lines.now) schedule.items kept.items) }
    {
        let mut kept = schedule;
        for p in 0..self.program.processes() {
            kept = self.without_pieces(kept, Some(p), size)?;
        }
        self.without_pieces(kept, None, size)
    }

    // Leaves out each item without which there still is a fault, from the front on, and then as many more as can be. If
    // none was left out, the fault needs each.
    fn without_items(&self, schedule: Vec<u8>) -> Result<Vec<u8>, NoMemory>
        requires { IsFault (resolved self.now.program.now) (lines_of self.now.lines.now) schedule.items }
        ensures { IfOk result (λ kept. IsPassed (resolved self.now.program.now) (lines_of self.now.lines.now) schedule.items kept.items) }
    {
        let mut kept = schedule;
        let mut at = 0;
        let mut size = 1;
        'items: while at < kept.len() {
            if is_as_before(&kept, at) {
                at += 1;
            } else {
                let to = at + usize::min(size, kept.len() - at);
                let rest = without(self.alloc, &kept, at, to)?;
                match self.fewer(&kept, &rest)? {
                    Some(left) => {
                        kept = left;
                        size = size.saturating_mul(2);
                    }
                    None => {
                        if size > 1 {
                            size = 1;
                        } else {
                            at = to;
                        }
                    }
                }
            }
        }
        Ok(kept)
    }

    // Leaves out more and more steps of the process of this place, from there on, while there still is a fault.
    fn without_more(&self, schedule: Vec<u8>, at: usize) -> Result<Vec<u8>, NoMemory>
        requires { IsFault (resolved self.now.program.now) (lines_of self.now.lines.now) schedule.items }
        ensures { IfOk result (λ kept. IsFaultOf (resolved self.now.program.now) (lines_of self.now.lines.now) schedule.items kept.items) }
    {
        let mut kept = schedule;
        let mut size = 2;
        'more: while at < kept.len() {
            let p = kept[at];
            let (_, rest) = without_piece(self.alloc, &kept, at, Some(p), size)?;
            match self.fewer(&kept, &rest)? {
                Some(left) => {
                    kept = left;
                    size = size.saturating_mul(2);
                }
                None => return Ok(kept),
            }
        }
        Ok(kept)
    }

    // Leaves out the steps of these places, of which the last is one of a process that may do without more, if there still
    // is a fault; else each item without which there is.
    fn without_needless(&self, schedule: Vec<u8>, places: &[usize]) -> Result<Vec<u8>, NoMemory>
        requires { IsFault (resolved self.now.program.now) (lines_of self.now.lines.now) schedule.items }
        ensures { IfOk result (λ kept. IsPassed (resolved self.now.program.now) (lines_of self.now.lines.now) schedule.items kept.items) }
    {
        let rest = without_places(self.alloc, &schedule, places)?;
        match self.fewer(&schedule, &rest)? {
            Some(left) => {
                let last = places.last().copied().unwrap_or(0);
                self.without_more(left, last)
            }
            None => self.without_items(schedule),
        }
    }

    // One pass over the items. If none was left out, the fault needs each. In a long schedule all items are tried at once.
    fn without_some(&self, schedule: Vec<u8>) -> Result<Vec<u8>, NoMemory>
        requires { IsFault (resolved self.now.program.now) (lines_of self.now.lines.now) schedule.items }
        ensures { IfOk result (λ kept. IsPassed (resolved self.now.program.now) (lines_of self.now.lines.now) schedule.items kept.items) }
    {
        if schedule.len() <= SHORT {
            return self.without_items(schedule);
        }
        match needless_steps(self.alloc, self.program, self.lines, &schedule)? {
            Some(places) => {
                if places.len() == 0 {
                    return Ok(schedule);
                }
                self.without_needless(schedule, &places)
            }
            None => self.without_items(schedule),
        }
    }

    // What is left without the steps with which a process looked in vain, if there still is a fault.
    fn without_vain_looks(&self, schedule: Vec<u8>) -> Result<Vec<u8>, NoMemory>
        requires { IsFault (resolved self.now.program.now) (lines_of self.now.lines.now) schedule.items }
        ensures { IfOk result (λ kept. IsFaultOf (resolved self.now.program.now) (lines_of self.now.lines.now) schedule.items kept.items) }
    {
        if schedule.len() <= SHORT {
            return Ok(schedule);
        }
        let vain = vain_looks(self.alloc, self.program, &schedule)?;
        let rest = without_steps(self.alloc, &schedule, Spared::Marked(&vain))?;
        match self.fewer(&schedule, &rest)? {
            Some(left) => Ok(left),
            None => Ok(schedule),
        }
    }

    // Leaves out the last steps of each process while there still is a fault: more and more of them at once.
    fn without_last(&self, schedule: Vec<u8>) -> Result<Vec<u8>, NoMemory>
        requires { IsFault (resolved self.now.program.now) (lines_of self.now.lines.now) schedule.items }
        ensures { IfOk result (λ kept. IsFaultOf (resolved self.now.program.now) (lines_of self.now.lines.now) schedule.items kept.items) }
    {
        if schedule.len() <= SHORT {
            return Ok(schedule);
        }
        let mut kept = schedule;
        let mut size = 1;
        let mut process = 0;
        'processes: while process < self.program.processes() {
            let from = place_of_last(&kept, process, size);
            let to = kept.len();
            let last = Spared::OfProcess { process, from, to };
            let rest = without_steps(self.alloc, &kept, last)?;
            match self.fewer(&kept, &rest)? {
                Some(left) => {
                    kept = left;
                    size = size.saturating_mul(2);
                }
                None if size > 1 => size = 1,
                None => process += 1,
            }
        }
        Ok(kept)
    }

    // One round: the last steps of each process, and where all are needed one pass. If none was left out, the fault
    // needs each.
    fn one_round(&self, schedule: Vec<u8>) -> Result<Vec<u8>, NoMemory>
        requires { IsFault (resolved self.now.program.now) (lines_of self.now.lines.now) schedule.items }
        ensures { IfOk result (λ kept. IsPassed (resolved self.now.program.now) (lines_of self.now.lines.now) schedule.items kept.items) }
    {
        let before = schedule.len();
        let kept = self.without_last(schedule)?;
        if kept.len() < before {
            return Ok(kept);
        }
        self.without_some(kept)
    }
}

/// Leaves items out while there still is a fault, until the fault can do without none.
pub fn shrink(
    alloc: Global,
    program: &Program,
    lines: &[Property],
    schedule: Vec<u8>,
) -> Result<Vec<u8>, NoMemory>
    requires { IsFault (resolved program.now) (lines_of lines.now) schedule.items }
    ensures fault { IfOk result (λ kept. IsFault (resolved program.now) (lines_of lines.now) kept.items) }
    ensures needed { IfOk result (λ kept. NeedsAll (resolved program.now) (lines_of lines.now) kept.items) }
    ensures part { IfOk result (λ kept. IsPartOf kept.items schedule.items) }
{
    let shrinker = Shrinker {
        alloc,
        program,
        lines,
    };
    let pieces = shrinker.in_pieces(schedule)?;
    let mut kept = shrinker.without_vain_looks(pieces)?;
    let mut before = kept.len() + 1;
    'passes: while kept.len() < before {
        before = kept.len();
        kept = shrinker.one_round(kept)?;
    }
    Ok(kept)
}
