//! From a text to the steps of a schedule, or why it is none. Each item of the text is some steps of one process.
ghost use Rattle.std.specs.Prelude.{◌≡◌, ◌≢◌, ◌+◌, ◌<◌, ◌≤◌, All, IfErr, IfOk, IfSome, OnOk, length, option_map};
ghost use Rattle.std.specs.List.{position};
ghost use Rattle.language_schedules.specs.Schedule.{capped_item, is_star, item_of as item_spelled, item_of_numbers, schedule_of, with_item, with_piece};
ghost use Rattle.language_schedules.specs.prover.Misfits.{IsMisfit};
ghost use Rattle.language_schedules.specs.declared.schedule.ScheduleFault.TheVariants.{NoMemory};

use crate::pieces::{Spelled, read_pieces};
use base::number;
use std::alloc::{AllocFailed, Global};
use std::fmt;
use thiserror::Error;

/// The most steps of a schedule.
const STEP_LIMIT: u64 = 10_000_000;

/// Why a text is no schedule. A place is the offset of the first byte of the first faulty item.
#[derive(Clone, Copy, Debug, PartialEq, Eq, Error)]
pub enum ScheduleFault {
    BadItem(usize),
    NoSuchProcess(usize),
    /// More than 10,000,000 steps.
    TooLong,
    NoMemory,
}

impl ScheduleFault {
    // What is said, and the place that it ends with.
    fn told(self) -> (&'static str, Option<usize>) {
        match self {
            ScheduleFault::BadItem(place) => ("bad item at ", Some(place)),
            ScheduleFault::NoSuchProcess(place) => ("no such process at ", Some(place)),
            ScheduleFault::TooLong => ("too many steps", None),
            ScheduleFault::NoMemory => ("out of memory", None),
        }
    }
}

impl fmt::Display for ScheduleFault {
    fn fmt<W: fmt::Write>(&self, f: &mut fmt::Formatter<W>) -> fmt::Result {
        match self.told() {
            (said, None) => f.write_str(said),
            (said, Some(place)) => write!(f, "{said}{place}"),
        }
    }
}

impl<T: Drop> From<AllocFailed<T>> for ScheduleFault {
    ghost from_gives = { λ _ fault. fault ≡ NoMemory };

    fn from(_error: AllocFailed<T>) -> ScheduleFault {
        ScheduleFault::NoMemory
    }
}

/// What adding steps to others answers.
pub type Added = Result<(), ScheduleFault>;

/// So many steps of one process.
#[derive(Clone, Copy, Debug, PartialEq, Eq)]
pub struct Item {
    pub process: u64,
    pub steps: u64,
}

/// The steps of `n` processes that the text spells, a process number each.
pub fn read_schedule(alloc: Global, text: &str, n: u8) -> Result<Vec<u8>, ScheduleFault>
    ensures ok { IfOk result (λ steps. schedule_of n text.now ≡ Ok steps.items) }
    ensures err { IfErr result (λ fault. fault ≢ NoMemory → schedule_of n text.now ≡ Err fault) }
    ensures in_range { IfOk result (λ steps. All (λ p. p < n) steps.items) }
{
    read_pieces(alloc, text, n)
}

impl Spelled for u8 {
    ghost with = { with_piece };

    fn push_piece(steps: &mut Vec<u8>, place: usize, piece: &[u8], n: u8) -> Added {
        if piece.is_empty() {
            return Ok(());
        }
        match read_item(piece) {
            Some(item) => push_item(steps, place, item, n),
            None => Err(ScheduleFault::BadItem(place)),
        }
    }
}

fn push_item(steps: &mut Vec<u8>, place: usize, item: Item, n: u8) -> Added
    ensures ok { OnOk result (with_item (λ process. process) n place steps.old.items (Some item) ≡ Ok steps.new.items) }
    ensures err { IfErr result (λ fault. fault ≢ NoMemory → with_item (λ process. process) n place steps.old.items (Some item) ≡ Err fault) }
{
    let process = process_of(place, item, n, steps.len())?;
    'steps: for _ in 0..item.steps {
        steps.push(process)?;
    }
    Ok(())
}

/// The process of an item, where there is such a process and its steps are not too many after so many
/// others.
pub fn process_of(place: usize, item: Item, n: u8, steps: usize) -> Result<u8, ScheduleFault>
    ensures ok { IfOk result (λ process. (process ≡ item.process) × (process < n) × (steps + item.steps ≤ 10000000)) }
    ensures err { IfErr result (IsMisfit n place steps item) }
{
    if item.process >= u64::from(n) {
        return Err(ScheduleFault::NoSuchProcess(place));
    }
    if item.steps.saturating_add(steps as u64) > STEP_LIMIT {
        return Err(ScheduleFault::TooLong);
    }
    Ok(item.process as u8)
}

/// The item that a text spells.
pub fn read_item(text: &[u8]) -> Option<Item>
    ensures { result ≡ option_map capped_item (item_spelled text.now) }
{
    match star_in(text) {
        Some(star) => item_of(number(&text[..star]), number(&text[star + 1..])),
        None => item_of(number(text), Some(1)),
    }
}

fn star_in(text: &[u8]) -> Option<usize>
    ensures place { result ≡ position is_star text.now }
    ensures within { IfSome result (λ star. star < length text.now) }
{
    text.iter().position(|byte| *byte == b'*')
}

fn item_of(process: Option<u64>, steps: Option<u64>) -> Option<Item>
    ensures { result ≡ item_of_numbers process steps }
{
    let (process, steps) = (process?, steps?);
    if steps == 0 {
        return None;
    }
    Some(Item { process, steps })
}
