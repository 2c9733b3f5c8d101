// The bands of a picture, and which processes have lanes in them.
ghost use Rattle.std.specs.Prelude.{◌≡◌, ◌≤◌, ◌+◌, ◌++◌, IfOk, OnOk};
ghost use Rattle.ticklab_draw.specs.Bands.{bands, first_lanes, lanes_below, lanes_next, lanes_over, with_mark};
ghost use Rattle.ticklab_draw.specs.LaneSets.{all_lanes, is_lane, lane_count, lane_of, lanes_at};

use crate::columns::{Band, Column};
use crate::layout::column_at;
use crate::look::{Look, chosen_count, is_chosen};
use crate::mark::Mark;
use base::{MOST_PROCESSES, set_at};
use std::alloc::{AllocError, Global};

/// The lanes of a band.
#[derive(Clone, Copy)]
pub struct Lanes {
    /// How many lanes stand in the bands above it.
    pub above: u64,
    /// For each process, whether it has a lane.
    pub has: [bool; MOST_PROCESSES],
}

const NO_LANES: [bool; MOST_PROCESSES] = [false; MOST_PROCESSES];

/// The lanes of each band, where the marks have these columns: of the processes of whose marks it shows one.
pub fn bands(
    alloc: Global,
    look: Look,
    n: u8,
    columns: &[Column],
    marks: &[Mark],
) -> Result<Vec<Lanes>, AllocError>
    ensures { IfOk result (λ found. found.items ≡ bands look n columns.now marks.now) }
{
    let mut found = Vec::new(alloc);
    let mut number = 0;
    let mut lanes = first_lanes(look, n, marks);
    for (at, mark) in marks.iter().enumerate() {
        let next = column_at(columns, at).band.number;
        push_over(&mut found, number, next, lanes)?;
        lanes = with_mark(look, mark, lanes_next(number, next, lanes));
        number = next;
    }
    found.push(lanes)?;
    Ok(found)
}

// The first band, before its marks: where no mark is shown, each process has a lane.
#[tactic(auto, using(crate::proofs::Counted::at_most_six))]
fn first_lanes(look: Look, n: u8, marks: &[Mark]) -> Lanes
    ensures lanes { result ≡ first_lanes look n marks.now }
    ensures few { result.above + lane_count result.has ≤ 6 }
{
    let has = if chosen_count(look, marks) == 0 {
        all_lanes(n)
    } else {
        NO_LANES
    };
    Lanes { above: 0, has }
}

fn all_lanes(n: u8) -> [bool; MOST_PROCESSES]
    ensures { result ≡ all_lanes n }
{
    let mut has = NO_LANES;
    for p in 0..n {
        set_at(&mut has, p as usize, true);
    }
    has
}

// Adds a band that is over, since the next mark stands in another.
fn push_over(
    found: &mut Vec<Lanes>,
    number: usize,
    next: usize,
    lanes: Lanes,
) -> Result<(), AllocError>
    ensures { OnOk result (found.new.items ≡ found.old.items ++ lanes_over number next lanes) }
{
    if number != next {
        found.push(lanes)?;
    }
    Ok(())
}

// The band of the next mark.
fn lanes_next(number: usize, next: usize, lanes: Lanes) -> Lanes
    requires few { lanes.above + lane_count lanes.has ≤ 18446744073709551615 }
    ensures next { result ≡ lanes_next number next lanes }
    ensures few { result.above + lane_count result.has ≤ lanes.above + lane_count lanes.has }
{
    if number == next {
        lanes
    } else {
        lanes_below(lanes)
    }
}

// The band below one, before its marks.
fn lanes_below(lanes: Lanes) -> Lanes
    requires few { lanes.above + lane_count lanes.has ≤ 18446744073709551615 }
    ensures below { result ≡ lanes_below lanes }
    ensures few { result.above + lane_count result.has ≤ lanes.above + lane_count lanes.has }
{
    Lanes {
        above: lanes.above + lane_count(&lanes.has) as u64,
        has: NO_LANES,
    }
}

// With a lane of the process of a mark, where that is shown.
#[tactic(auto, using(crate::proofs::Counted::one_more))]
fn with_mark(look: Look, mark: &Mark, lanes: Lanes) -> Lanes
    ensures lanes { result ≡ with_mark look mark.now lanes }
    ensures few { result.above + lane_count result.has ≤ lanes.above + lane_count lanes.has + 1 }
{
    if !is_chosen(look, mark) {
        return lanes;
    }
    let mut has = lanes.has;
    set_at(&mut has, mark.process as usize, true);
    Lanes {
        above: lanes.above,
        has,
    }
}

/// The lanes of a band.
pub fn lanes_at(bands: &[Lanes], band: Band) -> Lanes
    ensures { result ≡ lanes_at bands.now band }
{
    match bands.get(band.number) {
        Some(lanes) => *lanes,
        None => Lanes {
            above: 0,
            has: NO_LANES,
        },
    }
}

/// Whether a process has a lane.
pub fn is_lane(has: &[bool], p: u8) -> bool
    ensures { result ≡ is_lane has.now p }
{
    has.get(p as usize).copied().unwrap_or(false)
}

/// How many lanes stand above that of a process.
pub fn lane_of(has: &[bool], p: u8) -> u8
    ensures lane { result ≡ lane_of has.now p }
    ensures low { result ≤ p }
{
    let mut lane = 0;
    for q in 0..p {
        if is_lane(has, q) {
            lane += 1;
        }
    }
    lane
}

/// How many lanes there are.
pub fn lane_count(has: &[bool]) -> usize
    ensures { result ≡ lane_count has.now }
{
    let mut count = 0;
    for &lane in has {
        if lane {
            count += 1;
        }
    }
    count
}
