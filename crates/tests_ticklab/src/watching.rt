//! What a watch is told of a search, and that it changes no answer.
use crate::answering::{explored_by, is_answer};
use searches_explore::{Limits, Watch};
use std::alloc::Global;
use std::test::Fail;
use tests_shared::{counting, is_same};
use ticklab_line::Steps;
use ticklab_verdicts::Progress;

/// Which searches began, which faults were found, and of the last search what was told last, how often, and whether more
/// each time.
#[derive(Drop)]
struct Notes {
    merged: u32,
    single: u32,
    traps: u32,
    breaks: u32,
    times: u32,
    states: u32,
    gone: u32,
    is_more: bool,
}

impl Notes {
    fn new() -> Notes {
        Notes {
            merged: 0,
            single: 0,
            traps: 0,
            breaks: 0,
            times: 0,
            states: 0,
            gone: 0,
            is_more: true,
        }
    }

    // How often, the last number of states that are gone, and whether numbers grew, up to so many states.
    fn told(&self, most: u32) -> (u32, u32, bool) {
        (self.times, self.gone, self.is_more && self.states <= most)
    }
}

impl Watch for Notes {
    ghost hears = { λ before states gone bytes after. Unit {0} };

    fn seen(&mut self, states: u32, gone: u32, bytes: u64) {
        self.times = self.times.saturating_add(1);
        let is_more = states >= self.states && gone >= self.gone && states >= gone;
        self.is_more = self.is_more && is_more && bytes >= u64::from(states) * 4;
        self.states = states;
        self.gone = gone;
    }
}

impl Progress for Notes {
    ghost begins = { λ before is_merged after. Unit {0} };

    // Numbers are those of the search that began last.
    fn begin(&mut self, is_merged: bool) {
        if is_merged {
            self.merged = self.merged.saturating_add(1);
        } else {
            self.single = self.single.saturating_add(1);
        }
        self.times = 0;
        self.states = 0;
        self.gone = 0;
    }

    ghost finds = { λ before is_break after. Unit {0} };

    // Merged steps find it, and single ones don't search yet.
    fn found(&mut self, is_break: bool) {
        self.is_more = self.is_more && self.merged == 1 && self.single == 0;
        if is_break {
            self.breaks = self.breaks.saturating_add(1);
        } else {
            self.traps = self.traps.saturating_add(1);
        }
    }

    fn end(&self) {}
}

const CLEARS: &str = "clear; ";

const LIMITS: Limits = Limits {
    states: 1_000_000,
    bytes: 1_000_000_000,
};

const BOUNDED: &[u8] =
    b"a process traps under this schedule, and where any one step is left out none does; --single looks for a shortest one:\n0*182\n";

const NO_TRAP: &str = "no process traps under any schedule";

// How far each of three processes counts and what else it does each time; and of the search by each of these steps the
// first line up to the number of states, which searches began, how often numbers were told of the last, and how many
// states were gone then.
type Row = (
    u32,
    &'static str,
    &'static [Steps],
    &'static str,
    (u32, u32),
    (u32, u32),
);

static ROWS: [Row; 3] = [
    // A process is before its test with each number up to 24, before its assignment with each up to 23, has
    // nothing left, or has ended: 51 states, so three have 51 * 51 * 51.
    (
        24,
        "",
        &[Steps::Single],
        "132651 states",
        (0, 1),
        (3, 132_651),
    ),
    // all its steps are private
    (
        24,
        "",
        &[Steps::Merged, Steps::MergedFirst],
        "8 merged states",
        (1, 0),
        (1, 8),
    ),
    // Between merged steps a process stands at its start, before its `clear` with each number from 1 to 40,
    // or at its end: 42 states, so three have 42 * 42 * 42.
    (
        40,
        CLEARS,
        &[Steps::Merged, Steps::MergedFirst],
        "74088 merged states",
        (1, 0),
        (2, 74_088),
    ),
];

fn tells(alloc: Global, text: &str, steps: Steps, row: &Row) -> Result<(), Fail> {
    let (_, _, _, states, begun, told) = *row;
    let mut notes = Notes::new();
    let answered = explored_by(alloc, text.as_bytes(), LIMITS, steps, &mut notes);
    is_answer(
        answered,
        0,
        &format!(in alloc; "{NO_TRAP} ({states})\n")?,
        "",
    )?;
    is_same(&(notes.merged, notes.single), &begun)?;
    is_same(&(notes.traps, notes.breaks), &(0, 0))?;
    is_same(&notes.told(1_000_000), &(told.0, told.1, true))
}

#[test]
fn each_65536_states(rt: HostRuntime) -> Result<(), Fail> {
    for row in &ROWS {
        let (most, each, by, ..) = *row;
        let text = counting(rt.alloc(), most, each, "")?;
        for steps in by {
            tells(rt.alloc(), &text, *steps, row)?;
        }
    }
    Ok(())
}

// After 122 steps each process traps: merged steps find it, and then single ones search.
#[test]
fn both_searches(rt: HostRuntime) -> Result<(), Fail> {
    let alloc = rt.alloc();
    let text = counting(alloc, 40, CLEARS, "  x = (1 / 0);\n")?;
    let mut notes = Notes::new();
    let answered = explored_by(
        alloc,
        text.as_bytes(),
        LIMITS,
        Steps::MergedFirst,
        &mut notes,
    )?;
    is_same(&answered.status, &5)?;
    is_same(&(notes.merged, notes.single), &(1, 1))?;
    is_same(&(notes.traps, notes.breaks), &(1, 0))?;
    is_same(&(notes.gone > 0 && notes.is_more), &true)
}

#[test]
fn a_line_that_breaks(rt: HostRuntime) -> Result<(), Fail> {
    let mut notes = Notes::new();
    let text = "processes 2;\nreg r;\nbegin put r 1; end\n#! never r[1]\n";
    let steps = Steps::MergedFirst;
    let answered = explored_by(rt.alloc(), text.as_bytes(), LIMITS, steps, &mut notes)?;
    is_same(&answered.status, &5)?;
    is_same(&(notes.merged, notes.single), &(1, 1))?;
    is_same(&(notes.traps, notes.breaks), &(0, 1))?;
    is_same(&notes.is_more, &true)
}

// Each process traps after 182 steps. Merged steps come to eight states, and single ones would come to more than 1,000,000
// before they find the trap.
#[test]
fn a_million_states_and_no_more(rt: HostRuntime) -> Result<(), Fail> {
    let alloc = rt.alloc();
    let text = counting(alloc, 90, "", "  x = (1 / 0);\n")?;
    let limits = Limits {
        states: 10_000_000,
        ..LIMITS
    };
    let mut notes = Notes::new();
    let steps = Steps::MergedFirst;
    let answered = explored_by(alloc, text.as_bytes(), limits, steps, &mut notes)?;
    is_same(&answered.out.starts_with(BOUNDED), &true)?;
    is_same(&(notes.merged, notes.single), &(1, 1))?;
    is_same(&notes.states, &1_000_000)
}
