// The mark of a property that must never hold, and does.
ghost use Rattle.std.specs.Prelude.{◌≡◌, ◌++◌, OnOk, option_map};
ghost use Rattle.ticklab_draw.specs.Never.{broken_of, dashed_line, marks_within, moment_text, never_behind, never_label, never_text, never_title, never_words, value_text};

use crate::bands::Lanes;
use crate::columns::Column;
use crate::layout::{LINE_BEHIND, above_y, band_foot, band_top, column_behind, right_x};
use crate::mark::Mark;
use crate::pieces::{AND_Y, PATH_END, PATH_FROM, STEP_AT, TITLE_END};
use crate::writing::{Added, push, push_escaped_bytes, push_numbered, push_one, push_two};
use base::Trap;
use tick_play::trap_name;

const NEVER_MARK: &str = "<g id=\"never\"><title>";

const AT_THE_START: &str = "at the start";

const AFTER_STEP: &str = "after step ";

const MUST_NEVER_HOLD: &str = " must never hold, and ";

const ITS_VALUE_IS: &str = "its value is ";

const IT_TRAPS_WITH: &str = "it traps with ";

// A grey dashed line.
const DASHES: &str = "<path fill=\"none\" stroke=\"#666\" stroke-dasharray=\"5 4\"";

const NEVER: &str = "never";

const NEVER_END: &str = "</text></g>\n";

/// A property that must never hold, and does in a run.
#[derive(Clone, Copy)]
pub struct NeverMark<'a> {
    /// After so many steps of the schedule.
    pub steps: usize,
    /// Its number from 1, where there are several.
    pub number: Option<usize>,
    /// How it is written.
    pub text: &'a [u8],
    /// What it comes to.
    pub value: Result<u32, Trap>,
}

/// Adds the mark among those of a run, where there is one.
pub fn push_never(
    out: &mut Vec<u8>,
    bands: &[Lanes],
    columns: &[Column],
    marks: &[Mark],
    never: Option<NeverMark<'_>>,
) -> Added
    ensures { OnOk result (out.new.items ≡ out.old.items ++ never_text bands.now columns.now marks.now (option_map broken_of never.entry)) }
{
    match never {
        Some(never) => {
            let count = marks_within(never.steps, marks);
            push_never_behind(out, bands, column_behind(columns, count), never)
        }
        None => Ok(()),
    }
}

// How many of the marks are of the first so many steps.
fn marks_within(steps: usize, marks: &[Mark]) -> usize
    ensures { result ≡ marks_within steps marks.now }
{
    let mut count = 0;
    for mark in marks {
        if mark.step <= steps {
            count += 1;
        }
    }
    count
}

// In the gutter behind a column.
#[tactic(auto, unfolding(crate::specs::Never::never_behind))]
fn push_never_behind(
    out: &mut Vec<u8>,
    bands: &[Lanes],
    column: Column,
    never: NeverMark<'_>,
) -> Added
    ensures { OnOk result (out.new.items ≡ out.old.items ++ never_behind bands.now column (broken_of never.entry)) }
{
    let (x, band) = (right_x(column) + LINE_BEHIND, column.band);
    push_never_title(out, never)?;
    push_dashed_line(out, x, band_top(bands, band), band_foot(bands, band))?;
    push_never_label(out, x, above_y(bands, band), never.number)
}

// When it holds, how it reads, and what it comes to.
#[tactic(auto, unfolding(crate::specs::Never::never_title))]
fn push_never_title(out: &mut Vec<u8>, never: NeverMark<'_>) -> Added
    ensures { OnOk result (out.new.items ≡ out.old.items ++ never_title (broken_of never.entry)) }
{
    push(out, NEVER_MARK)?;
    push_moment(out, never.steps)?;
    push(out, ": ")?;
    push_escaped_bytes(out, never.text)?;
    push(out, MUST_NEVER_HOLD)?;
    push_value(out, never.value)?;
    push(out, TITLE_END)
}

fn push_moment(out: &mut Vec<u8>, steps: usize) -> Added
    ensures { OnOk result (out.new.items ≡ out.old.items ++ moment_text steps) }
{
    if steps == 0 {
        push(out, AT_THE_START)
    } else {
        push_numbered(out, AFTER_STEP, steps as u64)
    }
}

fn push_value(out: &mut Vec<u8>, value: Result<u32, Trap>) -> Added
    ensures { OnOk result (out.new.items ≡ out.old.items ++ value_text value) }
{
    match value {
        Ok(value) => push_numbered(out, ITS_VALUE_IS, u64::from(value)),
        Err(trap) => {
            push(out, IT_TRAPS_WITH)?;
            push(out, trap_name(trap))
        }
    }
}

#[tactic(auto, unfolding(crate::specs::Never::dashed_line))]
fn push_dashed_line(out: &mut Vec<u8>, x: u64, top: u128, foot: u128) -> Added
    ensures { OnOk result (out.new.items ≡ out.old.items ++ dashed_line x top foot) }
{
    push(out, DASHES)?;
    push_two(out, PATH_FROM, x, " ", top, "V")?;
    push_one(out, "", foot, PATH_END)
}

#[tactic(auto, unfolding(crate::specs::Never::never_label))]
fn push_never_label(out: &mut Vec<u8>, x: u64, y: u128, number: Option<usize>) -> Added
    ensures { OnOk result (out.new.items ≡ out.old.items ++ never_label x y number) }
{
    push_two(out, STEP_AT, x, AND_Y, y, "\">")?;
    push_never_words(out, number)?;
    push(out, NEVER_END)
}

fn push_never_words(out: &mut Vec<u8>, number: Option<usize>) -> Added
    ensures { OnOk result (out.new.items ≡ out.old.items ++ never_words number) }
{
    push(out, NEVER)?;
    match number {
        Some(number) => push_numbered(out, " ", number as u64),
        None => Ok(()),
    }
}
