//! `ticklab trace --json`.
ghost use Rattle.std.specs.Prelude.{IfOk, map};
ghost use Rattle.ticklab_trace.specs.Places.{told_standing};
ghost use Rattle.ticklab_files.specs.Asking.{place_of};
ghost use Rattle.ticklab_runs.specs.Objects.{AreBrokenObjects};

use crate::breaking::Break;
use crate::drawing::part_of;
use base::NoMemory;
use std::alloc::Global;
use tick_kinds::Program;
use ticklab_explain::place;
use ticklab_files::PropertyPlace;
use ticklab_json::{Breaking, source_objects};
use ticklab_trace::{Parts, StatementPlace, StatementStep};

/// An object for each of these steps, each in a line. That of the step after which the line is broken tells that too. Perhaps each
/// tells whether its step is private.
pub fn broken_objects(
    alloc: Global,
    place: &PropertyPlace<'_>,
    broken: Break,
    program: &Program,
    spots: &[StatementPlace<'_>],
    parts: Option<Parts>,
    tells: bool,
    steps: &[StatementStep],
) -> Result<Vec<u8>, NoMemory>
    ensures { IfOk result (λ out. AreBrokenObjects tells (record { place = place_of place.now; broken = broken }) program.now (map told_standing spots.now) parts steps.now out.items) }
{
    let text = String::from_utf8_lossy(alloc, part_of(place.text, place.span))?;
    let at = place::place_of(place.text, place.span.start.min(place.text.len()));
    let breaking = Breaking {
        steps: broken.steps,
        file: place.name,
        line: at.line,
        column: at.column,
        text: &text,
        value: broken.value,
    };
    let text = source_objects(alloc, program, spots, parts, tells, Some(breaking), steps)?;
    Ok(text.into_bytes())
}
