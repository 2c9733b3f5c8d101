//! A schedule that was found, as an object.
ghost use Rattle.std.specs.Prelude.{IfOk, option_map, string_bytes};
ghost use Rattle.ticklab_json.specs.Found.{head_members};
ghost use Rattle.ticklab_json.specs.Steps.{broken_line};
ghost use Rattle.ticklab_files.specs.Asking.{place_of};
ghost use Rattle.ticklab_verdicts.specs.RunObjects.{IsBreakObject, IsRunObject};
ghost use Rattle.ticklab_verdicts.specs.Sought.{IsLawful, IsSound};

use crate::search::Search;
use base::{NoMemory, Trap};
use ticklab_explain::place;
use ticklab_files::PropertyPlace;
use ticklab_json::{Breaking, Head, found_run};
use ticklab_runs::{part_of, spots_in};
use ticklab_trace::source_steps;

/// The schedule, and the line that stands here, which comes to this after it.
pub fn break_object(
    search: &Search<'_, '_>,
    head: Head<'_>,
    schedule: &[u8],
    place: &PropertyPlace<'_>,
    value: Result<u32, Trap>,
) -> Result<String, NoMemory>
    requires sound { IsSound search.now }
    requires schedule { IsLawful search.now schedule.now }
    ensures { IfOk result (λ text. IsBreakObject (head_members head.entry) search.now.input.now search.now.spelled.now.program schedule.now (place_of place.now) value (string_bytes text)) }
{
    let text = String::from_utf8_lossy(search.alloc, part_of(place.text, place.span))?;
    let at = place::place_of(place.text, place.span.start.min(place.text.len()));
    let breaking = Breaking {
        steps: schedule.len(),
        file: place.name,
        line: at.line,
        column: at.column,
        text: &text,
        value,
    };
    run_object(search, head, schedule, Some(breaking))
}

/// The schedule, what each of its steps does, and the line that breaks after it, if one does.
pub fn run_object(
    search: &Search<'_, '_>,
    head: Head<'_>,
    schedule: &[u8],
    broken: Option<Breaking<'_>>,
) -> Result<String, NoMemory>
    requires sound { IsSound search.now }
    requires schedule { IsLawful search.now schedule.now }
    ensures { IfOk result (λ text. IsRunObject (head_members head.entry) search.now.input.now search.now.spelled.now.program schedule.now (option_map broken_line broken.entry) (string_bytes text)) }
{
    let alloc = search.alloc;
    let program = &search.spelled.program;
    let spots = spots_in(alloc, search.spelled, search.input)?;
    let steps = source_steps(alloc, program, schedule)?;
    let spots = spots.as_slice();
    let text = found_run(alloc, head, program, spots, schedule, &steps, broken)?;
    Ok(text)
}
