//! The answer that shows a schedule under which a process traps or a line breaks.
ghost use Rattle.std.specs.Prelude.{◌≡◌, ◌<◌, ◌++◌, ℕ, List, IfOk, None, length, string_bytes};
ghost use Rattle.ticklab_explain.specs.Questions.{IsPointed};
ghost use Rattle.ticklab_json.specs.Found.{head_members};
ghost use Rattle.ticklab_files.specs.Asking.{place_of};
ghost use Rattle.ticklab_runs.specs.Lines.{broken_text};
ghost use Rattle.ticklab_verdicts.specs.Lines.{schedule_alone};
ghost use Rattle.ticklab_verdicts.specs.Shown.{IsBrokenAnswer, IsTrapText, ShowsBroken, ShowsTrap};
ghost use Rattle.ticklab_verdicts.specs.Sought.{IsLawful, IsSound, sought_by};

use crate::run_objects::{break_object, run_object};
use crate::search::{Answered, Search};
use base::{NoMemory, Trap, push_number};
use language_schedules::write_schedule;
use std::alloc::{AllocError, Global};
use tick_play::trap_name;
use ticklab_explain::point;
use ticklab_files::{PropertyPlace, TRAPPED, answer, output};
use ticklab_json::Head;
use ticklab_line::Output;
use ticklab_runs::{source_text, with_line};

/// The schedule, and what each of its steps does. How it was found a text says in this line, and an object in its head.
pub fn trap_shown(search: &Search<'_, '_>, found: &str, head: Head<'_>, schedule: &[u8]) -> Answered
    requires sound { IsSound search.now }
    requires schedule { IsLawful search.now schedule.now }
    ensures { IfOk result (ShowsTrap found.now (head_members head.entry) (sought_by search.now) schedule.now) }
{
    let text = match search.output {
        Output::Text => trap_text(search, found, schedule)?,
        Output::ScheduleAlone => schedule_alone(search.alloc, schedule)?,
        Output::Json => run_object(search, head, schedule, None)?,
    };
    Ok(answer(search.alloc, TRAPPED, text))
}

/// The schedule, in a line.
pub fn schedule_alone(alloc: Global, schedule: &[u8]) -> Result<String, NoMemory>
    ensures { IfOk result (λ text. string_bytes text ≡ schedule_alone schedule.now) }
{
    let mut text = write_schedule(alloc, schedule)?;
    text.push_str("\n")?;
    Ok(text)
}

fn trap_text(search: &Search<'_, '_>, found: &str, schedule: &[u8]) -> Result<String, NoMemory>
    requires sound { IsSound search.now }
    requires schedule { IsLawful search.now schedule.now }
    ensures { IfOk result (λ text. IsTrapText found.now search.now.input.now search.now.spelled.now.program schedule.now (string_bytes text)) }
{
    let alloc = search.alloc;
    let written = write_schedule(alloc, schedule)?;
    let steps = source_text(alloc, search.spelled, search.input, schedule)?;
    let mut text = String::from_str(alloc, found)?;
    text.push_str("\n")?;
    text.push_str(&written)?;
    text.push_str("\n")?;
    text.push_str(&steps)?;
    Ok(text)
}

/// The same, and which of the lines breaks, by its number from 0, with what it comes to.
pub fn broken_shown(
    search: &Search<'_, '_>,
    found: &str,
    head: Head<'_>,
    schedule: &[u8],
    line: usize,
    value: Result<u32, Trap>,
) -> Answered
    requires sound { IsSound search.now }
    requires schedule { IsLawful search.now schedule.now }
    requires line { line < length search.now.lines.now.places.items }
    ensures { IfOk result (ShowsBroken found.now (head_members head.entry) (sought_by search.now) schedule.now line value) }
{
    let place = &search.lines.places[line];
    let out = broken_answer(search, found, head, schedule, place, value)?;
    Ok(output(search.alloc, TRAPPED, out))
}

// The line stands here.
fn broken_answer(
    search: &Search<'_, '_>,
    found: &str,
    head: Head<'_>,
    schedule: &[u8],
    place: &PropertyPlace<'_>,
    value: Result<u32, Trap>,
) -> Result<Vec<u8>, NoMemory>
    requires sound { IsSound search.now }
    requires schedule { IsLawful search.now schedule.now }
    ensures { IfOk result (λ out. IsBrokenAnswer search.now.output found.now (head_members head.entry)
        search.now.input.now search.now.spelled.now.program schedule.now (place_of place.now) value out.items) }
{
    match search.output {
        Output::Text => {
            let text = trap_text(search, found, schedule)?;
            with_line(search.alloc, text.into_bytes(), place, value)
        }
        Output::ScheduleAlone => {
            let text = schedule_alone(search.alloc, schedule)?;
            Ok(text.into_bytes())
        }
        Output::Json => {
            let text = break_object(search, head, schedule, place, value)?;
            Ok(text.into_bytes())
        }
    }
}
