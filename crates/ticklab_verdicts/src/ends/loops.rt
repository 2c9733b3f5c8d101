//! Steps that repeat for ever, as a text or as an object.
ghost use Rattle.std.specs.Prelude.{◌≡◌, ◌++◌, IfOk, OnOk, map, string_bytes};
ghost use Rattle.std.specs.List.{list_any};
ghost use Rattle.tick_kinds.specs.Resolution.{resolved};
ghost use Rattle.ticketc_refusals.specs.Refusals.{SpelledIn};
ghost use Rattle.ticklab_trace.specs.Places.{told_standing};
ghost use Rattle.ticklab_verdicts.specs.Lines.{cycle_line};
ghost use Rattle.ticklab_verdicts.specs.Loops.{IsLoopObject, IsLoopText, is_write, lead_in_text, steps_text};
ghost use Rattle.ticklab_verdicts.specs.Shown.{ShowsLoop};
ghost use Rattle.ticklab_verdicts.specs.Sought.{AreLawful, IsSound, sought_by};

use crate::search::{Answered, Search};
use crate::trapping::schedule_alone;
use base::{Act, NoMemory};
use language_schedules::write_schedule;
use std::alloc::Global;
use tick_kinds::Program;
use ticketc_refusals::SpelledProgram;
use ticklab_files::{STUCK, answer};
use ticklab_json::{Loop, found_loop};
use ticklab_line::Output;
use ticklab_runs::spots_in;
use ticklab_trace::{StatementPlace, StatementStep, source_steps, source_trace};

/// What repeats for ever, with what each step does. How it was found this line says; an object has a word for it too.
pub fn loop_shown(search: &Search<'_, '_>, word: &str, found: &str, looped: Loop<'_>) -> Answered
    requires sound { IsSound search.now }
    requires lawful { AreLawful (resolved search.now.spelled.now.program).processes looped }
    ensures { IfOk result (ShowsLoop word.now found.now (sought_by search.now) looped.entry.schedule.now looped.entry.lead_in.now looped.entry.cycle.now) }
{
    let alloc = search.alloc;
    match search.output {
        Output::Text => {
            let text = loop_text(alloc, search.spelled, search.input, found, looped)?;
            Ok(answer(alloc, STUCK, text))
        }
        Output::ScheduleAlone => {
            let text = schedule_alone(alloc, looped.schedule)?;
            Ok(answer(alloc, STUCK, text))
        }
        Output::Json => {
            let text = loop_object(search, word, found, looped)?;
            Ok(answer(alloc, STUCK, text))
        }
    }
}

fn loop_object(
    search: &Search<'_, '_>,
    word: &str,
    says: &str,
    looped: Loop<'_>,
) -> Result<String, NoMemory>
    requires sound { IsSound search.now }
    requires lawful { AreLawful (resolved search.now.spelled.now.program).processes looped }
    ensures { IfOk result (λ text. IsLoopObject word.now says.now search.now.input.now search.now.spelled.now.program
        looped.entry.schedule.now looped.entry.lead_in.now looped.entry.cycle.now (string_bytes text)) }
{
    let alloc = search.alloc;
    let program = &search.spelled.program;
    let spots = spots_in(alloc, search.spelled, search.input)?;
    let all = joined(alloc, looped)?;
    let steps = source_steps(alloc, program, all.as_slice())?;
    let spots = spots.as_slice();
    let text = found_loop(alloc, word, says, program, spots, looped, &steps)?;
    Ok(text)
}

/// How a schedule was found, and what repeats for ever after it, with what each step does: the steps that lead there,
/// where there are some, and then those that lead back.
pub fn loop_text(
    alloc: Global,
    spelled: &SpelledProgram,
    input: &[u8],
    found: &str,
    looped: Loop<'_>,
) -> Result<String, NoMemory>
    requires lawful { AreLawful (resolved spelled.now.program).processes looped }
    requires program { SpelledIn input.now spelled.now }
    ensures { IfOk result (λ text. IsLoopText found.now input.now spelled.now.program looped.entry.schedule.now looped.entry.lead_in.now looped.entry.cycle.now (string_bytes text)) }
{
    let Loop {
        schedule,
        lead_in,
        cycle,
    } = looped;
    let program = &spelled.program;
    let spots = spots_in(alloc, spelled, input)?;
    let spots = spots.as_slice();
    let all = joined(alloc, looped)?;
    let steps = source_steps(alloc, program, all.as_slice())?;
    let (first, more) = steps.as_slice().split_at(schedule.len());
    let (second, third) = more.split_at(lead_in.len());
    let words = cycle_line(has_write(third));
    let mut text = String::new(alloc);
    push_steps(alloc, &mut text, program, spots, found, schedule, first)?;
    push_lead_in(alloc, &mut text, program, spots, lead_in, second)?;
    push_steps(alloc, &mut text, program, spots, words, cycle, third)?;
    Ok(text)
}

// One after the other.
fn joined(alloc: Global, looped: Loop<'_>) -> Result<Vec<u8>, NoMemory>
    ensures { IfOk result (λ all. all.items ≡ looped.entry.schedule.now ++ looped.entry.lead_in.now ++ looped.entry.cycle.now) }
{
    let mut all = Vec::new(alloc);
    all.extend_from_slice(looped.schedule)?;
    all.extend_from_slice(looped.lead_in)?;
    all.extend_from_slice(looped.cycle)?;
    Ok(all)
}

// Adds steps of the program, under these words, and what each of them does.
fn push_steps(
    alloc: Global,
    text: &mut String,
    program: &Program,
    spots: &[StatementPlace<'_>],
    words: &str,
    schedule: &[u8],
    steps: &[StatementStep],
) -> Result<(), NoMemory>
    ensures { OnOk result (string_bytes text.new ≡ string_bytes text.old ++ steps_text program.now (map told_standing spots.now) words.now schedule.now steps.now) }
{
    let written = write_schedule(alloc, schedule)?;
    let trace = source_trace(alloc, program, spots, None, 0, steps)?;
    text.push_str(words)?;
    text.push_str("\n")?;
    text.push_str(&written)?;
    text.push_str("\n")?;
    text.push_str(&trace)?;
    Ok(())
}

fn push_lead_in(
    alloc: Global,
    text: &mut String,
    program: &Program,
    spots: &[StatementPlace<'_>],
    lead_in: &[u8],
    steps: &[StatementStep],
) -> Result<(), NoMemory>
    ensures { OnOk result (string_bytes text.new ≡ string_bytes text.old ++ lead_in_text program.now (map told_standing spots.now) lead_in.now steps.now) }
{
    match lead_in {
        [] => Ok(()),
        [_, ..] => push_steps(
            alloc,
            text,
            program,
            spots,
            "then these steps:",
            lead_in,
            steps,
        ),
    }
}

fn cycle_line(writes: bool) -> &'static str
    ensures { result.now ≡ cycle_line writes }
{
    if writes {
        "then these again and again, in which they write and never get on:"
    } else {
        "then these again and again, in which nobody writes:"
    }
}

fn has_write(steps: &[StatementStep]) -> bool
    ensures { result ≡ list_any (λ step. is_write step.act) steps.now }
{
    steps.iter().any(|step| is_write(step.act))
}

fn is_write(act: Option<Act>) -> bool
    ensures { result ≡ is_write act }
{
    match act {
        Some(Act::Put(..) | Act::Stamp | Act::Clear) => true,
        _ => false,
    }
}
