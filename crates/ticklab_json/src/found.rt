//! What a search has found, as an object in a line.
ghost use Rattle.std.specs.Prelude.{◌≡◌, ◌∷◌, [], IfOk, None, OnOk, false, map, option_map, string_bytes};
ghost use Rattle.language_schedules.specs.Written.{schedule_text};
ghost use Rattle.serde_json.specs.Data.{put, string};
ghost use Rattle.serde_json.specs.View.{members_view, view};
ghost use Rattle.ticklab_json.specs.Found.{fault_text, head_members, lead_in_data, loop_data, run_data, says_members, states_data, with_run};
ghost use Rattle.ticklab_json.specs.Members.{lines};
ghost use Rattle.ticklab_json.specs.Steps.{break_data, broken_line, statement_list};
ghost use Rattle.ticklab_trace.specs.Places.{told_standing};

use crate::breaking::{Breaking, break_value};
use crate::hunts::plan_members;
use crate::members::{Members, one_line, put_if};
use crate::source::statement_values;
use base::NoMemory;
use language_schedules::write_schedule;
use searches_hunt::Plan;
use serde_json::{Map, Value, put};
use std::alloc::{AllocError, Global};
use tick_kinds::Program;
use ticklab_trace::{StatementPlace, StatementStep};

/// What stands beside a run that was found.
#[derive(Clone, Copy)]
pub enum Head<'a> {
    /// The line that says how it was found.
    Says(&'a str),
    /// The runs of a hunt: its plan, and the number of the first.
    Runs { plan: Plan, from: u32 },
}

/// Steps that repeat for ever, with those that lead there.
#[derive(Clone, Copy)]
pub struct Loop<'a> {
    pub schedule: &'a [u8],
    /// The steps after the schedule that lead on to the cycle; there may be none.
    pub lead_in: &'a [u8],
    pub cycle: &'a [u8],
}

/// A run under which a process traps, or this line breaks: its schedule, and what each of its steps did. `spots` are those
/// of the program's text, as `places` tells them.
pub fn found_run(
    alloc: Global,
    head: Head<'_>,
    program: &Program,
    spots: &[StatementPlace<'_>],
    schedule: &[u8],
    steps: &[StatementStep],
    broken: Option<Breaking<'_>>,
) -> Result<String, NoMemory>
    ensures { IfOk result (λ text. string_bytes text ≡ lines (run_data (head_members head.entry)
        (record {
          schedule = schedule.now;
          trace = statement_list program.now (map told_standing spots.now) None false None 0 steps.now;
          broken = option_map broken_line broken.entry;
        }) ∷ [])) }
{
    let trace = statement_values(alloc, program, spots, steps)?;
    let value = run_value(alloc, head, schedule, trace, broken)?;
    Ok(one_line(alloc, &value)?)
}

fn run_value(
    alloc: Global,
    head: Head<'_>,
    schedule: &[u8],
    trace: Vec<Value>,
    broken: Option<Breaking<'_>>,
) -> Result<Value, NoMemory>
    ensures { IfOk result (λ v. view v ≡ run_data (head_members head.entry) (record { schedule = schedule.now; trace = map view trace.items; broken = option_map broken_line broken.entry })) }
{
    let mut members = head_members(alloc, head)?;
    put_run(&mut members, alloc, schedule, trace, broken)?;
    Ok(Value::Object(members))
}

fn head_members(alloc: Global, head: Head<'_>) -> Result<Members, AllocError>
    ensures { IfOk result (λ members. members_view members.entries ≡ head_members head.entry) }
{
    match head {
        Head::Says(line) => says_members(alloc, line),
        Head::Runs { plan, from } => plan_members(alloc, plan, from),
    }
}

fn says_members(alloc: Global, line: &str) -> Result<Members, AllocError>
    ensures { IfOk result (λ members. members_view members.entries ≡ says_members line.now) }
{
    let mut members = Map::new(alloc);
    put_text(&mut members, alloc, "says", line)?;
    Ok(members)
}

// Puts a text where its key belongs.
fn put_text(members: &mut Members, alloc: Global, key: &str, text: &str) -> Result<(), AllocError>
    ensures { OnOk result (members_view members.new.entries ≡ put key.now (string text.now) (members_view members.old.entries)) }
{
    let text = Value::try_from_str(alloc, text)?;
    put(members, alloc, key, text)
}

// Puts a schedule where its key belongs.
fn put_schedule(
    members: &mut Members,
    alloc: Global,
    key: &str,
    schedule: &[u8],
) -> Result<(), NoMemory>
    ensures { OnOk result (members_view members.new.entries ≡ put key.now (string (schedule_text schedule.now)) (members_view members.old.entries)) }
{
    let text = write_schedule(alloc, schedule)?;
    Ok(put(members, alloc, key, Value::String(text))?)
}

// A run, by its schedule and what each step did.
fn put_run(
    members: &mut Members,
    alloc: Global,
    schedule: &[u8],
    trace: Vec<Value>,
    broken: Option<Breaking<'_>>,
) -> Result<(), NoMemory>
    ensures { OnOk result (members_view members.new.entries ≡ with_run
        (record { schedule = schedule.now; trace = map view trace.items; broken = option_map broken_line broken.entry }) (members_view members.old.entries)) }
{
    put_text(members, alloc, "answer", fault_text(&broken))?;
    put_schedule(members, alloc, "schedule", schedule)?;
    put(members, alloc, "trace", Value::Array(trace))?;
    let breaks = breaks_in(alloc, broken)?;
    Ok(put_if(members, alloc, "breaks", breaks)?)
}

fn fault_text(broken: &Option<Breaking<'_>>) -> &'static str
    ensures { result.now ≡ fault_text (option_map broken_line broken.now) }
{
    match broken {
        Some(_) => "never",
        None => "trap",
    }
}

fn breaks_in(alloc: Global, broken: Option<Breaking<'_>>) -> Result<Option<Value>, AllocError>
    ensures { IfOk result (λ found. option_map view found ≡ option_map break_data (option_map broken_line broken.entry)) }
{
    match broken {
        Some(broken) => Ok(Some(break_value(alloc, broken)?)),
        None => Ok(None),
    }
}

/// What is said of so many states between merged steps or single ones, or of more than so many, where so many lines must
/// never hold.
pub fn found_states(
    alloc: Global,
    answer: &str,
    says: &str,
    is_merged: bool,
    states: u32,
    never_lines: usize,
) -> Result<String, AllocError>
    ensures { IfOk result (λ text. string_bytes text ≡ lines (states_data answer.now says.now is_merged states never_lines ∷ [])) }
{
    let mut members = says_members(alloc, says)?;
    put_text(&mut members, alloc, "answer", answer)?;
    put(&mut members, alloc, "merged", Value::from(is_merged))?;
    put(&mut members, alloc, "states", Value::from(states))?;
    put(&mut members, alloc, "never_lines", Value::from(never_lines))?;
    one_line(alloc, &Value::Object(members))
}

/// Steps that repeat for ever, and what each step did, in the order of `Loop`.
pub fn found_loop(
    alloc: Global,
    answer: &str,
    says: &str,
    program: &Program,
    spots: &[StatementPlace<'_>],
    looped: Loop<'_>,
    steps: &[StatementStep],
) -> Result<String, NoMemory>
    ensures { IfOk result (λ text. string_bytes text ≡ lines (loop_data answer.now says.now
        (record {
          schedule = looped.entry.schedule.now;
          lead_in = looped.entry.lead_in.now;
          cycle = looped.entry.cycle.now;
          trace = statement_list program.now (map told_standing spots.now) None false None 0 steps.now;
        }) ∷ [])) }
{
    let trace = statement_values(alloc, program, spots, steps)?;
    let value = loop_value(alloc, answer, says, looped, trace)?;
    Ok(one_line(alloc, &value)?)
}

fn loop_value(
    alloc: Global,
    answer: &str,
    says: &str,
    looped: Loop<'_>,
    trace: Vec<Value>,
) -> Result<Value, NoMemory>
    ensures { IfOk result (λ v. view v ≡ loop_data answer.now says.now
        (record { schedule = looped.entry.schedule.now; lead_in = looped.entry.lead_in.now; cycle = looped.entry.cycle.now; trace = map view trace.items })) }
{
    let mut members = says_members(alloc, says)?;
    put_text(&mut members, alloc, "answer", answer)?;
    put_schedule(&mut members, alloc, "cycle", looped.cycle)?;
    put_schedule(&mut members, alloc, "schedule", looped.schedule)?;
    put(&mut members, alloc, "trace", Value::Array(trace))?;
    let lead_in = lead_in_value(alloc, looped.lead_in)?;
    put_if(&mut members, alloc, "lead_in", lead_in)?;
    Ok(Value::Object(members))
}

// The steps that lead on, where there are some.
fn lead_in_value(alloc: Global, lead_in: &[u8]) -> Result<Option<Value>, NoMemory>
    ensures { IfOk result (λ found. option_map view found ≡ lead_in_data lead_in.now) }
{
    match lead_in {
        [] => Ok(None),
        [_, ..] => {
            let text = write_schedule(alloc, lead_in)?;
            Ok(Some(Value::String(text)))
        }
    }
}
