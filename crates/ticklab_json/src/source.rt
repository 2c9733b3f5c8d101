//! The steps of a program as objects.
ghost use Rattle.std.specs.Prelude.{◌≡◌, ◌<◌, IfOk, None, OnOk, false, map, option_and_then, option_map, slice_get, string_bytes};
ghost use Rattle.serde_json.specs.View.{members_view, view};
ghost use Rattle.ticklab_json.specs.Members.{lines};
ghost use Rattle.ticklab_json.specs.Steps.{broken_at, broken_line, part_data, part_key, private_data, start_data, start_list, statement_data, statement_list, statement_objects, stopped, taken, with_place, written_data};
ghost use Rattle.ticklab_trace.specs.Places.{told_standing};

use crate::breaking::{Breaking, broken_at};
use crate::events::{event_in, name_in};
use crate::members::{Members, heading, push_line, put_if};
use crate::order::ticket_order;
use base::{Act, NoMemory};
use serde_json::{Value, json, put};
use std::alloc::{AllocError, Global};
use tick_kinds::Program;
use ticket_core::Tickets;
use ticklab_trace::{
    Part, Parts, StatementPlace, StatementStep, Written, is_private, part_at, ticket_of,
};

/// An object in a line for each step: its number, the process, where its statement stands and how it reads, and what it
/// did; and of a run that has parts, to which of them it belongs. Where that is told, also whether it is private. The line that breaks is told in the object of the step
/// after which it does, or in one before all.
/// `spots` are those of the program's text, as `places` tells them.
#[tactic(auto, using(crate::proofs::Exact::statement_exact))]
pub fn source_objects(
    alloc: Global,
    program: &Program,
    spots: &[StatementPlace<'_>],
    parts: Option<Parts>,
    tells: bool,
    broken: Option<Breaking<'_>>,
    steps: &[StatementStep],
) -> Result<String, NoMemory>
    ensures { IfOk result (λ text. string_bytes text ≡ statement_objects program.now (map told_standing spots.now) parts tells (option_map broken_line broken.entry) steps.now) }
{
    let mut text = start_lines(alloc, broken)?;
    for (number, step) in steps.iter().enumerate() {
        let value = statement(alloc, program, spots, parts, tells, broken, number, *step)?;
        push_line(&mut text, alloc, &value)?;
    }
    Ok(text)
}

/// An object for each step.
pub fn statement_values(
    alloc: Global,
    program: &Program,
    spots: &[StatementPlace<'_>],
    steps: &[StatementStep],
) -> Result<Vec<Value>, NoMemory>
    ensures { IfOk result (λ values. map view values.items ≡ statement_list program.now (map told_standing spots.now) None false None 0 steps.now) }
{
    let mut values = Vec::with_capacity(alloc, steps.len())?;
    for (number, step) in steps.iter().enumerate() {
        let value = statement(alloc, program, spots, None, false, None, number, *step)?;
        values.push(value)?;
    }
    Ok(values)
}

// The line that breaks before the first step.
#[tactic(auto, using(crate::proofs::Exact::start_exact))]
fn start_lines(alloc: Global, broken: Option<Breaking<'_>>) -> Result<String, AllocError>
    ensures { IfOk result (λ text. string_bytes text ≡ lines (start_list (broken_at 0 (option_map broken_line broken.entry)))) }
{
    let mut text = String::new(alloc);
    let Some(breaks) = broken_at(alloc, 0, broken)? else {
        return Ok(text);
    };
    let start = start(alloc, breaks)?;
    push_line(&mut text, alloc, &start)?;
    Ok(text)
}

fn start(alloc: Global, breaks: Value) -> Result<Value, AllocError>
    ensures { IfOk result (λ v. view v ≡ start_data (view breaks)) }
{
    json!(in alloc; {"breaks": breaks, "step": 0u8})
}

fn statement(
    alloc: Global,
    program: &Program,
    spots: &[StatementPlace<'_>],
    parts: Option<Parts>,
    tells: bool,
    broken: Option<Breaking<'_>>,
    number: usize,
    step: StatementStep,
) -> Result<Value, AllocError>
    requires { number < 18446744073709551615 }
    ensures { IfOk result (λ v. view v ≡ statement_data program.now (map told_standing spots.now) parts tells (option_map broken_line broken.entry) number step) }
{
    let mut members = heading(alloc, number, step.process)?;
    put_place(&mut members, alloc, spot_of(spots, step.number))?;
    let event = event_in(alloc, program, step.act)?;
    put_if(&mut members, alloc, "event", event)?;
    let written = written_in(alloc, program, step.written)?;
    put_if(&mut members, alloc, "written", written)?;
    let ticket = ticket_in(step.process, step.act, step.tickets);
    put_if(&mut members, alloc, "ticket", ticket)?;
    let order = ticket_order(alloc, step.tickets)?;
    put_if(&mut members, alloc, "order", order)?;
    put_if(
        &mut members,
        alloc,
        "stopped",
        stopped(step.number, step.act),
    )?;
    let breaks = broken_at(alloc, number + 1, broken)?;
    put_if(&mut members, alloc, "breaks", breaks)?;
    let part = part_in(alloc, parts, number)?;
    put_if(&mut members, alloc, "part", part)?;
    let private = private_in(tells, is_private(step.act));
    put_if(&mut members, alloc, "private", private)?;
    Ok(Value::Object(members))
}

/// Whether a step is private, where that is told.
pub fn private_in(tells: bool, is_private: bool) -> Option<Value>
    ensures { option_map view result ≡ private_data tells is_private }
{
    if tells {
        Some(Value::from(is_private))
    } else {
        None
    }
}

// The part to which a step belongs, where the run has parts.
fn part_in(alloc: Global, parts: Option<Parts>, number: usize) -> Result<Option<Value>, AllocError>
    ensures { IfOk result (λ found. option_map view found ≡ part_data parts number) }
{
    match parts {
        Some(_) => {
            let key = part_key(part_at(parts, number));
            Ok(Some(Value::try_from_str(alloc, key)?))
        }
        None => Ok(None),
    }
}

fn part_key(part: Part) -> &'static str
    ensures { result.now ≡ part_key part }
{
    match part {
        Part::Schedule => "schedule",
        Part::LeadIn => "lead_in",
        Part::Cycle => "cycle",
    }
}

fn spot_of<'a>(spots: &[StatementPlace<'a>], number: Option<usize>) -> Option<StatementPlace<'a>>
    ensures { option_map told_standing result ≡ option_and_then (slice_get (map told_standing spots.now)) number }
{
    spots.get(number?).copied()
}

fn put_place(
    members: &mut Members,
    alloc: Global,
    spot: Option<StatementPlace<'_>>,
) -> Result<(), AllocError>
    ensures { OnOk result (members_view members.new.entries ≡ with_place (option_map told_standing spot.entry) (members_view members.old.entries)) }
{
    let Some(spot) = spot else {
        return Ok(());
    };
    put(members, alloc, "column", Value::from(spot.column))?;
    put(members, alloc, "line", Value::from(spot.line))?;
    let words = Value::try_from_str(alloc, spot.words)?;
    put(members, alloc, "statement", words)
}

fn written_in(
    alloc: Global,
    program: &Program,
    written: Option<Written>,
) -> Result<Option<Value>, AllocError>
    ensures { IfOk result (λ found. option_map view found ≡ option_map (written_data program.now) written) }
{
    match written {
        Some(written) => {
            let variable = name_in(&program.tree().variables, written.variable);
            let value = json!(in alloc; {"value": written.value, "variable": variable})?;
            Ok(Some(value))
        }
        None => Ok(None),
    }
}

// The ticket that a stamp took.
fn ticket_in(p: u8, act: Option<Act>, tickets: Option<Tickets>) -> Option<Value>
    ensures { option_map view result ≡ option_and_then (taken p act) tickets }
{
    let tickets = tickets?;
    match act {
        Some(Act::Stamp) => Some(Value::from(ticket_of(&tickets, p))),
        _ => None,
    }
}

fn stopped(number: Option<usize>, act: Option<Act>) -> Option<Value>
    ensures { option_map view result ≡ stopped number act }
{
    match (number, act) {
        (None, None) => Some(Value::from(true)),
        _ => None,
    }
}
