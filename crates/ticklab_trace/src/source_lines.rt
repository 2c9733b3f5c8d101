//! The lines of the steps of a program.

ghost use Rattle.std.specs.Prelude.{◌≡◌, ◌<◌, ◌≤◌, ◌+◌, ◌++◌, IfOk, OnOk, length, map, option_map, string_bytes};
ghost use Rattle.ticklab_trace.specs.Places.{told_standing};
ghost use Rattle.ticklab_trace.specs.TraceText.{done_text, order_text, part_line, spot_text, statement_line, statement_lines, step_text, taken_text};

use crate::columns::{push_head, push_nowhere, push_where, push_words};
use crate::parts::{Part, Parts, begun_at};
use crate::ranks::{ticket_of, ticket_rank};
use crate::spots::StatementPlace;
use crate::steps::StatementStep;
use crate::wording::{push_act, push_rank, push_variable};
use base::{Act, NoMemory, push_number};
use std::alloc::{AllocError, Global};
use tick_kinds::Program;
use ticket_core::Tickets;

/// A line for each step: its number, the process, where its statement stands and how it reads, and what it
/// did. Before the first step of a part stands a line that names it. So many steps come before these. `spots` are those of
/// the program's text, as `places` tells them.
pub fn source_trace(
    alloc: Global,
    program: &Program,
    spots: &[StatementPlace<'_>],
    parts: Option<Parts>,
    before: usize,
    steps: &[StatementStep],
) -> Result<String, NoMemory>
    requires { before + length steps.now ≤ 18446744073709551615 }
    ensures { IfOk result (λ text. string_bytes text ≡ statement_lines program.now (map told_standing spots.now) parts before steps.now) }
{
    let mut text = String::new(alloc);
    for (number, step) in steps.iter().enumerate() {
        push_part(&mut text, begun_at(parts, before + number))?;
        push_line(&mut text, program, spots, before + number, *step)?;
    }
    Ok(text)
}

/// The line of a part that begins.
pub fn push_part(text: &mut String, part: Option<Part>) -> Result<(), AllocError>
    ensures { OnOk result (string_bytes text.new ≡ string_bytes text.old ++ part_line part) }
{
    match part {
        None => Ok(()),
        Some(part) => {
            text.push_str("-- ")?;
            text.push_str(part.name())?;
            text.push_str("\n")
        }
    }
}

/// The line of step `number` from 0.
pub fn push_line(
    text: &mut String,
    program: &Program,
    spots: &[StatementPlace<'_>],
    number: usize,
    step: StatementStep,
) -> Result<(), AllocError>
    requires { number < 18446744073709551615 }
    ensures { OnOk result (string_bytes text.new ≡ string_bytes text.old ++ statement_line program.now (map told_standing spots.now) number step) }
{
    push_head(text, number, step.process)?;
    push_step(text, program, spots, step)?;
    text.push_str("\n")
}

// What comes after the process.
fn push_step(
    text: &mut String,
    program: &Program,
    spots: &[StatementPlace<'_>],
    step: StatementStep,
) -> Result<(), AllocError>
    ensures { OnOk result (string_bytes text.new ≡ string_bytes text.old ++ step_text program.now (map told_standing spots.now) step step.number step.act) }
{
    match (step.number, step.act) {
        (None, None) => text.push_str("stopped"),
        (None, Some(act)) => {
            push_nowhere(text)?;
            push_done(text, program, "", step, Some(act))
        }
        (Some(number), act) => push_statement(text, program, spots.get(number).copied(), step, act),
    }
}

// The statement at its place of the text, and what it did.
fn push_statement(
    text: &mut String,
    program: &Program,
    spot: Option<StatementPlace<'_>>,
    step: StatementStep,
    act: Option<Act>,
) -> Result<(), AllocError>
    ensures { OnOk result (string_bytes text.new ≡ string_bytes text.old ++ spot_text program.now step act (option_map told_standing spot.entry)) }
{
    match spot {
        None => {
            push_where(text, 0, 0)?;
            push_done(text, program, "", step, act)
        }
        Some(spot) => {
            push_where(text, spot.line, spot.column)?;
            push_done(text, program, spot.words, step, act)
        }
    }
}

// The words of a statement, and what it did.
fn push_done(
    text: &mut String,
    program: &Program,
    words: &str,
    step: StatementStep,
    act: Option<Act>,
) -> Result<(), AllocError>
    ensures { OnOk result (string_bytes text.new ≡ string_bytes text.old ++ done_text program.now words.now step.process act step.written step.tickets) }
{
    match (act, step.written) {
        (None, None) => text.push_str(words),
        (None, Some(written)) => {
            push_words(text, words)?;
            push_variable(text, program, written.variable, written.value)
        }
        (Some(act), None) => {
            push_words(text, words)?;
            push_act(text, program, step.process, act)?;
            push_order(text, step.process, act, step.tickets)
        }
        (Some(act), Some(written)) => {
            push_words(text, words)?;
            push_act(text, program, step.process, act)?;
            text.push_str(", ")?;
            push_variable(text, program, written.variable, written.value)
        }
    }
}

// The ticket that a stamp took, and the order of all processes.
fn push_order(
    text: &mut String,
    p: u8,
    act: Act,
    tickets: Option<Tickets>,
) -> Result<(), AllocError>
    ensures { OnOk result (string_bytes text.new ≡ string_bytes text.old ++ order_text p act tickets) }
{
    let Some(tickets) = tickets else {
        return Ok(());
    };
    push_taken(text, p, act, &tickets)?;
    text.push_str(", order")?;
    for i in 0..tickets.count() {
        push_rank(text, ticket_rank(&tickets, i))?;
    }
    Ok(())
}

fn push_taken(text: &mut String, p: u8, act: Act, tickets: &Tickets) -> Result<(), AllocError>
    ensures { OnOk result (string_bytes text.new ≡ string_bytes text.old ++ taken_text act p tickets.now) }
{
    match act {
        Act::Stamp => {
            text.push_str(", ticket ")?;
            push_number(text, ticket_of(tickets, p))
        }
        _ => Ok(()),
    }
}
