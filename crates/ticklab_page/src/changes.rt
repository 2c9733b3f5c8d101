// What the script replays.
ghost use Rattle.std.specs.Prelude.{◌≡◌, ◌++◌, [], IfOk, OnOk, map};
ghost use Rattle.std.specs.List.{flat_map};
ghost use Rattle.ticklab_trace.specs.Places.{told_standing};
ghost use Rattle.ticklab_page.specs.Steps.{of_instruction, of_statement};
ghost use Rattle.ticklab_page.specs.Changes.{act_change, change_line, change_lines, copy_change, label_change, label_text, labels_text, scan_change, ticket_change, tickets_text, variable_change};
ghost use Rattle.ticklab_page.specs.Writing.{around};

use crate::steps::{PageStep, of_instruction, of_statement};
use crate::writing::{Added, push, push_around};
use base::Act;
use label_core::Label;
use std::alloc::{AllocError, Global};
use ticket_core::Tickets;
use ticklab_trace::{InstructionStep, Scanned, StatementPlace, StatementStep, Written};
use word_core::LabelWord;

/// A line for each step of a program, whose statements stand there.
pub fn statement_changes(
    alloc: Global,
    spots: &[StatementPlace<'_>],
    steps: &[StatementStep],
) -> Result<Vec<u8>, AllocError>
    ensures { IfOk result (λ lines. lines.items ≡ change_lines (map (of_statement (map told_standing spots.now)) steps.now)) }
{
    let mut page = Vec::new(alloc);
    for step in steps {
        push_change(&mut page, of_statement(spots, *step))?;
    }
    Ok(page)
}

/// A line for each step of a code.
pub fn instruction_changes(alloc: Global, steps: &[InstructionStep]) -> Result<Vec<u8>, AllocError>
    ensures { IfOk result (λ lines. lines.items ≡ change_lines (map of_instruction steps.now)) }
{
    let mut lines = Vec::new(alloc);
    for step in steps {
        push_change(&mut lines, of_instruction(*step))?;
    }
    Ok(lines)
}

fn push_change(page: &mut Vec<u8>, step: PageStep) -> Added
    ensures { OnOk result (page.new.items ≡ page.old.items ++ change_line step) }
{
    push_around(page, "", u64::from(step.process), "")?;
    push_around(page, " ", step.line as u64, "")?;
    push_act_change(page, step.act)?;
    push_variable_change(page, step.written)?;
    push_scan_change(page, step.scanned)?;
    push_ticket_change(page, step.tickets)?;
    push_label_change(page, step.labels)?;
    push(page, ";\n")
}

fn push_act_change(page: &mut Vec<u8>, act: Option<Act>) -> Added
    ensures { OnOk result (page.new.items ≡ page.old.items ++ act_change act) }
{
    match act {
        Some(Act::Put(row, value)) => {
            push_around(page, " r", u64::from(row), "")?;
            push_around(page, " ", u64::from(value), "")
        }
        Some(Act::Trap(_)) => push(page, " s trapped"),
        Some(Act::End) => push(page, " s ended"),
        _ => Ok(()),
    }
}

fn push_variable_change(page: &mut Vec<u8>, written: Option<Written>) -> Added
    ensures { OnOk result (page.new.items ≡ page.old.items ++ variable_change written) }
{
    match written {
        None => Ok(()),
        Some(written) => {
            push_around(page, " v", u64::from(written.variable), "")?;
            push_around(page, " ", u64::from(written.value), "")
        }
    }
}

fn push_scan_change(page: &mut Vec<u8>, scanned: Option<Scanned>) -> Added
    ensures { OnOk result (page.new.items ≡ page.old.items ++ scan_change scanned) }
{
    match scanned {
        None => Ok(()),
        Some(scanned) => push_copy(page, scanned.scan, scanned.of),
    }
}

fn push_copy(page: &mut Vec<u8>, scan: u8, of: Option<u8>) -> Added
    ensures { OnOk result (page.new.items ≡ page.old.items ++ copy_change scan of) }
{
    match of {
        None => push_around(page, " c", u64::from(scan), ""),
        Some(of) => {
            push_around(page, " d", u64::from(scan), "")?;
            push_around(page, " ", u64::from(of), "")
        }
    }
}

fn push_ticket_change(page: &mut Vec<u8>, tickets: Option<Tickets>) -> Added
    ensures { OnOk result (page.new.items ≡ page.old.items ++ ticket_change tickets) }
{
    let Some(tickets) = tickets else {
        return Ok(());
    };
    push(page, " t")?;
    push_tickets(page, &tickets)
}

fn push_tickets(page: &mut Vec<u8>, tickets: &Tickets) -> Added
    ensures { OnOk result (page.new.items ≡ page.old.items ++ tickets_text tickets.now) }
{
    for process in 0..tickets.count() {
        push_around(page, " ", tickets.ticket(process), "")?;
    }
    Ok(())
}

fn push_label_change(page: &mut Vec<u8>, labels: Option<LabelWord>) -> Added
    ensures { OnOk result (page.new.items ≡ page.old.items ++ label_change labels) }
{
    let Some(labels) = labels else {
        return Ok(());
    };
    push(page, " t")?;
    push_all_labels(page, &labels)
}

fn push_all_labels(page: &mut Vec<u8>, labels: &LabelWord) -> Added
    ensures { OnOk result (page.new.items ≡ page.old.items ++ labels_text labels.now) }
{
    for process in 0..labels.n() {
        push_one_label(page, labels.label(process))?;
    }
    Ok(())
}

fn push_one_label(page: &mut Vec<u8>, label: Option<Label>) -> Added
    ensures { OnOk result (page.new.items ≡ page.old.items ++ label_text label) }
{
    let Some(label) = label else {
        return push(page, " .");
    };
    if label.is_empty() {
        return push(page, " -");
    }
    push(page, " ")?;
    push_all_digits(page, &label)
}

fn push_all_digits(page: &mut Vec<u8>, label: &Label) -> Added
    ensures { OnOk result (page.new.items ≡ page.old.items ++ flat_map (λ digit. around [] digit []) label.now) }
{
    for at in 0..label.len() {
        push_around(page, "", u64::from(label.digit(at)), "")?;
    }
    Ok(())
}
