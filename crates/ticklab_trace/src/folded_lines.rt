//! The lines of steps where private ones are folded.

ghost use Rattle.std.specs.Prelude.{◌≡◌, ◌<◌, ◌≤◌, ◌+◌, ◌++◌, IfOk, OnOk, length, map, string_bytes};
ghost use Rattle.base.specs.Lines.{line_end};
ghost use Rattle.ticklab_trace.specs.FoldedText.{folded_instructions, folded_line, folded_statements, row_text, row_words};
ghost use Rattle.ticklab_trace.specs.Places.{told_standing};
ghost use Rattle.ticklab_trace.specs.TraceText.{instruction_line, statement_line};

use crate::code_lines::push_line as push_instruction_line;
use crate::columns::push_head;
use crate::folds::{Fold, Row, fold_at, instruction_rows, rows_past, statement_rows};
use crate::parts::{Parts, begun_at};
use crate::source_lines::{push_line, push_part};
use crate::spots::StatementPlace;
use crate::steps::{InstructionStep, StatementStep};
use base::{NoMemory, push_number};
use std::alloc::{AllocError, Global};
use tick_kinds::Program;

/// What `source_trace` writes, with one line for each row of private steps.
pub fn folded_source_trace(
    alloc: Global,
    program: &Program,
    spots: &[StatementPlace<'_>],
    parts: Option<Parts>,
    before: usize,
    steps: &[StatementStep],
) -> Result<String, NoMemory>
    requires { before + length steps.now ≤ 18446744073709551615 }
    ensures { IfOk result (λ text. string_bytes text ≡ folded_statements program.now (map told_standing spots.now) parts before steps.now) }
{
    let rows = statement_rows(alloc, parts, before, steps)?;
    let mut left = rows.as_slice();
    let mut text = String::new(alloc);
    for (number, step) in steps.iter().enumerate() {
        let number = before + number;
        push_part(&mut text, begun_at(parts, number))?;
        push_step(
            &mut text,
            program,
            spots,
            fold_at(left, number),
            number,
            *step,
        )?;
        left = rows_past(left, number);
    }
    Ok(text)
}

/// What `code_trace` writes, with one line for each row of private steps.
pub fn folded_code_trace(
    alloc: Global,
    program: &Program,
    steps: &[InstructionStep],
) -> Result<String, NoMemory>
    ensures { IfOk result (λ text. string_bytes text ≡ folded_instructions program.now steps.now) }
{
    let rows = instruction_rows(alloc, steps)?;
    let mut left = rows.as_slice();
    let mut text = String::new(alloc);
    for (number, step) in steps.iter().enumerate() {
        push_made(&mut text, program, fold_at(left, number), number, *step)?;
        left = rows_past(left, number);
    }
    Ok(text)
}

// What stands for a step: its line, or that of the row that it begins.
fn push_step(
    text: &mut String,
    program: &Program,
    spots: &[StatementPlace<'_>],
    fold: Fold,
    number: usize,
    step: StatementStep,
) -> Result<(), AllocError>
    requires { number < 18446744073709551615 }
    ensures { OnOk result (string_bytes text.new ≡ string_bytes text.old ++ folded_line fold number (statement_line program.now (map told_standing spots.now) number step)) }
{
    match fold {
        Fold::Apart => push_line(text, program, spots, number, step),
        Fold::Begins(row) => push_row_line(text, number, row),
        Fold::Within => Ok(()),
    }
}

fn push_made(
    text: &mut String,
    program: &Program,
    fold: Fold,
    number: usize,
    step: InstructionStep,
) -> Result<(), AllocError>
    requires { number < 18446744073709551615 }
    ensures { OnOk result (string_bytes text.new ≡ string_bytes text.old ++ folded_line fold number (instruction_line program.now number step)) }
{
    match fold {
        Fold::Apart => push_instruction_line(text, program, number, step),
        Fold::Begins(row) => push_row_line(text, number, row),
        Fold::Within => Ok(()),
    }
}

fn push_row_line(text: &mut String, number: usize, row: Row) -> Result<(), AllocError>
    requires { number < 18446744073709551615 }
    ensures { OnOk result (string_bytes text.new ≡ string_bytes text.old ++ row_text number row ++ line_end) }
{
    push_row(text, number, row)?;
    text.push_str("\n")
}

/// A row of private steps that begins behind so many steps: the number of its first, the process, how many they are, and the
/// number of the last.
pub fn push_row(text: &mut String, number: usize, row: Row) -> Result<(), AllocError>
    requires { number < 18446744073709551615 }
    ensures { OnOk result (string_bytes text.new ≡ string_bytes text.old ++ row_text number row) }
{
    push_head(text, number, row.process)?;
    push_row_words(text, row.end.saturating_sub(number), row.end)
}

fn push_row_words(text: &mut String, count: usize, end: usize) -> Result<(), AllocError>
    ensures { OnOk result (string_bytes text.new ≡ string_bytes text.old ++ row_words count end) }
{
    if count == 1 {
        return text.push_str("1 private step");
    }
    push_number(text, count as u64)?;
    text.push_str(" private steps, up to step ")?;
    push_number(text, end as u64)
}
