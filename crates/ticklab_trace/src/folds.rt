//! Private steps, and rows of them.

ghost use Rattle.std.specs.Prelude.{◌≡◌, ◌<◌, ◌≤◌, ◌+◌, ◌++◌, IfOk, OnOk, length};
ghost use Rattle.ticklab_trace.specs.Folds.{begun, ends_row, fold_at, goes_on, instruction_privacy, instruction_rows, is_private_act, is_private_made, is_shared_act, listed, longer, over, row_with, rows_past, statement_privacy, statement_rows};

use crate::parts::{Parts, begun_at};
use crate::steps::{InstructionStep, StatementStep};
use base::Act;
use code_core::Instr;
use std::alloc::{AllocError, Global};
use word_core::LabelWord;

/// Whose a step is, and whether it is private: it touches nothing that processes share.
#[derive(Clone, Copy)]
pub struct Privacy {
    pub process: u8,
    pub is_private: bool,
}

/// A row of private steps of one process, one after the other.
#[derive(Clone, Copy)]
pub struct Row {
    /// Behind so many steps it begins.
    pub first: usize,
    /// Behind so many it is over; this is also the number of its last step, from 1.
    pub end: usize,
    pub process: u8,
}

/// How a step stands to rows of private steps.
#[derive(Clone, Copy)]
pub enum Fold {
    /// It belongs to none.
    Apart,
    /// It is the first of this one.
    Begins(Row),
    /// It is a further one of a row.
    Within,
}

/// The rows of the private steps among these of a program, each as long as can be. So many steps come before these. No row
/// goes on from one part of the run into the next.
pub fn statement_rows(
    alloc: Global,
    parts: Option<Parts>,
    before: usize,
    steps: &[StatementStep],
) -> Result<Vec<Row>, AllocError>
    requires { before + length steps.now ≤ 18446744073709551615 }
    ensures { IfOk result (λ rows. rows.items ≡ statement_rows parts before steps.now) }
{
    let mut rows = Vec::new(alloc);
    let mut row = None;
    for (number, step) in steps.iter().enumerate() {
        let step = statement_privacy(*step);
        row = add_step(&mut rows, parts, before + number, row, step)?;
    }
    add_row(&mut rows, row)?;
    Ok(rows)
}

/// The same of a code.
pub fn instruction_rows(alloc: Global, steps: &[InstructionStep]) -> Result<Vec<Row>, AllocError>
    ensures { IfOk result (λ rows. rows.items ≡ instruction_rows steps.now) }
{
    let mut rows = Vec::new(alloc);
    let mut row = None;
    for (number, step) in steps.iter().enumerate() {
        let step = instruction_privacy(*step);
        row = add_step(&mut rows, None, number, row, step)?;
    }
    add_row(&mut rows, row)?;
    Ok(rows)
}

// Adds the row before a step, where it is over, and answers the one that ends with the step.
fn add_step(
    rows: &mut Vec<Row>,
    parts: Option<Parts>,
    number: usize,
    row: Option<Row>,
    step: Privacy,
) -> Result<Option<Row>, AllocError>
    requires { number < 18446744073709551615 }
    ensures over { OnOk result (rows.new.items ≡ rows.old.items ++ over parts number row step) }
    ensures row { IfOk result (λ next. next ≡ row_with parts number row step) }
{
    if goes_on(parts, number, row, step) {
        return Ok(longer(number, row));
    }
    add_row(rows, row)?;
    Ok(begun(number, step))
}

fn add_row(rows: &mut Vec<Row>, row: Option<Row>) -> Result<(), AllocError>
    ensures { OnOk result (rows.new.items ≡ rows.old.items ++ listed row) }
{
    match row {
        Some(row) => {
            rows.push(row)?;
            Ok(())
        }
        None => Ok(()),
    }
}

// Whether a step goes on with a row.
fn goes_on(parts: Option<Parts>, number: usize, row: Option<Row>, step: Privacy) -> bool
    ensures { result ≡ goes_on parts number row step }
{
    match row {
        None => false,
        Some(row) => {
            step.is_private && step.process == row.process && begun_at(parts, number).is_none()
        }
    }
}

// A row that is one step longer.
fn longer(number: usize, row: Option<Row>) -> Option<Row>
    requires { number < 18446744073709551615 }
    ensures { result ≡ longer number row }
{
    match row {
        None => None,
        Some(row) => Some(Row {
            first: row.first,
            end: number + 1,
            process: row.process,
        }),
    }
}

// A row of a single step.
fn begun(number: usize, step: Privacy) -> Option<Row>
    requires { number < 18446744073709551615 }
    ensures { result ≡ begun number step }
{
    if step.is_private {
        Some(Row {
            first: number,
            end: number + 1,
            process: step.process,
        })
    } else {
        None
    }
}

fn statement_privacy(step: StatementStep) -> Privacy
    ensures { result ≡ statement_privacy step }
{
    Privacy {
        process: step.process,
        is_private: is_private(step.act),
    }
}

fn instruction_privacy(step: InstructionStep) -> Privacy
    ensures { result ≡ instruction_privacy step }
{
    Privacy {
        process: step.process,
        is_private: is_private_made(step.instruction, step.lost, step.act),
    }
}

/// Whether a step is private that shows this.
pub fn is_private(act: Option<Act>) -> bool
    ensures { result ≡ is_private_act act }
{
    match act {
        Some(act) => !is_shared_act(act),
        None => true,
    }
}

/// The same of an instruction. No other process sees that one loads the labels or loses an exchange to them, but by these a
/// process sees what others do.
pub fn is_private_made(
    instruction: Option<Instr>,
    lost: Option<LabelWord>,
    act: Option<Act>,
) -> bool
    ensures { result ≡ is_private_made instruction lost act }
{
    match (instruction, lost) {
        (Some(Instr::LoadWord), _) => false,
        (_, None) => is_private(act),
        (_, Some(_)) => false,
    }
}

/// Whether other processes can see an act: no question of a process to itself, and nothing that it gives out.
pub fn is_shared_act(act: Act) -> bool
    ensures { result ≡ is_shared_act act }
{
    !matches!(act, Act::Older(..) | Act::Held(..) | Act::Out(_))
}

/// How the step behind so many others stands to the rows that don't end before it.
pub fn fold_at(rows: &[Row], number: usize) -> Fold
    ensures { result ≡ fold_at rows.now number }
{
    let Some(row) = rows.first() else {
        return Fold::Apart;
    };
    if number < row.first {
        Fold::Apart
    } else if row.first == number {
        Fold::Begins(*row)
    } else {
        Fold::Within
    }
}

/// Whether the first of these rows ends with it.
pub fn ends_row(rows: &[Row], number: usize) -> bool
    requires { number < 18446744073709551615 }
    ensures { result ≡ ends_row rows.now number }
{
    match rows.first() {
        Some(row) => row.end == number + 1,
        None => false,
    }
}

/// The rows that don't end with it, nor before it.
pub fn rows_past(rows: &[Row], number: usize) -> &[Row]
    requires { number < 18446744073709551615 }
    ensures { result.now ≡ rows_past rows.now number }
{
    if ends_row(rows, number) {
        &rows[1..]
    } else {
        rows
    }
}
