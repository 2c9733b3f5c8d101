//! The instructions of statements, one statement after another. A jump is written once its target is known.
ghost use Rattle.std.specs.Prelude.{◌≡◌, ◌≤◌, ◌<◌, ◌+◌, [], ◌∷◌, ◌++◌, length, slice_set, OnOk};
ghost use Rattle.tick_kinds.specs.Resolved.{resolved_expression, resolved_statement, resolved_block};
ghost use Rattle.base.specs.Plain.{stamp, branch, repeat};
ghost use Rattle.tick_lower.specs.Lowered.{statement_length, block_length, expression_code, statement_code, block_code};

use code_core::Instr;
use std::alloc::AllocError;
use tick_kinds::resolved::{Expression, Statement};

// One instruction more.
fn emit(code: &mut Vec<Instr>, instruction: Instr) -> Result<(), AllocError>
    ensures { OnOk result (code.new.items ≡ code.old.items ++ instruction ∷ []) }
{
    code.push(instruction)?;
    Ok(())
}

// The place of the next instruction.
fn next_place(code: &[Instr]) -> u16
    requires { length code.now ≤ 65535 }
    ensures { result ≡ length code.now }
{
    code.len() as u16
}

// Puts a jump where room was left for it.
fn patch(code: &mut Vec<Instr>, place: u16, jump: Instr)
    requires { place < length code.old.items }
    ensures { code.new.items ≡ slice_set code.old.items place jump }
{
    code[usize::from(place)] = jump;
}

fn emit_expression(code: &mut Vec<Instr>, expression: &Expression) -> Result<(), AllocError>
    ensures { OnOk result (code.new.items ≡ code.old.items ++ expression_code (resolved_expression expression.now)) }
{
    match expression {
        Expression::Number(value) => emit(code, Instr::Push(*value)),
        Expression::Variable(variable) => emit(code, Instr::Load(*variable)),
        Expression::Me => emit(code, Instr::Me),
        Expression::Count => emit(code, Instr::Count),
        Expression::Binary(left, operator, right) => {
            emit_expression(code, left)?;
            emit_expression(code, right)?;
            emit(code, Instr::Bin(*operator))
        }
    }
}

fn emit_stamp(code: &mut Vec<Instr>) -> Result<(), AllocError>
    requires { length code.old.items ≤ 65535 }
    ensures { OnOk result (code.new.items ≡ code.old.items ++ statement_code (length code.old.items) stamp) }
{
    let load = next_place(code);
    emit(code, Instr::LoadWord)?;
    emit(code, Instr::Next)?;
    emit(code, Instr::Exchange(load))
}

#[tactic(auto, using(crate::proofs::Emitted::long_expression))]
#[cycle(statement)]
fn emit_branch(
    code: &mut Vec<Instr>,
    test: &Expression,
    first: &[Statement],
    second: &[Statement],
) -> Result<(), AllocError>
    requires { length code.old.items + statement_length (branch (resolved_expression test.now) (resolved_block first.now) (resolved_block second.now)) ≤ 65535 }
    ensures { OnOk result (code.new.items ≡ code.old.items ++ statement_code (length code.old.items) (branch (resolved_expression test.now) (resolved_block first.now) (resolved_block second.now))) }
{
    emit_expression(code, test)?;
    let to_second = next_place(code);
    emit(code, Instr::JumpZero(0))?;
    emit_block(code, first)?;
    let past_second = next_place(code);
    emit(code, Instr::Jump(0))?;
    let second_place = next_place(code);
    emit_block(code, second)?;
    let end = next_place(code);
    patch(code, to_second, Instr::JumpZero(second_place));
    patch(code, past_second, Instr::Jump(end));
    Ok(())
}

#[tactic(auto, using(crate::proofs::Emitted::long_expression))]
#[cycle(statement)]
fn emit_repeat(
    code: &mut Vec<Instr>,
    test: &Expression,
    body: &[Statement],
) -> Result<(), AllocError>
    requires { length code.old.items + statement_length (repeat (resolved_expression test.now) (resolved_block body.now)) ≤ 65535 }
    ensures { OnOk result (code.new.items ≡ code.old.items ++ statement_code (length code.old.items) (repeat (resolved_expression test.now) (resolved_block body.now))) }
{
    let start = next_place(code);
    emit_expression(code, test)?;
    let past_body = next_place(code);
    emit(code, Instr::JumpZero(0))?;
    emit_block(code, body)?;
    emit(code, Instr::Jump(start))?;
    let end = next_place(code);
    patch(code, past_body, Instr::JumpZero(end));
    Ok(())
}

#[cycle(statement)]
fn emit_statement(code: &mut Vec<Instr>, statement: &Statement) -> Result<(), AllocError>
    requires { length code.old.items + statement_length (resolved_statement statement.now) ≤ 65535 }
    ensures { OnOk result (code.new.items ≡ code.old.items ++ statement_code (length code.old.items) (resolved_statement statement.now)) }
{
    match statement {
        Statement::Assign(variable, value) => {
            emit_expression(code, value)?;
            emit(code, Instr::Store(*variable))
        }
        Statement::Get(variable, register, process) => {
            emit_expression(code, process)?;
            emit(code, Instr::Get(*register, *variable))
        }
        Statement::Put(register, value) => {
            emit_expression(code, value)?;
            emit(code, Instr::Put(*register))
        }
        Statement::Stamp => emit_stamp(code),
        Statement::Clear => emit(code, Instr::Clear),
        Statement::Scan(scan) => emit(code, Instr::Scan(*scan)),
        Statement::Copy(target, source) => emit(code, Instr::Copy(*source, *target)),
        Statement::Older(variable, scan, first, second) => {
            emit_expression(code, first)?;
            emit_expression(code, second)?;
            emit(code, Instr::Older(*scan, *variable))
        }
        Statement::Held(variable, scan, process) => {
            emit_expression(code, process)?;
            emit(code, Instr::Held(*scan, *variable))
        }
        Statement::Out(value) => {
            emit_expression(code, value)?;
            emit(code, Instr::Out)
        }
        Statement::If(test, first, second) => emit_branch(code, test, first, second),
        Statement::While(test, body) => emit_repeat(code, test, body),
    }
}

/// The instructions of a block, after those that stand there already.
#[cycle(statement)]
pub fn emit_block(code: &mut Vec<Instr>, statements: &[Statement]) -> Result<(), AllocError>
    requires { length code.old.items + block_length (resolved_block statements.now) ≤ 65535 }
    ensures { OnOk result (code.new.items ≡ code.old.items ++ block_code (length code.old.items) (resolved_block statements.now)) }
{
    for statement in statements {
        emit_statement(code, statement)?;
    }
    Ok(())
}
