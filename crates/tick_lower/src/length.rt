ghost use Rattle.std.specs.Prelude.{◌≡◌, min};
ghost use Rattle.tick_kinds.specs.Resolved.{resolved_expression, resolved_statement, resolved_block};
ghost use Rattle.tick_lower.specs.Lowered.{expression_length, statement_length, block_length};

use tick_kinds::resolved::{Expression, Statement};

// How many instructions an expression becomes, counted up to the greatest number that fits.
fn expression_length(expression: &Expression) -> u32
    ensures { result ≡ min (expression_length (resolved_expression expression.now)) 4294967295 }
{
    match expression {
        Expression::Number(_) | Expression::Variable(_) | Expression::Me | Expression::Count => 1,
        Expression::Binary(left, _, right) => {
            let operands = expression_length(left).saturating_add(expression_length(right));
            operands.saturating_add(1)
        }
    }
}

#[cycle(length)]
fn statement_length(statement: &Statement) -> u32
    ensures { result ≡ min (statement_length (resolved_statement statement.now)) 4294967295 }
{
    match statement {
        Statement::Stamp => 3,
        Statement::Clear | Statement::Scan(_) | Statement::Copy(..) => 1,
        Statement::Assign(_, value)
        | Statement::Get(_, _, value)
        | Statement::Put(_, value)
        | Statement::Held(_, _, value)
        | Statement::Out(value) => expression_length(value).saturating_add(1),
        Statement::Older(_, _, first, second) => expression_length(first)
            .saturating_add(expression_length(second))
            .saturating_add(1),
        Statement::If(test, first, second) => expression_length(test)
            .saturating_add(block_length(first))
            .saturating_add(block_length(second))
            .saturating_add(2),
        Statement::While(test, body) => expression_length(test)
            .saturating_add(block_length(body))
            .saturating_add(2),
    }
}

/// How many instructions a block becomes, counted up to the greatest number that fits.
#[cycle(length)]
pub fn block_length(statements: &[Statement]) -> u32
    ensures { result ≡ min (block_length (resolved_block statements.now)) 4294967295 }
{
    let mut length = 0u32;
    for statement in statements {
        length = length.saturating_add(statement_length(statement));
    }
    length
}
