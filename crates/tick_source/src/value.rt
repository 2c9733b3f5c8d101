ghost use Rattle.std.specs.Prelude.{◌≡◌};
ghost use Rattle.tick_kinds.specs.Resolved.{resolved_expression};
ghost use Rattle.tick_source.specs.Values.{value};

use base::Trap;
use tick_kinds::resolved::Expression;

/// What an expression means for process `p` of `n` with these variables.
pub fn value_of(n: u8, p: u8, variables: &[u32], expression: &Expression) -> Result<u32, Trap>
    ensures { result ≡ value n p variables.now (resolved_expression expression.now) }
{
    match expression {
        Expression::Number(number) => Ok(*number),
        // An accepted program names only the variables that it has.
        Expression::Variable(x) => Ok(variables.get(*x as usize).copied().unwrap_or(0)),
        Expression::Me => Ok(u32::from(p)),
        Expression::Count => Ok(u32::from(n)),
        Expression::Binary(left, op, right) => {
            let a = value_of(n, p, variables, left)?;
            let b = value_of(n, p, variables, right)?;
            op.apply(a, b)
        }
    }
}
