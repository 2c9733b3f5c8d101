ghost use Rattle.std.specs.Prelude.{◌≡◌};
ghost use Rattle.base.specs.Operators.{sign, fitting, operation};

use crate::status::Trap;

/// The operators `+ - * / % < <= == !=`, in this order.
#[derive(Clone, Copy, PartialEq, Eq, Debug)]
pub enum Op {
    Add,
    Sub,
    Mul,
    Div,
    Rem,
    Less,
    AtMost,
    Equal,
    Differs,
}

impl Op {
    /// The operator as a text spells it.
    pub fn text(self) -> &'static str
        ensures { result.now ≡ sign self }
    {
        match self {
            Op::Add => "+",
            Op::Sub => "-",
            Op::Mul => "*",
            Op::Div => "/",
            Op::Rem => "%",
            Op::Less => "<",
            Op::AtMost => "<=",
            Op::Equal => "==",
            Op::Differs => "!=",
        }
    }

    /// The operator between two values, the left one first. Division is that of whole numbers, a
    /// comparison gives 0 or 1, and what is no value is a trap.
    // Whether there is a value is asked by a branch in each arm, and not once more of what `ok_or`
    // would make of it: a machine goes straight on from there.
    #[inline(always)]
    pub fn apply(self, left: u32, right: u32) -> Result<u32, Trap>
        ensures { result ≡ operation self left right }
    {
        match self {
            Op::Add => fitting(u64::from(left) + u64::from(right)),
            Op::Sub if right <= left => Ok(left - right),
            Op::Sub => Err(Trap::Below),
            Op::Mul => fitting(u64::from(left) * u64::from(right)),
            Op::Div | Op::Rem if right == 0 => Err(Trap::Zero),
            Op::Div => Ok(left / right),
            Op::Rem => Ok(left % right),
            Op::Less => Ok(u32::from(left < right)),
            Op::AtMost => Ok(u32::from(left <= right)),
            Op::Equal => Ok(u32::from(left == right)),
            Op::Differs => Ok(u32::from(left != right)),
        }
    }
}

// A number that is a value, else Overflow.
#[inline(always)]
fn fitting(number: u64) -> Result<u32, Trap>
    ensures { result ≡ fitting number }
{
    if number < 4294967296 {
        Ok(number as u32)
    } else {
        Err(Trap::Overflow)
    }
}
