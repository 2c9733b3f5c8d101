ghost use Rattle.std.specs.Prelude.{◌≡◌, ◌≤◌, ◌<◌, ◌+◌, IfSome};
ghost use Rattle.code_core.specs.Instructions.{pops, pushes, left, target, goes_on, fits};
ghost use Rattle.code_core.specs.Heights.{height_by, hands_on};

use crate::instr::Instr;
use crate::sizes::Sizes;

/// How many values the instruction takes from the stack.
pub fn pops(instruction: Instr) -> u16
    ensures { result ≡ pops instruction }
{
    match instruction {
        Instr::Bin(_) | Instr::Older(..) => 2,
        Instr::Store(_)
        | Instr::Get(..)
        | Instr::Put(_)
        | Instr::Held(..)
        | Instr::Out
        | Instr::JumpZero(_) => 1,
        _ => 0,
    }
}

// How many values it then puts on it.
fn pushes(instruction: Instr) -> u16
    ensures exact { result ≡ pushes instruction }
    ensures one { result ≤ 1 }
{
    match instruction {
        Instr::Push(_) | Instr::Load(_) | Instr::Me | Instr::Count | Instr::Bin(_) => 1,
        _ => 0,
    }
}

/// The height that it leaves of a stack of this height.
pub fn left(instruction: Instr, height: u16) -> u16
    requires { height < 65535 }
    ensures exact { result ≡ left instruction height }
    ensures low { result ≤ height + 1 }
{
    height.saturating_sub(pops(instruction)) + pushes(instruction)
}

/// The place to which it may jump.
pub fn target(instruction: Instr) -> Option<u16>
    ensures { result ≡ target instruction }
{
    match instruction {
        Instr::JumpZero(place) | Instr::Jump(place) => Some(place),
        _ => None,
    }
}

/// Whether the instruction after it may come next.
pub fn goes_on(instruction: Instr) -> bool
    ensures { result ≡ goes_on instruction }
{
    !matches!(instruction, Instr::Jump(_) | Instr::Halt)
}

/// Whether there are the slots that it names.
pub fn fits(sizes: Sizes, instruction: Instr) -> bool
    ensures { result ≡ fits sizes instruction }
{
    match instruction {
        Instr::Load(x) | Instr::Store(x) => x < sizes.variables(),
        Instr::Get(r, x) => r < sizes.registers() && x < sizes.variables(),
        Instr::Put(r) => r < sizes.registers(),
        Instr::Scan(s) => s < sizes.scans(),
        Instr::Copy(s, t) => s < sizes.scans() && t < sizes.scans(),
        Instr::Older(s, x) | Instr::Held(s, x) => s < sizes.scans() && x < sizes.variables(),
        _ => true,
    }
}

/// The height of a place: what the instruction before leaves, else what a jump to it left, else 0.
pub fn height_by(before: Option<u16>, came: Option<u16>) -> u16
    ensures { result ≡ height_by before came }
{
    before.or(came).unwrap_or(0)
}

/// The height that is left to the next place, where the instruction goes on to it.
pub fn hands_on(instruction: Instr, height: u16) -> Option<u16>
    requires { height < 65535 }
    ensures exact { result ≡ hands_on instruction height }
    ensures low { IfSome result (λ left. left ≤ height + 1) }
{
    goes_on(instruction).then_some(left(instruction, height))
}
