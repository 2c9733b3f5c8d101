ghost use Rattle.std.specs.Prelude.{◌≡◌, ◌<◌, length};
ghost use Rattle.tick_lower.specs.Commits.{commits, ends_step};

use code_core::{Code, Instr};

/// Whether a step of the program ends at this place of its code: at an exchange where that succeeds.
/// A step ends too where any instruction traps.
pub fn commit(code: &Code, place: u16) -> bool
    requires { place < length code.now.instructions }
    ensures { result ≡ commits code.now.instructions place }
{
    ends_step(code.instr(place))
}

/// Whether this instruction ends a step of the program: an exchange does where it succeeds.
#[inline(always)]
pub fn ends_step(instruction: Instr) -> bool
    ensures { result ≡ ends_step instruction }
{
    matches!(
        instruction,
        Instr::Store(_)
            | Instr::Get(..)
            | Instr::Put(_)
            | Instr::Exchange(_)
            | Instr::Clear
            | Instr::Scan(_)
            | Instr::Copy(..)
            | Instr::Older(..)
            | Instr::Held(..)
            | Instr::Out
            | Instr::JumpZero(_)
            | Instr::Halt
    )
}
