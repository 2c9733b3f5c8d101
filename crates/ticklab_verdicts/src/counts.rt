//! Numbers with the word for what they count, as `1 run` and `2 runs`.
ghost use Rattle.std.specs.Prelude.{◌≡◌, ◌++◌, OnOk, string_bytes};
ghost use Rattle.ticklab_verdicts.specs.Lines.{many};

use base::push_number;
use std::alloc::AllocError;

/// Adds how many there are, and the word for one or for more: `1 run`, `2 runs`.
#[tactic(auto, unfolding(crate::specs::Lines::many))]
pub fn push_many(text: &mut String, count: u32, one: &str, more: &str) -> Result<(), AllocError>
    ensures { OnOk result (string_bytes text.new ≡ string_bytes text.old ++ many count one.now more.now) }
{
    push_number(text, u64::from(count))?;
    text.push_str(" ")?;
    text.push_str(if count == 1 { one } else { more })
}
