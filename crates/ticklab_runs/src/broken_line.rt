//! The line that breaks, behind what was told.
ghost use Rattle.std.specs.Prelude.{◌≡◌, ◌++◌, ℕ, List, IfOk, string_bytes};
ghost use Rattle.ticklab_explain.specs.Questions.{IsPointed};
ghost use Rattle.ticklab_runs.specs.Lines.{broken_text};

use base::{NoMemory, Trap, push_number};
use std::alloc::{AllocError, Global};
use tick_play::trap_name;
use ticklab_explain::point;
use ticklab_files::PropertyPlace;

/// What was found, and behind it the line that breaks, with what it comes to.
pub fn with_line(
    alloc: Global,
    traced: Vec<u8>,
    place: &PropertyPlace<'_>,
    value: Result<u32, Trap>,
) -> Result<Vec<u8>, NoMemory>
    ensures { IfOk result (λ out. (pointed : List ℕ) × IsPointed place.now.name.now place.now.text.now place.now.span (broken_text value) pointed × (out.items ≡ traced.items ++ pointed)) }
{
    let message = broken_text(alloc, value)?;
    let pointed = point(alloc, place.name, place.text, place.span, &message)?;
    let mut out = traced;
    out.extend_from_slice(pointed.as_slice())?;
    Ok(out)
}

fn broken_text(alloc: Global, value: Result<u32, Trap>) -> Result<String, AllocError>
    ensures { IfOk result (λ text. string_bytes text ≡ broken_text value) }
{
    match value {
        Ok(value) => {
            let mut text = String::from_str(alloc, "this must never hold, and its value is ")?;
            push_number(&mut text, u64::from(value))?;
            Ok(text)
        }
        Err(trap) => {
            let mut text = String::from_str(alloc, "this has no value: it traps with ")?;
            text.push_str(trap_name(trap))?;
            Ok(text)
        }
    }
}
