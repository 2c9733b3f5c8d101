ghost use Rattle.std.specs.Prelude.{◌≡◌, ◌∷◌, ◌++◌, IfOk, OnOk, string_bytes};
ghost use Rattle.language_schedules.specs.Written.{item_text, schedule_text};

use crate::schedule::Item;
use base::{NoMemory, push_number};
use std::alloc::{AllocError, Global};

/// The shortest text of a schedule: an item for each longest run of steps of one process, and one
/// space between each two.
pub fn write_schedule(alloc: Global, steps: &[u8]) -> Result<String, NoMemory>
    ensures { IfOk result (λ text. string_bytes text ≡ schedule_text steps.now) }
{
    let mut text = String::new(alloc);
    if let Some((first, rest)) = steps.split_first() {
        push_runs(&mut text, *first, rest)?;
    }
    Ok(text)
}

// The runs of a step of `first` and then of the others.
fn push_runs(text: &mut String, first: u8, rest: &[u8]) -> Result<(), AllocError>
    ensures { OnOk result (string_bytes text.new ≡ string_bytes text.old ++ schedule_text (first ∷ rest.now)) }
{
    let mut run = one_step(first);
    for &process in rest {
        if u64::from(process) == run.process {
            run.steps += 1;
        } else {
            push_item(text, run)?;
            text.push_str(" ")?;
            run = one_step(process);
        }
    }
    push_item(text, run)
}

fn one_step(process: u8) -> Item
    ensures { result ≡ record { process = process; steps = 1 } }
{
    Item {
        process: u64::from(process),
        steps: 1,
    }
}

fn push_item(text: &mut String, item: Item) -> Result<(), AllocError>
    ensures { OnOk result (string_bytes text.new ≡ string_bytes text.old ++ item_text item) }
{
    push_number(text, item.process)?;
    if item.steps == 1 {
        return Ok(());
    }
    text.push_str("*")?;
    push_number(text, item.steps)
}
