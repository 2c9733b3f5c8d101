ghost use Rattle.std.specs.Prelude.{◌≡◌, ◌++◌, IfOk, OnOk, map, string_bytes};
ghost use Rattle.base.specs.Observables.{run_observed};
ghost use Rattle.tick_play.specs.Lines.{status_line, status_lines};
ghost use Rattle.tick_play.specs.Outcome.{end_text, outcome_lines};

use crate::lines::{push_rows, push_state, push_status};
use base::{NoMemory, RunEnd, RunOutcome, Status};
use std::alloc::{AllocError, Global};

/// A line for the outputs of each process, then for each register row, and then for each process.
pub fn outcome_text(alloc: Global, outcome: &RunOutcome) -> Result<String, NoMemory>
    ensures { IfOk result (λ text. string_bytes text ≡ outcome_lines (run_observed outcome.now)) }
{
    let mut text = String::new(alloc);
    push_rows(&mut text, "outputs", &outcome.outputs)?;
    push_rows(&mut text, "reg", &outcome.registers)?;
    push_ends(&mut text, &outcome.ends)?;
    Ok(text)
}

fn push_ends(text: &mut String, ends: &[RunEnd]) -> Result<(), AllocError>
    ensures { OnOk result (string_bytes text.new ≡ string_bytes text.old ++ status_lines 0 (map end_text ends.now)) }
{
    for (process, end) in ends.iter().enumerate() {
        push_end(text, process, *end)?;
    }
    Ok(())
}

fn push_end(text: &mut String, process: usize, end: RunEnd) -> Result<(), AllocError>
    ensures { OnOk result (string_bytes text.new ≡ string_bytes text.old ++ status_line process (end_text end)) }
{
    match end {
        RunEnd::Ended => push_status(text, process, Status::Ended),
        RunEnd::Trapped(trap) => push_status(text, process, Status::Trapped(trap)),
        RunEnd::TurnsSpent => push_state(text, process, "turns"),
        RunEnd::OutputsFull => push_state(text, process, "outputs"),
    }
}
