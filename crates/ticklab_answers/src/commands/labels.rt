//! `ticklab labels`.
ghost use Rattle.std.specs.Prelude.{◌≡◌, ◌≤◌, IfErr, IfOk, string_bytes};
ghost use Rattle.ticklab_files.specs.Faults.{IsOfMemory};
ghost use Rattle.ticklab_answers.specs.Labels.{AreDrawn, AreUndrawn, DrawsLabels};
ghost use Rattle.ticklab_answers.specs.Lines.{many_line};
ghost use Rattle.ticklab_files.specs.Responses.{Gives};
ghost use Rattle.ticklab_files.specs.Stops.{IfRefused};

use base::NoMemory;
use std::alloc::{AllocError, Global};
use ticklab_draw::{MOST_MOVES, frames, write_frames};
use ticklab_files::{DONE, LabFault, NoAnswer, Response, moves_of, output, settled};

/// The labels of `n` processes under the stamps and clears that a text spells, as a picture.
pub fn labelled(alloc: Global, n: u8, text: &str) -> Result<Response, LabFault>
    ensures ok { IfOk result (DrawsLabels n text.now) }
    ensures err { IfErr result IsOfMemory }
{
    Ok(settled(alloc, labels_drawn(alloc, n, text))?)
}

fn labels_drawn(alloc: Global, n: u8, text: &str) -> Result<Response, NoAnswer>
    ensures ok { IfOk result (Gives 0 (AreDrawn n text.now)) }
    ensures refused { IfErr result (λ stop. IfRefused stop (AreUndrawn n text.now)) }
{
    if n < 1 || n > 6 {
        let line = String::from_str(alloc, "N: error: there are 1 to 6 processes\n")?;
        return Err(NoAnswer::Refused(line.into_bytes()));
    }
    frames_drawn(alloc, n, text)
}

fn frames_drawn(alloc: Global, n: u8, text: &str) -> Result<Response, NoAnswer>
    requires at_least_one { 1 ≤ n }
    requires at_most_six { n ≤ 6 }
    ensures ok { IfOk result (Gives 0 (AreDrawn n text.now)) }
    ensures refused { IfErr result (λ stop. IfRefused stop (AreUndrawn n text.now)) }
{
    let moves = moves_of(alloc, text, n)?;
    if moves.len() > MOST_MOVES {
        let line = many_line(alloc, moves.len())?;
        return Err(NoAnswer::Refused(line.into_bytes()));
    }
    let frames = frames(alloc, n, moves.as_slice())?;
    let out = write_frames(alloc, n, frames.as_slice())?;
    Ok(output(alloc, DONE, out))
}

// There are more moves than are drawn.
fn many_line(alloc: Global, count: usize) -> Result<String, AllocError>
    ensures { IfOk result (λ line. string_bytes line ≡ many_line count) }
{
    format!(in alloc; "STAMPS: error: there are {count} moves, and at most 400 are drawn\n")
}
