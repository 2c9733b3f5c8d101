//! Writes an answer: what was asked for to standard output, and the rest to standard error.
ghost use Rattle.std.specs.Prelude.{◌≡◌, ◌++◌, IfErr, IfOk, OnOk};
ghost use Rattle.ticklab_answers.specs.Colours.{shown_as};
ghost use Rattle.ticklab_files.specs.Faults.{IsOfOutput};
ghost use Rattle.ticklab_answers.specs.Serving.{Grows};

use crate::colours::{Colours, coloured};
use std::alloc::Global;
use std::io::Write;
use ticklab_files::{LabFault, Response};

/// Writes the answer with these colours, and gives its status.
pub fn told<O: Write, T: Write>(
    alloc: Global,
    out: &mut O,
    err: &mut T,
    colours: Colours,
    response: &Response,
) -> Result<u8, LabFault>
    ensures status { IfOk result (λ status. status ≡ response.now.status) }
    ensures out { OnOk result (Grows (O.contents out.old) (O.contents out.new) (shown_as colours.out response.now.out.items)) }
    ensures told { OnOk result (Grows (T.contents err.old) (T.contents err.new) (shown_as colours.err response.now.told.items)) }
    ensures err { IfErr result (IsOfOutput (shown_as colours.out response.now.out.items ++ shown_as colours.err response.now.told.items)) }
{
    write_shown(alloc, out, colours.out, response.out.as_slice())?;
    write_shown(alloc, err, colours.err, response.told.as_slice())?;
    Ok(response.status)
}

/// Writes a text, with colours or without.
pub fn write_shown<W: Write>(
    alloc: Global,
    writer: &mut W,
    has_colours: bool,
    text: &[u8],
) -> Result<(), LabFault>
    ensures ok { OnOk result (Grows (W.contents writer.old) (W.contents writer.new) (shown_as has_colours text.now)) }
    ensures err { IfErr result (IsOfOutput (shown_as has_colours text.now)) }
{
    if has_colours {
        let shown = coloured(alloc, text)?;
        return write_all(writer, shown.as_slice());
    }
    write_all(writer, text)
}

fn write_all<W: Write>(writer: &mut W, bytes: &[u8]) -> Result<(), LabFault>
    ensures ok { OnOk result (Grows (W.contents writer.old) (W.contents writer.new) bytes.now) }
    ensures err { IfErr result (IsOfOutput bytes.now) }
{
    if bytes.is_empty() {
        return Ok(());
    }
    match writer.write_all(bytes) {
        Ok(()) => Ok(()),
        Err(error) => Err(LabFault::of_output(bytes, error)),
    }
}
