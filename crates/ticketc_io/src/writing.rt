ghost use Rattle.std.specs.Prelude.{◌≡◌, IfErr, OnErr, OnOk};
ghost use Rattle.std.specs.Io.KnownBytes.{Appends};
ghost use Rattle.ticketc_io.specs.Reading.{fault_in};
ghost use Rattle.ticketc_io.specs.Writing.{CountsWrites, WritesPrefix};

use crate::ends::ByteSink;
use crate::fault::EndFault;
use crate::transfer::Transfer;

/// How many interruptions in a row a write is tried again after.
const PATIENCE: u64 = 1000;

/// Writes the whole text.
pub fn write_text<W: ByteSink>(writer: &mut W, text: &[u8]) -> Result<(), EndFault>
    ensures ok { OnOk result (Appends (W.written writer.old) (W.written writer.new) text.now) }
    ensures err { OnErr result (WritesPrefix (W.written writer.old) (W.written writer.new) text.now) }
    ensures fault { IfErr result (λ fault. fault ≡ EndFault.Write) }
    ensures counted { CountsWrites (fault_in result) (W.counts writer.old) (W.counts writer.new) }
{
    let mut sent = 0;
    let mut interruptions = 0;
    while sent < text.len() {
        match writer.write(&text[sent..]) {
            Transfer::Moved(count) => {
                if count == 0 {
                    return Err(EndFault::Write);
                }
                sent += count;
                interruptions = 0;
            }
            Transfer::Failed => return Err(EndFault::Write),
            Transfer::Interrupted if interruptions == PATIENCE => return Err(EndFault::Write),
            Transfer::Interrupted => interruptions += 1,
        }
    }
    Ok(())
}
