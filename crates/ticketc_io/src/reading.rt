ghost use Rattle.std.specs.Prelude.{◌≡◌, ◌⊎◌, ◌+◌, ◌≤◌, IfErr, IfOk, length};
ghost use Rattle.ticketc_io.specs.Reading.{CountsReads, EndsLast, IsRead, TakesFew, fault_in};
ghost use Rattle.ticketc_io.specs.declared.fault.EndFault.TheVariants.{Memory};

use crate::ends::ByteSource;
use crate::fault::EndFault;
use crate::transfer::Transfer;
use std::alloc::{AllocError, Global};

/// The longest input that is answered, in bytes. One more is read, to tell a longer one.
pub const INPUT_LIMIT: usize = 1_000_000;

/// How often the input is asked for bytes at most, interruptions included.
const READ_LIMIT: u64 = 2_000_000;

// Reading alone takes memory.
impl From<AllocError> for EndFault {
    ghost from_gives = { λ _ fault. fault ≡ Memory };

    fn from(_error: AllocError) -> EndFault {
        EndFault::Memory
    }
}

/// Reads an input to its end, or one byte past the limit.
pub fn read_input<R: ByteSource>(alloc: Global, reader: &mut R) -> Result<Vec<u8>, EndFault>
    ensures ok { IfOk result (λ input. IsRead (R.remaining reader.old) (R.remaining reader.new) input.items) }
    ensures err { IfErr result (λ fault. (fault ≡ EndFault.Read) ⊎ (fault ≡ EndFault.Memory)) }
    ensures few { TakesFew (R.remaining reader.old) (R.remaining reader.new) }
    ensures calls { (R.counts reader.new).calls ≤ (R.counts reader.old).calls + 2000000 }
    ensures end { IfOk result (λ input. length input.items ≤ 1000000 → EndsLast (R.counts reader.old) (R.counts reader.new)) }
    ensures counted { CountsReads (fault_in result) (R.counts reader.old) (R.counts reader.new) }
{
    let mut buffer = [0u8; 16_384];
    let mut input = Vec::new(alloc);
    'calls: for _ in 0..READ_LIMIT {
        let room = buffer.len().min(INPUT_LIMIT + 1 - input.len());
        match reader.read(&mut buffer[..room]) {
            Transfer::Moved(0) => return Ok(input),
            Transfer::Moved(count) => input.extend_from_slice(&buffer[..count])?,
            Transfer::Interrupted => {}
            Transfer::Failed => return Err(EndFault::Read),
        }
        if input.len() > INPUT_LIMIT {
            return Ok(input);
        }
    }
    Err(EndFault::Read)
}
