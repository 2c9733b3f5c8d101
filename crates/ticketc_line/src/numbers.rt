// The numbers that commands have.
ghost use Rattle.std.specs.Prelude.{◌≡◌, ◌<◌, ◌≤◌, ◌^◌, IfOk};
ghost use Rattle.base.specs.Number.{number_of};
ghost use Rattle.ticketc_line.specs.Asked.{lawful as lawful_number, processes_of, turns_of};

use crate::command::LineFault;
use base::number;

/// The greatest N that a command line may have.
const NUMBER_LIMIT: u64 = 4_294_967_295;

/// The greatest TURNS.
const TURNS_LIMIT: u64 = 1_000_000_000;

/// A number of processes, 1 to 6.
pub fn processes(text: &str) -> Result<u8, LineFault>
    ensures number { result ≡ processes_of text.now }
    ensures fits { IfOk result (λ n. (1 ≤ n) × (n ≤ 6)) }
{
    let Some(n) = lawful(text, NUMBER_LIMIT) else {
        return Err(LineFault::Usage);
    };
    if n == 0 || n > 6 {
        return Err(LineFault::Processes);
    }
    Ok(n as u8)
}

/// A number of turns.
pub fn turns(text: &str) -> Result<u64, LineFault>
    ensures { result ≡ turns_of text.now }
{
    match lawful(text, TURNS_LIMIT) {
        Some(turns) => Ok(turns),
        None => Err(LineFault::Usage),
    }
}

// The number that a text of digits spells, if it isn't above the limit.
fn lawful(text: &str, limit: u64) -> Option<u64>
    requires { limit < 2 ^ 32 }
    ensures { result ≡ lawful_number limit (number_of text.now) }
{
    let n = number(text.as_bytes())?;
    if n > limit { None } else { Some(n) }
}
