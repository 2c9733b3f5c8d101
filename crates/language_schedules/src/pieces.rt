// Texts whose pieces blanks separate.
ghost use Rattle.std.specs.Prelude.{◌≡◌, ◌≢◌, ℕ, IfErr, IfOk, OnOk};
ghost use Rattle.language_schedules.specs.Schedule.{Adds, all_pieces};
ghost use Rattle.language_schedules.specs.declared.schedule.ScheduleFault.TheVariants.{NoMemory};

use crate::schedule::{Added, ScheduleFault};
use base::is_blank;
use std::alloc::Global;

/// What a text is read to, piece by piece.
pub trait Spelled: Drop {
    ghost with: { ℕ → Adds Self };

    /// Adds what the piece at this place spells, of `n` processes. An empty piece spells nothing.
    fn push_piece(read: &mut Vec<Self>, place: usize, piece: &[u8], n: u8) -> Added
        ensures ok { OnOk result (with n place read.old.items piece.now ≡ Ok read.new.items) }
        ensures err { IfErr result (λ fault. fault ≢ NoMemory → with n place read.old.items piece.now ≡ Err fault) };
}

/// What all pieces of a text spell.
pub fn read_pieces<S: Spelled>(alloc: Global, text: &str, n: u8) -> Result<Vec<S>, ScheduleFault>
    ensures ok { IfOk result (λ read. all_pieces (S.with n) text.now ≡ Ok read.items) }
    ensures err { IfErr result (λ fault. fault ≢ NoMemory → all_pieces (S.with n) text.now ≡ Err fault) }
{
    let bytes = text.as_bytes();
    let mut read = Vec::new(alloc);
    let mut start = 0;
    for (place, byte) in bytes.iter().enumerate() {
        if is_blank(*byte) {
            S::push_piece(&mut read, start, &bytes[start..place], n)?;
            start = place + 1;
        }
    }
    S::push_piece(&mut read, start, &bytes[start..], n)?;
    Ok(read)
}
