ghost use Rattle.std.specs.Prelude.{◌≡◌, ◌≢◌, ◌==◌, ◌<◌, All, IfErr, IfOk, OnOk, Some, if◌then◌else◌};
ghost use Rattle.ticket_core.specs.declared.moves.Move.TheVariants.{Stamp, Clear};
ghost use Rattle.language_schedules.specs.Moves.{moves_of, mover, with_moves};
ghost use Rattle.language_schedules.specs.Schedule.{item_of, with_item};
ghost use Rattle.language_schedules.specs.declared.schedule.ScheduleFault.TheVariants.{NoMemory};

use crate::pieces::{Spelled, read_pieces};
use crate::schedule::{Added, Item, ScheduleFault, process_of, read_item};
use std::alloc::Global;
use ticket_core::Move;

// What an item of clears begins with.
const CLEAR: u8 = b'c';

/// The stamps and clears of `n` processes that the text spells. Items are those of a schedule, each of
/// stamps, and after a `c` of clears.
pub fn read_moves(alloc: Global, text: &str, n: u8) -> Result<Vec<Move>, ScheduleFault>
    ensures ok { IfOk result (λ moves. moves_of n text.now ≡ Ok moves.items) }
    ensures err { IfErr result (λ fault. fault ≢ NoMemory → moves_of n text.now ≡ Err fault) }
    ensures in_range { IfOk result (λ moves. All (λ move. mover move < n) moves.items) }
{
    read_pieces(alloc, text, n)
}

impl Spelled for Move {
    ghost with = { with_moves };

    fn push_piece(moves: &mut Vec<Move>, place: usize, piece: &[u8], n: u8) -> Added {
        match piece.split_first() {
            None => Ok(()),
            Some((&CLEAR, item)) => push_spelled(moves, place, item, true, n),
            Some(_) => push_spelled(moves, place, piece, false, n),
        }
    }
}

// Adds the moves of the item that a text spells.
fn push_spelled(moves: &mut Vec<Move>, place: usize, text: &[u8], clears: bool, n: u8) -> Added
    ensures ok { OnOk result (with_item (if clears then Clear else Stamp) n place moves.old.items (item_of text.now) ≡ Ok moves.new.items) }
    ensures err { IfErr result (λ fault. fault ≢ NoMemory → with_item (if clears then Clear else Stamp) n place moves.old.items (item_of text.now) ≡ Err fault) }
{
    match read_item(text) {
        Some(item) => push_item(moves, place, item, clears, n),
        None => Err(ScheduleFault::BadItem(place)),
    }
}

fn push_item(moves: &mut Vec<Move>, place: usize, item: Item, clears: bool, n: u8) -> Added
    ensures ok { OnOk result (with_item (if clears then Clear else Stamp) n place moves.old.items (Some item) ≡ Ok moves.new.items) }
    ensures err { IfErr result (λ fault. fault ≢ NoMemory → with_item (if clears then Clear else Stamp) n place moves.old.items (Some item) ≡ Err fault) }
{
    let process = process_of(place, item, n, moves.len())?;
    let made = move_of(clears, process);
    'moves: for _ in 0..item.steps {
        moves.push(made)?;
    }
    Ok(())
}

fn move_of(clears: bool, process: u8) -> Move
    ensures { result ≡ (if clears then Clear else Stamp) process }
{
    if clears {
        Move::Clear(process)
    } else {
        Move::Stamp(process)
    }
}
