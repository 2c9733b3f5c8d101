//! The first fault of an instruction at its place (`fault_at`), and the tests that it is made of.
ghost use Rattle.std.specs.Prelude.{◌≡◌, ◌≤◌, ◌<◌, ◌+◌, length, slice_get, Some};
ghost use Rattle.code_core.specs.Verified.{is_load, is_next, is_exchange, before, bad_stamp, differs, is_past, fault_at};

use crate::fault::CodeFault;
use crate::heights::{fits, goes_on, left, pops, target};
use crate::instr::Instr;
use crate::sizes::Sizes;

fn is_load(instruction: Instr) -> bool
    ensures { result ≡ is_load (Some instruction) }
{
    matches!(instruction, Instr::LoadWord)
}

fn is_next(instruction: Instr) -> bool
    ensures { result ≡ is_next (Some instruction) }
{
    matches!(instruction, Instr::Next)
}

fn is_exchange(instruction: Instr) -> bool
    ensures { result ≡ is_exchange (Some instruction) }
{
    matches!(instruction, Instr::Exchange(_))
}

fn is_next_at(code: &[Instr], place: usize) -> bool
    ensures { result ≡ is_next (slice_get code.now place) }
{
    match code.get(place) {
        Some(instruction) => is_next(*instruction),
        None => false,
    }
}

fn is_exchange_at(code: &[Instr], place: usize) -> bool
    ensures { result ≡ is_exchange (slice_get code.now place) }
{
    match code.get(place) {
        Some(instruction) => is_exchange(*instruction),
        None => false,
    }
}

// The instruction before a place of the code.
fn before(code: &[Instr], place: usize) -> Option<Instr>
    ensures { result ≡ before code.now place }
{
    match place.checked_sub(1) {
        Some(at) => code.get(at).copied(),
        None => None,
    }
}

fn is_load_before(code: &[Instr], place: usize) -> bool
    ensures { result ≡ is_load (before code.now place) }
{
    match before(code, place) {
        Some(instruction) => is_load(instruction),
        None => false,
    }
}

fn is_next_before(code: &[Instr], place: usize) -> bool
    ensures { result ≡ is_next (before code.now place) }
{
    match before(code, place) {
        Some(instruction) => is_next(instruction),
        None => false,
    }
}

// Whether the instruction at this place breaks a stamp.
fn bad_stamp(code: &[Instr], place: usize, instruction: Instr) -> bool
    requires { place < 65535 }
    ensures { result ≡ bad_stamp code.now place instruction }
{
    match instruction {
        Instr::LoadWord => !is_next_at(code, place + 1),
        Instr::Next => !(is_load_before(code, place) && is_exchange_at(code, place + 1)),
        Instr::Exchange(back) => !(is_next_before(code, place) && usize::from(back) + 2 == place),
        Instr::JumpZero(to) | Instr::Jump(to) => {
            is_next_at(code, usize::from(to)) || is_exchange_at(code, usize::from(to))
        }
        _ => false,
    }
}

// Whether a height is known, and another than this one.
fn differs(known: Option<u16>, height: u16) -> bool
    ensures { result ≡ differs known height }
{
    match known {
        Some(other) => other != height,
        None => false,
    }
}

fn is_past(to: Option<u16>, end: usize) -> bool
    ensures { result ≡ is_past to end }
{
    match to {
        Some(place) => usize::from(place) >= end,
        None => false,
    }
}

/// The first fault of the instruction at a place, of this height: an earlier jump to it left `came`,
/// and `there` is what is known of the place to which it jumps.
pub fn fault_at(
    sizes: Sizes,
    code: &[Instr],
    place: u16,
    instruction: Instr,
    height: u16,
    came: Option<u16>,
    there: Option<u16>,
) -> Option<CodeFault>
    requires few { length code.now ≤ 65535 }
    requires inside { place < length code.now }
    requires low { height ≤ place }
    ensures { result ≡ fault_at sizes code.now place instruction height came there }
{
    if differs(came, height) {
        Some(CodeFault::HeightsDiffer(place))
    } else if !fits(sizes, instruction) {
        Some(CodeFault::BadSlot(place))
    } else if is_past(target(instruction), code.len()) {
        Some(CodeFault::BadJump(place))
    } else if height < pops(instruction) {
        Some(CodeFault::StackShort(place))
    } else if bad_stamp(code, usize::from(place), instruction) {
        Some(CodeFault::BadStamp(place))
    } else if differs(there, left(instruction, height)) {
        Some(CodeFault::HeightsDiffer(place))
    } else if goes_on(instruction) && usize::from(place) + 1 == code.len() {
        Some(CodeFault::FallsOff(place))
    } else {
        None
    }
}
