//! Guesses which line begins a text, by a few of its letters. Whoever reads writes that line to compare.
ghost use Rattle.std.specs.Prelude.{◌≡◌, ◌-◌, length, slice_index, IfSome, IsSome, ◌↔◌};
ghost use Rattle.code_text.specs.CodeText.{InRange, IsVersion};
ghost use Rattle.code_text.specs.prover.Guess.{guess, guessed_version, guessed_sizes, operator, named};
ghost use Rattle.code_core.specs.Instructions.{AreSizes};

use crate::reader::Reader;
use base::Op;
use code_core::{Instr, Sizes};

/// The instruction whose line begins this text, if one does; else any.
pub fn guess(text: &[u8]) -> Instr
    ensures instruction { result ≡ guess text.now }
    ensures in_range { InRange result }
{
    let mut reader = Reader { rest: text };
    let name = reader.word();
    reader.skip(1);
    if first_letter(name) == b'B' {
        return Instr::Bin(operator(reader.word()));
    }
    let first = reader.number();
    reader.skip(1);
    named(name, first, reader.number())
}

fn first_letter(name: &[u8]) -> u8
    ensures { result ≡ slice_index name.now 0 }
{
    match name {
        [first, ..] => *first,
        [] => 0,
    }
}

fn last_letter(name: &[u8]) -> u8
    ensures { result ≡ slice_index name.now (length name.now - 1) }
{
    match name {
        [.., last] => *last,
        [] => 0,
    }
}

// The instruction of this name with these operands, as far as it has some. The first and the last
// letter tell, or how many there are.
fn named(name: &[u8], first: u32, second: u32) -> Instr
    ensures instruction { result ≡ named name.now first second }
    ensures in_range { InRange result }
{
    let slot = (first % 256) as u8;
    let other = (second % 256) as u8;
    let place = (first % 65536) as u16;
    let last = last_letter(name);
    match first_letter(name) {
        b'P' if last == b'h' => Instr::Push(first),
        b'P' => Instr::Put(slot),
        b'L' if name.len() == 4 => Instr::Load(slot),
        b'L' => Instr::LoadWord,
        b'M' => Instr::Me,
        b'S' if last == b'e' => Instr::Store(slot),
        b'S' => Instr::Scan(slot),
        b'G' => Instr::Get(slot, other),
        b'N' => Instr::Next,
        b'E' => Instr::Exchange(place),
        b'C' if last == b't' => Instr::Count,
        b'C' if last == b'y' => Instr::Copy(slot, other),
        b'C' => Instr::Clear,
        b'O' if last == b'r' => Instr::Older(slot, other),
        b'O' => Instr::Out,
        b'J' if last == b'p' => Instr::Jump(place),
        b'J' => Instr::JumpZero(place),
        b'H' if last == b'd' => Instr::Held(slot, other),
        _ => Instr::Halt,
    }
}

fn operator(sign: &[u8]) -> Op
    ensures { result ≡ operator sign.now }
{
    match first_letter(sign) {
        b'+' => Op::Add,
        b'-' => Op::Sub,
        b'*' => Op::Mul,
        b'/' => Op::Div,
        b'%' => Op::Rem,
        b'<' if sign.len() == 1 => Op::Less,
        b'<' => Op::AtMost,
        b'=' => Op::Equal,
        _ => Op::Differs,
    }
}

/// The version of a text, if it is one of a code; else any.
pub fn guess_version(text: &[u8]) -> u8
    ensures version { result ≡ guessed_version text.now }
    ensures known { IsVersion result }
{
    let mut reader = Reader { rest: text };
    reader.skip(9);
    match reader.rest.first() {
        Some(b'1') => 1,
        _ => 2,
    }
}

/// The sizes whose line begins this text, if one does.
pub fn guess_sizes(text: &[u8]) -> Option<Sizes>
    ensures some { IsSome result ↔ AreSizes (guessed_sizes text.now) }
    ensures sizes { IfSome result (λ made. made ≡ guessed_sizes text.now) }
{
    let mut reader = Reader { rest: text };
    reader.skip(11);
    let processes = (reader.number() % 256) as u8;
    reader.skip(1);
    let variables = (reader.number() % 256) as u8;
    reader.skip(1);
    let scans = (reader.number() % 256) as u8;
    reader.skip(1);
    let registers = (reader.number() % 256) as u8;
    Sizes::new(processes, variables, scans, registers)
}
