//! Instructions as words, one each, and back. The values that are pushed are kept beside them.
ghost use Rattle.std.specs.Prelude.{◌≡◌, ◌≤◌, ◌<◌, ◌+◌, ◌*◌, ◌/◌, ◌%◌, ◌++◌, length, slice_get, Some, IfOk, OnOk};
ghost use Rattle.code_core.specs.Words.{kind, sign_number, operands, word_of, constant_in, sign_of, decoded, decoded_all};
ghost use Rattle.code_core.specs.prover.Coding.{SlotsFit, AreCoded};

use crate::instr::Instr;
use base::Op;
use std::alloc::{AllocError, Global};

/// A word for each instruction, and the values that are pushed.
#[derive(Drop)]
pub struct Words {
    pub words: Vec<u32>,
    pub constants: Vec<u32>,
}

/// The place of the instruction's name in the list of all.
pub fn kind(instruction: Instr) -> u32
    ensures exact { result ≡ kind instruction }
    ensures known { result ≤ 19 }
{
    match instruction {
        Instr::Push(_) => 0,
        Instr::Load(_) => 1,
        Instr::Me => 2,
        Instr::Count => 3,
        Instr::Bin(_) => 4,
        Instr::Store(_) => 5,
        Instr::Get(..) => 6,
        Instr::Put(_) => 7,
        Instr::LoadWord => 8,
        Instr::Next => 9,
        Instr::Exchange(_) => 10,
        Instr::Scan(_) => 11,
        Instr::Copy(..) => 12,
        Instr::Older(..) => 13,
        Instr::Out => 14,
        Instr::JumpZero(_) => 15,
        Instr::Jump(_) => 16,
        Instr::Halt => 17,
        Instr::Clear => 18,
        Instr::Held(..) => 19,
    }
}

fn sign_number(operator: Op) -> u32
    ensures exact { result ≡ sign_number operator }
    ensures known { result ≤ 8 }
{
    match operator {
        Op::Add => 0,
        Op::Sub => 1,
        Op::Mul => 2,
        Op::Div => 3,
        Op::Rem => 4,
        Op::Less => 5,
        Op::AtMost => 6,
        Op::Equal => 7,
        Op::Differs => 8,
    }
}

// Two slots beside each other, the second above the first.
fn slots(first: u8, second: u8) -> u32
    ensures exact { result ≡ second * 256 + first }
    ensures below { result < 65536 }
{
    u32::from(second) * 256 + u32::from(first)
}

// What the instruction names, below its kind; a push names its constant by number.
fn operands(constant: u16, instruction: Instr) -> u32
    ensures exact { result ≡ operands constant instruction }
    ensures below { result < 65536 }
    ensures slots { SlotsFit instruction }
{
    match instruction {
        Instr::Push(_) => u32::from(constant),
        Instr::Bin(operator) => sign_number(operator),
        Instr::Load(slot) | Instr::Store(slot) | Instr::Put(slot) | Instr::Scan(slot) => {
            u32::from(slot)
        }
        Instr::Get(first, second)
        | Instr::Copy(first, second)
        | Instr::Older(first, second)
        | Instr::Held(first, second) => slots(first, second),
        Instr::Exchange(place) | Instr::JumpZero(place) | Instr::Jump(place) => u32::from(place),
        _ => 0,
    }
}

fn encoded(constant: u16, instruction: Instr) -> u32
    ensures word { result ≡ word_of constant instruction }
    ensures slots { SlotsFit instruction }
{
    kind(instruction) * 16777216 + operands(constant, instruction)
}

fn push_constant(constants: &mut Vec<u32>, instruction: Instr) -> Result<(), AllocError>
    ensures { OnOk result (constants.new.items ≡ constants.old.items ++ constant_in instruction) }
{
    if let Instr::Push(value) = instruction {
        constants.push(value)?;
    }
    Ok(())
}

/// A code in words.
pub fn in_words(alloc: Global, code: &[Instr]) -> Result<Words, AllocError>
    requires { length code.now ≤ 65535 }
    ensures coded { IfOk result (λ coded. AreCoded code.now coded.words.items coded.constants.items) }
    ensures back { IfOk result (λ coded. decoded_all coded.constants.items coded.words.items ≡ code.now) }
{
    let mut words = Vec::with_capacity(alloc, code.len())?;
    let mut constants = Vec::new(alloc);
    for &instruction in code {
        words.push(encoded(constants.len() as u16, instruction))?;
        push_constant(&mut constants, instruction)?;
    }
    Ok(Words { words, constants })
}

#[inline(always)]
pub fn word_at(words: &[u32], place: u16) -> u32
    requires { place < length words.now }
    ensures { slice_get words.now place ≡ Some result }
{
    words[usize::from(place)]
}

#[inline(always)]
fn sign_of(number: u32) -> Op
    requires { number ≤ 8 }
    ensures { result ≡ sign_of number }
{
    match number {
        0 => Op::Add,
        1 => Op::Sub,
        2 => Op::Mul,
        3 => Op::Div,
        4 => Op::Rem,
        5 => Op::Less,
        6 => Op::AtMost,
        7 => Op::Equal,
        8 => Op::Differs,
        _ => unreachable!(),
    }
}

/// The instruction that a word of a code says.
#[inline(always)]
pub fn decoded(constants: &[u32], word: u32) -> Instr
    requires known { word / 16777216 ≤ 19 }
    requires constant { word / 16777216 ≡ 0 → word % 65536 < length constants.now }
    requires sign { word / 16777216 ≡ 4 → word % 256 ≤ 8 }
    ensures { result ≡ decoded constants.now word }
{
    let first = (word % 256) as u8;
    let second = (word / 256 % 256) as u8;
    let place = (word % 65536) as u16;
    match word / 16777216 {
        0 => Instr::Push(constants[usize::from(place)]),
        1 => Instr::Load(first),
        2 => Instr::Me,
        3 => Instr::Count,
        4 => Instr::Bin(sign_of(word % 256)),
        5 => Instr::Store(first),
        6 => Instr::Get(first, second),
        7 => Instr::Put(first),
        8 => Instr::LoadWord,
        9 => Instr::Next,
        10 => Instr::Exchange(place),
        11 => Instr::Scan(first),
        12 => Instr::Copy(first, second),
        13 => Instr::Older(first, second),
        14 => Instr::Out,
        15 => Instr::JumpZero(place),
        16 => Instr::Jump(place),
        17 => Instr::Halt,
        18 => Instr::Clear,
        19 => Instr::Held(first, second),
        _ => unreachable!(),
    }
}
