ghost use Rattle.std.specs.Prelude.{◌≤◌};

use crate::words::kind;
use base::Op;
use std::fmt;

/// One instruction of a process. Values stand on a stack of the process's own; slots of variables,
/// scans and register rows count from 0, and so do the places of a code.
// They don't stand in the order of their kinds in a word: where each variant has its kind's number,
// LLVM takes the one for the other, and a step jumps by a table twice, once to decode and once to make.
#[derive(Clone, Copy, PartialEq, Eq)]
pub enum Instr {
    /// Pushes this value.
    Push(u32),
    /// Pushes the number of the process.
    Me,
    /// Pushes the number of processes.
    Count,
    /// Pushes a variable.
    Load(u8),
    /// Takes a value into a variable.
    Store(u8),
    /// Takes two values, the right operand on top, and pushes what the operator makes of them.
    Bin(Op),
    /// Takes a value and gives it out.
    Out,
    /// Takes the number of a process, and reads its register of this row into this variable.
    Get(u8, u8),
    /// Takes a value into the process's own register of this row.
    Put(u8),
    /// Copies the shared labels to the process's scratch.
    LoadWord,
    /// Puts beside the scratch the same labels after a stamp of the process.
    Next,
    /// Where the shared labels are those of the scratch, puts what stands beside it in their place,
    /// which is the stamp, and goes on; else goes back to this place.
    Exchange(u16),
    /// Makes the process absent from the shared labels, which gives its ticket up.
    Clear,
    /// Copies the shared labels to a scan.
    Scan(u8),
    /// Copies the first scan into the second.
    Copy(u8, u8),
    /// Takes the number of a process, and puts into this variable whether it is present in this scan:
    /// 1 where it is, else 0.
    Held(u8, u8),
    /// Takes the numbers of two processes, the second on top, and compares their labels in this
    /// scan into this variable.
    Older(u8, u8),
    /// Takes a value, and goes to this place where it is 0.
    JumpZero(u16),
    /// Goes to this place.
    Jump(u16),
    /// Ends the process.
    Halt,
}

// The names of the instructions, in the order of their kinds.
const NAMES: [&str; 20] = [
    "Push", "Load", "Me", "Count", "Bin", "Store", "Get", "Put", "LoadWord", "Next", "Exchange",
    "Scan", "Copy", "Older", "Out", "JumpZero", "Jump", "Halt", "Clear", "Held",
];

impl Instr {
    // The numbers that it names, the first so many of these.
    fn numbers(self) -> ([u32; 2], usize)
        ensures { result.1 ≤ 2 }
    {
        match self {
            Instr::Push(value) => ([value, 0], 1),
            Instr::Load(slot) | Instr::Store(slot) | Instr::Put(slot) | Instr::Scan(slot) => {
                ([u32::from(slot), 0], 1)
            }
            Instr::Get(first, second)
            | Instr::Copy(first, second)
            | Instr::Older(first, second)
            | Instr::Held(first, second) => ([u32::from(first), u32::from(second)], 2),
            Instr::Exchange(place) | Instr::JumpZero(place) | Instr::Jump(place) => {
                ([u32::from(place), 0], 1)
            }
            _ => ([0, 0], 0),
        }
    }
}

impl fmt::Debug for Instr {
    fn fmt<W: fmt::Write>(&self, f: &mut fmt::Formatter<W>) -> fmt::Result {
        let mut shown = f.debug_tuple(NAMES[kind(*self) as usize]);
        if let Instr::Bin(op) = self {
            shown.field(op);
        }
        let (numbers, count) = self.numbers();
        for number in &numbers[..count] {
            shown.field(number);
        }
        shown.finish()
    }
}
