use base::Op;
use code_core::Instr;
use code_core::Instr::{
    Bin, Clear, Copy, Count, Exchange, Get, Halt, Held, Jump, JumpZero, Load, LoadWord, Me, Next,
    Older, Out, Push, Put, Scan, Store,
};
use std::test::Fail;
use tests_shared::holds;

// Each instruction with what `{:?}` makes of it.
static SHOWN: [(Instr, &str); 28] = [
    (Push(4_294_967_295), "Push(4294967295)"),
    (Load(63), "Load(63)"),
    (Me, "Me"),
    (Count, "Count"),
    (Bin(Op::Add), "Bin(Add)"),
    (Bin(Op::Sub), "Bin(Sub)"),
    (Bin(Op::Mul), "Bin(Mul)"),
    (Bin(Op::Div), "Bin(Div)"),
    (Bin(Op::Rem), "Bin(Rem)"),
    (Bin(Op::Less), "Bin(Less)"),
    (Bin(Op::AtMost), "Bin(AtMost)"),
    (Bin(Op::Equal), "Bin(Equal)"),
    (Bin(Op::Differs), "Bin(Differs)"),
    (Store(10), "Store(10)"),
    (Get(7, 62), "Get(7, 62)"),
    (Put(6), "Put(6)"),
    (LoadWord, "LoadWord"),
    (Next, "Next"),
    (Exchange(5), "Exchange(5)"),
    (Scan(15), "Scan(15)"),
    (Copy(15, 0), "Copy(15, 0)"),
    (Older(14, 61), "Older(14, 61)"),
    (Out, "Out"),
    (JumpZero(65_534), "JumpZero(65534)"),
    (Jump(40), "Jump(40)"),
    (Halt, "Halt"),
    (Clear, "Clear"),
    (Held(13, 60), "Held(13, 60)"),
];

#[test]
fn instructions_with_their_numbers(rt: HostRuntime) -> Result<(), Fail> {
    for (instruction, shown) in &SHOWN {
        let text = format!(in rt.alloc(); "{instruction:?}")?;
        holds(text.as_str() == *shown, shown)?;
    }
    Ok(())
}
