//! From a code to its text: a line with the sizes, and then one for each instruction.
ghost use Rattle.std.specs.Prelude.{◌≡◌, ◌++◌, codes, IfOk, IfErr, OnOk, string_bytes};
ghost use Rattle.std.specs.Fmt.{decimal};
ghost use Rattle.code_text.specs.CodeText.{instr_text, instr_line, code_lines, header_line, code_text};
ghost use Rattle.code_text.specs.prover.Writing.{operands_text};
ghost use Rattle.code_core.specs.declared.fault.CodeFault.TheVariants.{NoMemory};

use base::Op;
use code_core::{Code, CodeFault, Instr, Sizes};
use std::alloc::{AllocError, Global};
use std::fmt::Write;

/// The code as a text: a line with its sizes, and then one for each instruction.
pub fn write_code(alloc: Global, code: &Code) -> Result<String, CodeFault>
    ensures text { IfOk result (λ text. string_bytes text ≡ code_text code.now) }
    ensures err { IfErr result (λ fault. fault ≡ NoMemory) }
{
    let mut text = String::new(alloc);
    push_header(&mut text, 2, code.sizes())?;
    for place in 0..code.len() as u16 {
        push_line(&mut text, code.instr(place))?;
    }
    Ok(text)
}

/// Adds the first line, with this version of the text.
pub fn push_header(text: &mut String, version: u8, sizes: Sizes) -> Result<(), AllocError>
    ensures { OnOk result (string_bytes text.new ≡ string_bytes text.old ++ header_line version sizes) }
{
    write!(text, "tickcode {version} ")?;
    push_pair(text, sizes.processes(), sizes.variables())?;
    text.push_str(" ")?;
    push_pair(text, sizes.scans(), sizes.registers())?;
    text.push_str("\n")
}

// Adds two numbers with a space between them.
fn push_pair(text: &mut String, first: u8, second: u8) -> Result<(), AllocError>
    ensures { OnOk result (string_bytes text.new ≡ string_bytes text.old ++ (decimal first ++ codes " " ++ decimal second)) }
{
    write!(text, "{first} {second}")
}

/// Adds the line of an instruction.
pub fn push_line(text: &mut String, instruction: Instr) -> Result<(), AllocError>
    ensures { OnOk result (string_bytes text.new ≡ string_bytes text.old ++ instr_line instruction) }
{
    push_instruction(text, instruction)?;
    text.push_str("\n")
}

/// Adds an instruction as its line has it: its name, and its operands after one space each.
pub fn push_instruction(text: &mut String, instruction: Instr) -> Result<(), AllocError>
    ensures { OnOk result (string_bytes text.new ≡ string_bytes text.old ++ instr_text instruction) }
{
    let (name, operands) = parts(instruction);
    text.push_str(name)?;
    push_operands(text, operands)
}

// The operands of an instruction, as its line has them.
#[derive(Drop)]
enum Operands {
    Nothing,
    Sign(Op),
    One(u32),
    Two(u8, u8),
}

// The name, with the space after it where operands follow.
fn parts(instruction: Instr) -> (&'static str, Operands)
    ensures { result.0.now ++ operands_text result.1 ≡ instr_text instruction }
{
    match instruction {
        Instr::Push(value) => ("Push ", Operands::One(value)),
        Instr::Load(x) => ("Load ", Operands::One(u32::from(x))),
        Instr::Me => ("Me", Operands::Nothing),
        Instr::Count => ("Count", Operands::Nothing),
        Instr::Bin(op) => ("Bin ", Operands::Sign(op)),
        Instr::Store(x) => ("Store ", Operands::One(u32::from(x))),
        Instr::Get(r, x) => ("Get ", Operands::Two(r, x)),
        Instr::Put(r) => ("Put ", Operands::One(u32::from(r))),
        Instr::LoadWord => ("LoadWord", Operands::Nothing),
        Instr::Next => ("Next", Operands::Nothing),
        Instr::Exchange(place) => ("Exchange ", Operands::One(u32::from(place))),
        Instr::Scan(s) => ("Scan ", Operands::One(u32::from(s))),
        Instr::Copy(s, t) => ("Copy ", Operands::Two(s, t)),
        Instr::Older(s, x) => ("Older ", Operands::Two(s, x)),
        Instr::Out => ("Out", Operands::Nothing),
        Instr::JumpZero(place) => ("JumpZero ", Operands::One(u32::from(place))),
        Instr::Jump(place) => ("Jump ", Operands::One(u32::from(place))),
        Instr::Halt => ("Halt", Operands::Nothing),
        Instr::Clear => ("Clear", Operands::Nothing),
        Instr::Held(s, x) => ("Held ", Operands::Two(s, x)),
    }
}

fn push_operands(text: &mut String, operands: Operands) -> Result<(), AllocError>
    ensures { OnOk result (string_bytes text.new ≡ string_bytes text.old ++ operands_text operands) }
{
    match operands {
        Operands::Nothing => Ok(()),
        Operands::Sign(op) => text.push_str(op.text()),
        Operands::One(number) => write!(text, "{number}"),
        Operands::Two(first, second) => push_pair(text, first, second),
    }
}
