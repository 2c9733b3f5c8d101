//! What a step showed, in words.

ghost use Rattle.std.specs.Prelude.{◌≡◌, ◌++◌, OnOk, Some, map, string_bytes, take};
ghost use Rattle.base.specs.View.{name_of};
ghost use Rattle.ticklab_trace.specs.TraceText.{act_text, name_at, rank_text, ranks_text, register_text, variable_text};

use base::tree::Named;
use base::{Act, push_number};
use std::alloc::AllocError;
use std::fmt::Write;
use tick_kinds::Program;
use tick_play::trap_name;

/// What others see of a step of process `p`.
pub fn push_act(text: &mut String, program: &Program, p: u8, act: Act) -> Result<(), AllocError>
    ensures { OnOk result (string_bytes text.new ≡ string_bytes text.old ++ act_text program.now p act) }
{
    match act {
        Act::Put(row, value) => {
            text.push_str("put ")?;
            push_register(text, program, row, p, value)
        }
        Act::Get(row, owner, value) => {
            text.push_str("get ")?;
            push_register(text, program, row, owner, value)
        }
        Act::Stamp => text.push_str("stamp"),
        Act::Clear => text.push_str("clear"),
        Act::Scan(ranks) => {
            text.push_str("scan")?;
            push_ranks(text, &ranks, usize::from(program.processes()))
        }
        Act::Older(first, second, answer) => write!(text, "older {first} {second} = {answer}"),
        Act::Held(process, answer) => write!(text, "held {process} = {answer}"),
        Act::Out(value) => write!(text, "out {value}"),
        Act::Trap(trap) => {
            text.push_str("trap ")?;
            text.push_str(trap_name(trap))
        }
        Act::End => text.push_str("end"),
    }
}

/// A variable and its new value.
pub fn push_variable(
    text: &mut String,
    program: &Program,
    variable: u8,
    value: u32,
) -> Result<(), AllocError>
    ensures { OnOk result (string_bytes text.new ≡ string_bytes text.old ++ variable_text program.now.variables variable value) }
{
    text.push_str(name_in(&program.tree().variables, variable))?;
    text.push_str(" = ")?;
    push_number(text, u64::from(value))
}

// A register, by its row and the process whose it is, and its value.
fn push_register(
    text: &mut String,
    program: &Program,
    row: u8,
    owner: u8,
    value: u32,
) -> Result<(), AllocError>
    ensures { OnOk result (string_bytes text.new ≡ string_bytes text.old ++ register_text program.now.registers row owner value) }
{
    text.push_str(name_in(&program.tree().registers, row))?;
    text.push_str("[")?;
    push_number(text, u64::from(owner))?;
    text.push_str("] = ")?;
    push_number(text, u64::from(value))
}

fn push_ranks(text: &mut String, ranks: &[u8], n: usize) -> Result<(), AllocError>
    ensures { OnOk result (string_bytes text.new ≡ string_bytes text.old ++ ranks_text (map (λ rank. Some rank) (take n ranks.now))) }
{
    let told = &ranks[..n.min(ranks.len())];
    for &rank in told {
        push_rank(text, Some(rank))?;
    }
    Ok(())
}

/// A rank after a space, and `-` for a process that holds no ticket.
pub fn push_rank(text: &mut String, rank: Option<u8>) -> Result<(), AllocError>
    ensures { OnOk result (string_bytes text.new ≡ string_bytes text.old ++ rank_text rank) }
{
    text.push_str(" ")?;
    match rank {
        Some(rank) => push_number(text, u64::from(rank)),
        None => text.push_str("-"),
    }
}

fn name_in(section: &[Named], number: u8) -> &str
    ensures { result.now ≡ name_at (map name_of section.now) number }
{
    match section.get(usize::from(number)) {
        Some(named) => named.name.as_str(),
        None => "",
    }
}
