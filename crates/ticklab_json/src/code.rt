//! The steps of a code as objects.
ghost use Rattle.std.specs.Prelude.{◌≡◌, ◌<◌, IfOk, OnOk, option_map, string_bytes};
ghost use Rattle.code_text.specs.CodeText.{instr_text};
ghost use Rattle.serde_json.specs.Data.{string};
ghost use Rattle.serde_json.specs.View.{members_view, view};
ghost use Rattle.ticklab_json.specs.Steps.{if_lost, instruction_data, instruction_objects, with_instruction};

use crate::events::event_in;
use crate::members::{Members, heading, push_line, put_if};
use crate::order::label_order;
use crate::source::private_in;
use base::NoMemory;
use code_core::Instr;
use code_text::push_instruction;
use serde_json::{Value, put};
use std::alloc::{AllocError, Global};
use tick_kinds::Program;
use ticklab_trace::{InstructionStep, is_private_made};
use word_core::LabelWord;

/// An object in a line for each step: its number, the process, the place of its instruction and how it reads,
/// and what it did; and where that is told, whether it is private. `program` is the program that the code was lowered from.
#[tactic(auto, using(crate::proofs::Exact::instruction_exact))]
pub fn code_objects(
    alloc: Global,
    program: &Program,
    tells: bool,
    steps: &[InstructionStep],
) -> Result<String, NoMemory>
    ensures { IfOk result (λ text. string_bytes text ≡ instruction_objects program.now tells steps.now) }
{
    let mut text = String::new(alloc);
    for (number, step) in steps.iter().enumerate() {
        let value = instruction(alloc, program, tells, number, step)?;
        push_line(&mut text, alloc, &value)?;
    }
    Ok(text)
}

fn instruction(
    alloc: Global,
    program: &Program,
    tells: bool,
    number: usize,
    step: &InstructionStep,
) -> Result<Value, AllocError>
    requires { number < 18446744073709551615 }
    ensures { IfOk result (λ v. view v ≡ instruction_data program.now tells number step.now) }
{
    let mut members = heading(alloc, number, step.process)?;
    match step.instruction {
        None => put(&mut members, alloc, "stopped", Value::from(true))?,
        Some(instruction) => put_instruction(&mut members, alloc, program, instruction, *step)?,
    }
    let private = private_in(
        tells,
        is_private_made(step.instruction, step.lost, step.act),
    );
    put_if(&mut members, alloc, "private", private)?;
    Ok(Value::Object(members))
}

// The place of an instruction, how it reads, and what it did.
fn put_instruction(
    members: &mut Members,
    alloc: Global,
    program: &Program,
    instruction: Instr,
    step: InstructionStep,
) -> Result<(), AllocError>
    ensures { OnOk result (members_view members.new.entries ≡ with_instruction program.now step instruction (members_view members.old.entries)) }
{
    put(members, alloc, "place", Value::from(step.place))?;
    let words = words(alloc, instruction)?;
    put(members, alloc, "instruction", words)?;
    put_if(members, alloc, "lost", if_lost(step.lost))?;
    let event = event_in(alloc, program, step.act)?;
    put_if(members, alloc, "event", event)?;
    let order = label_order(alloc, step.labels)?;
    put_if(members, alloc, "order", order)
}

// How an instruction reads.
fn words(alloc: Global, instruction: Instr) -> Result<Value, AllocError>
    ensures { IfOk result (λ v. view v ≡ string (instr_text instruction)) }
{
    let mut text = String::new(alloc);
    push_instruction(&mut text, instruction)?;
    Ok(Value::String(text))
}

// Whether an exchange was lost: then it found labels.
fn if_lost(found: Option<LabelWord>) -> Option<Value>
    ensures { option_map view result ≡ if_lost found }
{
    match found {
        Some(_) => Some(Value::from(true)),
        None => None,
    }
}
