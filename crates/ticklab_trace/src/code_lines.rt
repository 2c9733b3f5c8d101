//! The lines of the steps of a code.

ghost use Rattle.std.specs.Prelude.{◌≡◌, ◌<◌, ◌++◌, IfOk, OnOk, string_bytes};
ghost use Rattle.code_text.specs.CodeText.{instr_text};
ghost use Rattle.ticklab_trace.specs.TraceText.{instruction_line, instruction_lines, instruction_text, label_order_text, made_text, words_text};

use crate::columns::{end_words, push_head, push_place};
use crate::ranks::label_rank;
use crate::steps::InstructionStep;
use crate::wording::{push_act, push_rank};
use base::NoMemory;
use code_core::Instr;
use code_text::push_instruction;
use std::alloc::{AllocError, Global};
use tick_kinds::Program;
use word_core::LabelWord;

/// A line for each step: its number from 1, the process, the place of its instruction and how it reads,
/// and what it did; an exchange that was lost is told. `program` is the program that the code was
/// lowered from.
pub fn code_trace(
    alloc: Global,
    program: &Program,
    steps: &[InstructionStep],
) -> Result<String, NoMemory>
    ensures { IfOk result (λ text. string_bytes text ≡ instruction_lines program.now 0 steps.now) }
{
    let mut text = String::new(alloc);
    for (number, step) in steps.iter().enumerate() {
        push_line(&mut text, program, number, *step)?;
    }
    Ok(text)
}

/// The line of step `number` from 0.
pub fn push_line(
    text: &mut String,
    program: &Program,
    number: usize,
    step: InstructionStep,
) -> Result<(), AllocError>
    requires { number < 18446744073709551615 }
    ensures { OnOk result (string_bytes text.new ≡ string_bytes text.old ++ instruction_line program.now number step) }
{
    push_head(text, number, step.process)?;
    push_step(text, program, step)?;
    text.push_str("\n")
}

// What comes after the process.
fn push_step(text: &mut String, program: &Program, step: InstructionStep) -> Result<(), AllocError>
    ensures { OnOk result (string_bytes text.new ≡ string_bytes text.old ++ instruction_text program.now step step.instruction) }
{
    match step.instruction {
        None => text.push_str("stopped"),
        Some(instruction) => {
            push_place(text, step.place)?;
            push_made(text, program, instruction, step)
        }
    }
}

// An instruction, and what it did.
fn push_made(
    text: &mut String,
    program: &Program,
    instruction: Instr,
    step: InstructionStep,
) -> Result<(), AllocError>
    ensures { OnOk result (string_bytes text.new ≡ string_bytes text.old ++ made_text program.now (instr_text instruction) step step.lost step.act) }
{
    match (step.lost, step.act) {
        (Some(_), _) => {
            push_words(text, instruction)?;
            text.push_str("lost")
        }
        (None, None) => push_instruction(text, instruction),
        (None, Some(act)) => {
            push_words(text, instruction)?;
            push_act(text, program, step.process, act)?;
            push_order(text, step.labels)
        }
    }
}

// An instruction before what it did.
fn push_words(text: &mut String, instruction: Instr) -> Result<(), AllocError>
    ensures { OnOk result (string_bytes text.new ≡ string_bytes text.old ++ words_text (instr_text instruction)) }
{
    let before = text.len();
    push_instruction(text, instruction)?;
    end_words(text, text.len() - before)
}

fn push_order(text: &mut String, labels: Option<LabelWord>) -> Result<(), AllocError>
    ensures { OnOk result (string_bytes text.new ≡ string_bytes text.old ++ label_order_text labels) }
{
    let Some(labels) = labels else {
        return Ok(());
    };
    text.push_str(", order")?;
    for i in 0..labels.n() {
        push_rank(text, label_rank(&labels, i))?;
    }
    Ok(())
}
