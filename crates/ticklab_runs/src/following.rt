//! A run that is followed once, step by step: what each step did, how a picture marks it, and the line that first breaks.
ghost use Rattle.std.specs.Prelude.{◌≡◌, ◌<◌, ◌≤◌, All, IfOk, MatchOption, OnOk, length, map, option_map};
ghost use Rattle.tick_kinds.specs.Resolution.{resolved};
ghost use Rattle.searches_explore.specs.Lines.{lines_of};
ghost use Rattle.ticklab_draw.specs.Marks.{with_instruction, with_statement};
ghost use Rattle.ticklab_files.specs.Asking.{place_of};
ghost use Rattle.ticklab_runs.specs.Breaking.{IsFirstAt, IsFirstBreak, NeverBreaks, broken_at};
ghost use Rattle.ticklab_runs.specs.prover.Kept.{AreInstructionsKept, AreStatementsKept, kept_with, marked_with};

use crate::breaking::{Break, BrokenLine, broken_by};
use crate::told_run::Telling;
use base::NoMemory;
use code_core::Code;
use code_machine::CodeMachine;
use language_questions::Property;
use std::alloc::{AllocError, Global};
use tick_kinds::Program;
use ticklab_draw::{Mark, Marking};
use ticklab_files::NeverLines;
use ticklab_trace::{InstructionStep, SourceRun, StatementStep, instruction_step};

/// A run of a program, as far as it is told, and the line that is broken where one first is.
#[derive(Drop)]
pub struct ProgramRun<'l> {
    pub steps: Vec<StatementStep>,
    pub marks: Vec<Mark>,
    pub broken: Option<BrokenLine<'l>>,
}

/// A run of a code, as far as it is told.
#[derive(Drop)]
pub struct CodeRun {
    pub steps: Vec<InstructionStep>,
    pub marks: Vec<Mark>,
}

/// The run of the program under a schedule.
pub fn program_run<'l>(
    alloc: Global,
    program: &Program,
    lines: &NeverLines<'l>,
    schedule: &[u8],
    telling: &Telling<&str>,
) -> Result<ProgramRun<'l>, NoMemory>
    requires lines { length lines.now.properties.items ≡ length lines.now.places.items }
    requires schedule { All (λ p. p < (resolved program.now).processes) schedule.now }
    ensures steps { IfOk result (λ run. AreStatementsKept (resolved program.now) schedule.now telling.now run.steps.items run.marks.items) }
    ensures broken { IfOk result (λ run. IsFirstAt (resolved program.now) (lines_of lines.now.properties.items) (map place_of lines.now.places.items) schedule.now (option_map broken_at run.broken)) }
{
    let properties = lines.properties.as_slice();
    let (steps, marks, broken) = follow(alloc, program, properties, schedule, telling)?;
    match broken {
        None => Ok(ProgramRun {
            steps,
            marks,
            broken: None,
        }),
        Some(broken) => {
            let place = lines.places[broken.line];
            Ok(ProgramRun {
                steps,
                marks,
                broken: Some(BrokenLine { place, broken }),
            })
        }
    }
}

fn follow(
    alloc: Global,
    program: &Program,
    lines: &[Property],
    schedule: &[u8],
    telling: &Telling<&str>,
) -> Result<(Vec<StatementStep>, Vec<Mark>, Option<Break>), NoMemory>
    requires { All (λ p. p < (resolved program.now).processes) schedule.now }
    ensures steps { IfOk result (λ run. AreStatementsKept (resolved program.now) schedule.now telling.now run.0.items run.1.items) }
    ensures broken { IfOk result (λ run. MatchOption run.2
        (NeverBreaks (resolved program.now) (lines_of lines.now) schedule.now) (IsFirstBreak (resolved program.now) (lines_of lines.now) schedule.now)) }
{
    let mut run = SourceRun::new(alloc, program)?;
    let kept = kept_of(telling, schedule);
    let mut steps = Vec::with_capacity(alloc, kept.len())?;
    let mut marking = Marking::new(alloc);
    let mut broken = None;
    for (at, &p) in schedule.iter().enumerate() {
        broken = broken_by(broken, at, program, run.machine(), lines);
        let step = run.step(p)?;
        let act = step.act;
        keep_step(&mut steps, telling, StatementStep { act, ..step })?;
        mark_statement(&mut marking, telling, at + 1, step)?;
    }
    let broken = broken_by(broken, schedule.len(), program, run.machine(), lines);
    Ok((steps, marking.marks, broken))
}

/// The run of the code under a schedule.
pub fn code_run(
    alloc: Global,
    code: &Code,
    schedule: &[u8],
    telling: &Telling<&str>,
) -> Result<CodeRun, NoMemory>
    requires { All (λ p. p < code.now.sizes.processes) schedule.now }
    ensures { IfOk result (λ run. AreInstructionsKept code.now schedule.now telling.now run.steps.items run.marks.items) }
{
    let mut machine = CodeMachine::new(alloc, code)?;
    let kept = kept_of(telling, schedule);
    let mut steps = Vec::with_capacity(alloc, kept.len())?;
    let mut marking = Marking::new(alloc);
    for (at, &p) in schedule.iter().enumerate() {
        let step = instruction_step(&mut machine, p)?;
        // so that the borrow checker is told what types a step holds
        let act = step.act;
        keep_step(&mut steps, telling, InstructionStep { act, ..step })?;
        mark_instruction(&mut marking, telling, at + 1, step)?;
    }
    Ok(CodeRun {
        steps,
        marks: marking.marks,
    })
}

// The part of a schedule of which steps are kept: nothing for a picture, else all.
fn kept_of<'s>(telling: &Telling<&str>, schedule: &'s [u8]) -> &'s [u8]
    ensures { length result.now ≤ length schedule.now }
{
    match telling {
        Telling::Picture(_) => &[],
        Telling::Trace(_) | Telling::Page(_) => schedule,
    }
}

fn keep_step<S: Copy>(
    steps: &mut Vec<S>,
    telling: &Telling<&str>,
    step: S,
) -> Result<(), AllocError>
    ensures { OnOk result (steps.new.items ≡ kept_with telling.now step steps.old.items) }
{
    match telling {
        Telling::Picture(_) => Ok(()),
        Telling::Trace(_) | Telling::Page(_) => {
            steps.push(step)?;
            Ok(())
        }
    }
}

// A trace has no marks.
fn mark_statement(
    marking: &mut Marking,
    telling: &Telling<&str>,
    number: usize,
    step: StatementStep,
) -> Result<(), NoMemory>
    ensures { OnOk result (marking.new.marks.items ≡ marked_with with_statement telling.now number step marking.old.marks.items) }
{
    match telling {
        Telling::Trace(_) => Ok(()),
        Telling::Picture(_) | Telling::Page(_) => marking.add_statement(number, step),
    }
}

fn mark_instruction(
    marking: &mut Marking,
    telling: &Telling<&str>,
    number: usize,
    step: InstructionStep,
) -> Result<(), NoMemory>
    ensures { OnOk result (marking.new.marks.items ≡ marked_with with_instruction telling.now number step marking.old.marks.items) }
{
    match telling {
        Telling::Trace(_) => Ok(()),
        Telling::Picture(_) | Telling::Page(_) => marking.add_instruction(number, step),
    }
}
