//! What a page has of each step.

ghost use Rattle.std.specs.Prelude.{◌≡◌, map, option_and_then};
ghost use Rattle.ticklab_trace.specs.Places.{told_standing};
ghost use Rattle.ticklab_page.specs.Steps.{first_trap, instruction_line, is_trap, of_instruction, of_statement, opened_at, scanned_by, statement_line};

use base::Act;
use code_core::Instr;
use ticket_core::Tickets;
use ticklab_trace::{InstructionStep, Scanned, StatementPlace, StatementStep, Written};
use word_core::LabelWord;

/// A step of a program or of a code.
#[derive(Clone, Copy)]
pub struct PageStep {
    pub process: u8,
    /// The line of the text where it stands, from 1; 0 is none.
    pub line: usize,
    /// What others see of it.
    pub act: Option<Act>,
    /// What it wrote of the process's own variables; of a code that isn't known.
    pub written: Option<Written>,
    /// Which of the process's own scans it took or copied.
    pub scanned: Option<Scanned>,
    /// What all processes of a program hold after a stamp or a clear.
    pub tickets: Option<Tickets>,
    /// The same of a code.
    pub labels: Option<LabelWord>,
}

/// The step of a program, whose statements stand there.
pub fn of_statement(spots: &[StatementPlace<'_>], step: StatementStep) -> PageStep
    ensures { result ≡ of_statement (map told_standing spots.now) step }
{
    PageStep {
        process: step.process,
        line: statement_line(spots, step.number),
        act: step.act,
        written: step.written,
        scanned: step.scanned,
        tickets: step.tickets,
        labels: None,
    }
}

fn statement_line(spots: &[StatementPlace<'_>], number: Option<usize>) -> usize
    ensures { result ≡ statement_line (map told_standing spots.now) number }
{
    match number {
        Some(number) => line_at(spots, number),
        None => 0,
    }
}

fn line_at(spots: &[StatementPlace<'_>], number: usize) -> usize
    ensures { result ≡ statement_line (map told_standing spots.now) (Some number) }
{
    match spots.get(number) {
        Some(spot) => spot.line,
        None => 0,
    }
}

/// The step of a code.
pub fn of_instruction(step: InstructionStep) -> PageStep
    ensures { result ≡ of_instruction step }
{
    PageStep {
        process: step.process,
        line: instruction_line(step.place, step.instruction),
        act: step.act,
        written: None,
        scanned: scanned_by(step.instruction),
        tickets: None,
        labels: step.labels,
    }
}

// The scan that an instruction takes or copies.
fn scanned_by(instruction: Option<Instr>) -> Option<Scanned>
    ensures { result ≡ option_and_then scanned_by instruction }
{
    match instruction {
        Some(Instr::Scan(scan)) => Some(Scanned { scan, of: None }),
        Some(Instr::Copy(of, scan)) => Some(Scanned { scan, of: Some(of) }),
        _ => None,
    }
}

fn instruction_line(place: u16, instruction: Option<Instr>) -> usize
    ensures { result ≡ instruction_line place instruction }
{
    match instruction {
        Some(_) => usize::from(place) + 1,
        None => 0,
    }
}

/// The number of the first step of a program that traps, from 1.
pub fn first_trap(steps: &[StatementStep]) -> Option<usize>
    ensures { result ≡ first_trap 1 (map (λ step. step.act) steps.now) }
{
    for (at, step) in steps.iter().enumerate() {
        if is_trap(step.act) {
            return Some(at + 1);
        }
    }
    None
}

/// The same of a code.
pub fn first_trap_of_code(steps: &[InstructionStep]) -> Option<usize>
    ensures { result ≡ first_trap 1 (map (λ step. step.act) steps.now) }
{
    for (before, step) in steps.iter().enumerate() {
        if is_trap(step.act) {
            return Some(before + 1);
        }
    }
    None
}

fn is_trap(act: Option<Act>) -> bool
    ensures { result ≡ is_trap act }
{
    match act {
        Some(Act::Trap(_)) => true,
        _ => false,
    }
}

/// The step where a page opens, of which these are the first trap and where a line breaks.
pub fn opened_at(trap: Option<usize>, broken: Option<usize>) -> usize
    ensures { result ≡ opened_at trap broken }
{
    match (trap, broken) {
        (None, None) => 0,
        (None, Some(broken)) => broken,
        (Some(trap), None) => trap,
        (Some(trap), Some(broken)) => trap.min(broken),
    }
}
