//! From the bytes or the text that was read to a program, a schedule, a code, or moves.
ghost use Rattle.std.specs.Prelude.{◌≡◌, ◌<◌, All, Err, IfErr, IfOk, Ok, length, map, string_bytes};
ghost use Rattle.language_schedules.specs.Moves.{moves_of as moves_spelled, mover};
ghost use Rattle.language_schedules.specs.Schedule.{schedule_of as schedule_spelled};
ghost use Rattle.ticketc_refusals.specs.Refusals.{IsProgramRefused, IsScheduleRefused, SpelledIn};
ghost use Rattle.ticklab_explain.specs.Reports.{Tells, TellsFor};
ghost use Rattle.ticklab_files.specs.Lines.{IsMisspelled};
ghost use Rattle.language_questions.specs.Lines.{asked_of, questions_in};
ghost use Rattle.searches_explore.specs.Lines.{lines_of};
ghost use Rattle.ticklab_files.specs.Asking.{IsFileRefused, IsOf, place_of, texts_of};
ghost use Rattle.ticklab_files.specs.Codes.{HasCode, HasNoCode, program_code};
ghost use Rattle.ticklab_files.specs.Asking.{IsUnexplored};
ghost use Rattle.ticklab_files.specs.Stops.{IfRefused};
ghost use Rattle.ticklab_files.specs.prover.Asked.{IsAsked};

use crate::asking::{NeverLines, never_lines, questions_asked};
use crate::fault::AnswerFault;
use crate::stop::NoAnswer;
use base::NoMemory;
use code_core::Code;
use language_questions::{EndsLines, Questions};
use language_schedules::{Move, ScheduleFault, read_moves, read_schedule};
use std::alloc::Global;
use tick_kinds::Program;
use tick_lower::{LowerFault, lower};
use ticketc_refusals::{SpelledProgram, program_with_tokens};
use ticklab_explain::{explain_moves, explain_refusal, explain_schedule};

/// The program of a file whose lines can be read, with this name.
pub fn program_of(alloc: Global, name: &str, input: &[u8]) -> Result<Program, NoAnswer>
    ensures ok { IfOk result (IsOf input.now) }
    ensures refused { IfErr result (λ stop. IfRefused stop (IsFileRefused name.now input.now)) }
{
    let (spelled, _questions) = spelled_program_of(alloc, name, input)?;
    Ok(spelled.program)
}

/// The program of a file, and what must never hold of it.
#[derive(Drop)]
pub struct AskedProgram<'a> {
    pub spelled: SpelledProgram,
    /// Who is asked whether they end, where the file says it.
    pub ends: EndsLines,
    pub lines: NeverLines<'a>,
}

/// The program of a file whose lines can be read, with this name, and what must never hold of it: what its lines say, and
/// then these texts of the command line.
pub fn asked_program<'a>(
    alloc: Global,
    name: &'a str,
    input: &'a [u8],
    never: &'a [&'a str],
) -> Result<AskedProgram<'a>, NoAnswer>
    ensures spelled { IfOk result (λ asked. SpelledIn input.now asked.spelled) }
    ensures asks { IfOk result (λ asked. IsAsked name.now (texts_of never.now) input.now asked.spelled.program asked.ends
        (lines_of asked.lines.properties.items) (map place_of asked.lines.places.items)) }
    ensures as_many { IfOk result (λ asked. length asked.lines.properties.items ≡ length asked.lines.places.items) }
    ensures refused { IfErr result (λ stop. IfRefused stop (IsUnexplored name.now (texts_of never.now) input.now)) }
{
    let (spelled, questions) = spelled_program_of(alloc, name, input)?;
    let ends = questions.ends;
    let lines = never_lines(alloc, name, input, &spelled.program, questions, never)?;
    Ok(AskedProgram {
        spelled,
        ends,
        lines,
    })
}

/// The program of a file whose lines can be read, with the tokens of its text, and what the lines ask.
pub fn spelled_program_of(
    alloc: Global,
    name: &str,
    input: &[u8],
) -> Result<(SpelledProgram, Questions), NoAnswer>
    ensures spelled { IfOk result (λ found. SpelledIn input.now found.0) }
    ensures questions { IfOk result (λ found. questions_in found.0.program input.now ≡ Ok (asked_of found.1)) }
    ensures refused { IfErr result (λ stop. IfRefused stop (IsFileRefused name.now input.now)) }
{
    let spelled = accepted_spelling(alloc, name, input)?;
    let questions = questions_asked(alloc, name, input, &spelled.program)?;
    Ok((spelled, questions))
}

// The accepted program that an input is, with the tokens of its text; `name` is that of its file.
fn accepted_spelling(alloc: Global, name: &str, input: &[u8]) -> Result<SpelledProgram, NoAnswer>
    ensures ok { IfOk result (SpelledIn input.now) }
    ensures refused { IfErr result (λ stop. IfRefused stop (Tells (IsProgramRefused input.now) name.now input.now)) }
{
    match program_with_tokens(alloc, input)? {
        Ok(spelled) => Ok(spelled),
        Err(refusal) => {
            let report = explain_refusal(alloc, name, input, refusal)?;
            Err(NoAnswer::Refused(report))
        }
    }
}

/// The schedule of so many processes that a text spells; `name` says where the text is from.
pub fn schedule_of(alloc: Global, name: &str, text: &str, n: u8) -> Result<Vec<u8>, NoAnswer>
    ensures ok { IfOk result (λ steps. schedule_spelled n text.now ≡ Ok steps.items) }
    ensures in_range { IfOk result (λ steps. All (λ p. p < n) steps.items) }
    ensures refused { IfErr result (λ stop. IfRefused stop (TellsFor n (IsScheduleRefused n text.now) name.now text.now)) }
{
    match read_schedule(alloc, text, n) {
        Ok(steps) => Ok(steps),
        Err(ScheduleFault::NoMemory) => Err(NoAnswer::Fault(AnswerFault::NoMemory)),
        Err(_) => match explain_schedule(alloc, name, text, n)? {
            Some(report) => Err(NoAnswer::Refused(report)),
            None => unreachable!(),
        },
    }
}

/// The code of a program; `name` is that of its file.
pub fn code_of(alloc: Global, name: &str, program: &Program) -> Result<Code, NoAnswer>
    ensures code { IfOk result (λ code. code ≡ program_code program.now) }
    ensures has_code { IfOk result (λ code. HasCode program.now) }
    ensures refused { IfErr result (λ stop. IfRefused stop (HasNoCode name.now program.now)) }
{
    match lower(alloc, program) {
        Ok(code) => Ok(code),
        Err(LowerFault::NoMemory) => Err(NoAnswer::Fault(AnswerFault::NoMemory)),
        Err(LowerFault::TooLong) => {
            let text = format!(in alloc;
                "{name}: error: its code would have more than 65535 instructions\n"
            )?;
            Err(NoAnswer::Refused(text.into_bytes()))
        }
    }
}

/// The stamps and clears of so many processes that a text spells.
pub fn moves_of(alloc: Global, text: &str, n: u8) -> Result<Vec<Move>, NoAnswer>
    ensures ok { IfOk result (λ moves. moves_spelled n text.now ≡ Ok moves.items) }
    ensures in_range { IfOk result (λ moves. All (λ move. mover move < n) moves.items) }
    ensures refused { IfErr result (λ stop. IfRefused stop (λ report. (fault : ScheduleFault) × (moves_spelled n text.now ≡ Err fault) × IsMisspelled n text.now fault report)) }
{
    match read_moves(alloc, text, n) {
        Ok(moves) => Ok(moves),
        Err(ScheduleFault::NoMemory) => Err(NoAnswer::Fault(AnswerFault::NoMemory)),
        Err(fault) => {
            let report = misspelled(alloc, text, n, fault)?;
            Err(NoAnswer::Refused(report))
        }
    }
}

// The report of this fault of a text.
#[tactic(auto, unfolding(crate::specs::Lines::IsMisspelled))]
fn misspelled(alloc: Global, text: &str, n: u8, fault: ScheduleFault) -> Result<Vec<u8>, NoMemory>
    ensures { IfOk result (λ report. IsMisspelled n text.now fault report.items) }
{
    explain_moves(alloc, "STAMPS", text, n, fault)
}
