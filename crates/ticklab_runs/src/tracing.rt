//! `ticklab trace`: what each step of a run did, and the line that is broken first.
ghost use Rattle.std.specs.Prelude.{◌≡◌, ◌<◌, ◌≤◌, ◌+◌, All, IfOk, IfSome, length, map, option_map, string_bytes};
ghost use Rattle.tick_kinds.specs.Resolution.{resolved};
ghost use Rattle.ticketc_refusals.specs.Refusals.{SpelledIn};
ghost use Rattle.ticklab_trace.specs.Places.{Stand, told_standing};
ghost use Rattle.ticklab_runs.specs.Breaking.{broken_at};
ghost use Rattle.ticklab_runs.specs.Traces.{AreBrokenLines, AreToldWith, IsStatementTrace, IsTraceOf, code_lines, instructions_told, lines_told, statements_told};

use crate::breaking::BrokenLine;
use crate::broken_line::with_line;
use crate::following::ProgramRun;
use crate::objects::broken_objects;
use crate::told_run::Tracing;
use base::NoMemory;
use std::alloc::Global;
use std::str;
use tick_kinds::Program;
use ticketc_refusals::SpelledProgram;
use ticklab_files::Form;
use ticklab_json::{code_objects, source_objects};
use ticklab_trace::{
    InstructionStep, Parts, StatementPlace, StatementStep, code_trace, folded_code_trace,
    folded_source_trace, places, source_steps, source_trace,
};

/// What each step of a run of the program that this text is did, in this form, with the line that is broken first. The run
/// has these parts.
pub fn program_trace(
    alloc: Global,
    text: &str,
    spelled: &SpelledProgram,
    parts: Option<Parts>,
    run: &ProgramRun<'_>,
    tracing: Tracing,
) -> Result<Vec<u8>, NoMemory>
    requires program { SpelledIn text.now spelled.now }
    requires within { IfSome run.now.broken (λ line. line.broken.steps ≤ length run.now.steps.items) }
    ensures { IfOk result (λ out. IsTraceOf tracing text.now spelled.now.program parts run.now.steps.items (option_map broken_at run.now.broken) out.items) }
{
    let program = &spelled.program;
    let spots = places(alloc, program, text, spelled.tokens.as_slice())?;
    let (spots, steps) = (spots.as_slice(), run.steps.as_slice());
    match run.broken {
        None => {
            let text = statements_told(alloc, program, spots, parts, steps, tracing)?;
            Ok(text.into_bytes())
        }
        Some(line) => told_with(alloc, program, spots, parts, steps, line, tracing),
    }
}

/// What each of these steps of its code did.
pub fn instructions_told(
    alloc: Global,
    program: &Program,
    steps: &[InstructionStep],
    tracing: Tracing,
) -> Result<Vec<u8>, NoMemory>
    ensures { IfOk result (λ out. out.items ≡ instructions_told tracing program.now steps.now) }
{
    let text = match tracing.form {
        Form::Text => code_lines(alloc, program, steps, tracing.is_shared)?,
        Form::Json => code_objects(alloc, program, tracing.is_shared, steps)?,
    };
    Ok(text.into_bytes())
}

fn code_lines(
    alloc: Global,
    program: &Program,
    steps: &[InstructionStep],
    is_folded: bool,
) -> Result<String, NoMemory>
    ensures { IfOk result (λ text. string_bytes text ≡ code_lines is_folded program.now steps.now) }
{
    if is_folded {
        folded_code_trace(alloc, program, steps)
    } else {
        code_trace(alloc, program, steps)
    }
}

fn statements_told(
    alloc: Global,
    program: &Program,
    spots: &[StatementPlace<'_>],
    parts: Option<Parts>,
    steps: &[StatementStep],
    tracing: Tracing,
) -> Result<String, NoMemory>
    ensures { IfOk result (λ text. string_bytes text ≡ statements_told tracing program.now (map told_standing spots.now) parts steps.now) }
{
    let is_shared = tracing.is_shared;
    match tracing.form {
        Form::Text => lines_told(alloc, program, spots, parts, 0, steps, is_shared),
        Form::Json => source_objects(alloc, program, spots, parts, is_shared, None, steps),
    }
}

// The lines of steps, the first of which stands behind so many others.
fn lines_told(
    alloc: Global,
    program: &Program,
    spots: &[StatementPlace<'_>],
    parts: Option<Parts>,
    before: usize,
    steps: &[StatementStep],
    is_folded: bool,
) -> Result<String, NoMemory>
    requires { before + length steps.now ≤ 18446744073709551615 }
    ensures { IfOk result (λ text. string_bytes text ≡ lines_told is_folded program.now (map told_standing spots.now) parts before steps.now) }
{
    if is_folded {
        folded_source_trace(alloc, program, spots, parts, before, steps)
    } else {
        source_trace(alloc, program, spots, parts, before, steps)
    }
}

// With the line that is broken after so many of the steps, and what it comes to.
fn told_with(
    alloc: Global,
    program: &Program,
    spots: &[StatementPlace<'_>],
    parts: Option<Parts>,
    steps: &[StatementStep],
    line: BrokenLine<'_>,
    tracing: Tracing,
) -> Result<Vec<u8>, NoMemory>
    requires { line.broken.steps ≤ length steps.now }
    ensures { IfOk result (λ out. AreToldWith tracing (broken_at line.entry) program.now (map told_standing spots.now) parts steps.now out.items) }
{
    let is_shared = tracing.is_shared;
    match tracing.form {
        Form::Text => broken_lines(alloc, program, spots, parts, steps, line, is_shared),
        Form::Json => broken_objects(
            alloc,
            &line.place,
            line.broken,
            program,
            spots,
            parts,
            is_shared,
            steps,
        ),
    }
}

fn broken_lines(
    alloc: Global,
    program: &Program,
    spots: &[StatementPlace<'_>],
    parts: Option<Parts>,
    steps: &[StatementStep],
    line: BrokenLine<'_>,
    is_folded: bool,
) -> Result<Vec<u8>, NoMemory>
    requires { line.broken.steps ≤ length steps.now }
    ensures { IfOk result (λ out. AreBrokenLines is_folded (broken_at line.entry) program.now (map told_standing spots.now) parts steps.now out.items) }
{
    let broken = line.broken;
    let (before, after) = steps.split_at(broken.steps);
    let text = lines_told(alloc, program, spots, parts, 0, before, is_folded)?;
    let mut out = with_line(alloc, text.into_bytes(), &line.place, broken.value)?;
    let steps = broken.steps;
    let rest = lines_told(alloc, program, spots, parts, steps, after, is_folded)?;
    out.extend_from_slice(rest.as_bytes())?;
    Ok(out)
}

/// The steps of the program that this input is.
pub fn source_text(
    alloc: Global,
    spelled: &SpelledProgram,
    input: &[u8],
    schedule: &[u8],
) -> Result<String, NoMemory>
    requires program { SpelledIn input.now spelled.now }
    requires schedule { All (λ p. p < (resolved spelled.now.program).processes) schedule.now }
    ensures { IfOk result (λ text. IsStatementTrace input.now spelled.now.program schedule.now (string_bytes text)) }
{
    let program = &spelled.program;
    let spots = spots_in(alloc, spelled, input)?;
    let steps = source_steps(alloc, program, schedule)?;
    source_trace(alloc, program, spots.as_slice(), None, 0, steps.as_slice())
}

/// Where the statements of the program stand that this input is.
pub fn spots_in<'a>(
    alloc: Global,
    spelled: &SpelledProgram,
    input: &'a [u8],
) -> Result<Vec<StatementPlace<'a>>, NoMemory>
    requires { SpelledIn input.now spelled.now }
    ensures { IfOk result (λ spots. Stand input.now spelled.now.program spots.items) }
{
    let Ok(text) = str::from_utf8(input) else {
        unreachable!()
    };
    places(alloc, &spelled.program, text, spelled.tokens.as_slice())
}
