//! What `ticklab trace`, `ticklab draw` and `ticklab page` share: they read a program and a schedule, and tell of the run.
ghost use Rattle.std.specs.Prelude.{◌≡◌, ◌<◌, All, IfErr, IfOk, IfSome, length, map};
ghost use Rattle.std.specs.Str.{IsUtf8};
ghost use Rattle.tick_kinds.specs.Resolution.{resolved};
ghost use Rattle.ticklab_line.specs.Commands.{plain_run};
ghost use Rattle.ticklab_runs.specs.Runs.{IsCodeTold, IsProgramTold, IsRun, IsTold, IsToldWith, IsUnrun, TellsRun, is_of_code, plain_telling, schedule_on, steps_told};
ghost use Rattle.ticketc_refusals.specs.Refusals.{SpelledIn};
ghost use Rattle.searches_explore.specs.Lines.{lines_of};
ghost use Rattle.ticklab_files.specs.Asking.{place_of, texts_of};
ghost use Rattle.ticklab_files.specs.Codes.{HasCode, HasNoCode, IsCodeless, program_code};
ghost use Rattle.ticklab_files.specs.Faults.{IsEither, IsOfFileThat, IsUnread};
ghost use Rattle.ticklab_files.specs.Responses.{Gives};
ghost use Rattle.ticklab_files.specs.Stops.{IfRefused};
ghost use Rattle.ticklab_files.specs.Ways.{held};

use crate::drawing::{look_of, never_mark, picture_of, title_of};
use crate::following::{code_run, program_run};
use crate::paging::{code_page_of, program_page, within_a_page};
use crate::parts::parts_of;
use crate::tracing::{instructions_told, program_trace};
use base::NoMemory;
use code_core::Code;
use std::alloc::Global;
use std::str;
use tick_kinds::Program;
use tick_sim::lift;
use ticklab_files::{
    AskedProgram, DONE, Files, Form, LabFault, NoAnswer, Response, ScheduleTexts, asked_program,
    bytes_of, code_of, is_input, output, settled, texts_of, way_of,
};
use ticklab_line::{AskedRun, Drawing, Paging, Side};
use ticklab_trace::Parts;

/// How a run is told.
#[derive(Drop)]
pub enum Telling<T> {
    /// Each step, by a line or as an object of JSON.
    Trace(Tracing),
    /// A picture that shows this.
    Picture(Drawing<T>),
    /// A page of HTML that shows this.
    Page(Paging<T>),
}

/// How a trace tells a run.
#[derive(Clone, Copy)]
pub struct Tracing {
    pub form: Form,
    /// Private steps are folded, or told to be private.
    pub is_shared: bool,
}

/// Whose run is told: that of the program that an input is, or of its code.
#[derive(Drop)]
pub struct Subject<'s, 'a> {
    /// The name of the program's file.
    pub name: &'s str,
    pub text: &'s str,
    pub asked: &'s AskedProgram<'a>,
    /// The parts of the run, where it goes round for ever. Of a code they are not told.
    pub parts: Option<Parts>,
    pub is_code: bool,
}

/// The run of the program under a schedule, or of its code, told so. Where an answer is given that goes on for ever, the run
/// goes on with the steps that lead on and one round of those that repeat. Of a program is told where these parts begin, and
/// where what must never hold does first: a line `#! never` of the file, or one of these texts that are the same. A page opens
/// there, or where a process traps.
pub fn told<F: Files>(
    alloc: Global,
    files: &mut F,
    run: &AskedRun<&str, Vec<&str>>,
    telling: &Telling<&str>,
) -> Result<Response, LabFault>
    ensures ok { IfOk result (TellsRun (plain_telling telling.now) F.Reads F.ReadsInput files.old files.new (plain_run run.now)) }
    ensures err { IfErr result (IsOfFileThat (IsUnread F.Reads F.ReadsInput F.Lists F.Fails) (IsEither run.now.file.now run.now.schedule.now)) }
{
    let file = run.file;
    let input = bytes_of(alloc, files, file)?;
    let (from, given) = texts_of(alloc, files, run.schedule, is_input(file))?;
    let input = input.as_slice();
    let never = run.never.as_slice();
    let answered = run_told(alloc, file, input, from, &given, never, run.side, telling);
    Ok(settled(alloc, answered)?)
}

// `name` is that of the program's file, `from` says where the texts of the way are from.
fn run_told(
    alloc: Global,
    name: &str,
    input: &[u8],
    from: &str,
    given: &ScheduleTexts,
    never: &[&str],
    side: Side,
    telling: &Telling<&str>,
) -> Result<Response, NoAnswer>
    ensures ok { IfOk result (Gives 0 (IsRun side (IsTold (plain_telling telling.now) side name.now (texts_of never.now) input.now) (held given.now))) }
    ensures refused { IfErr result (λ stop. IfRefused stop (IsUnrun (plain_telling telling.now) name.now (texts_of never.now) input.now from.now (held given.now) side)) }
{
    let asked = match asked_program(alloc, name, input, never) {
        Ok(asked) => asked,
        Err(stop) => return Err(stop),
    };
    let text = text_in(input);
    let program = &asked.spelled.program;
    let way = way_of(alloc, from, given, program.processes())?;
    let first = way.schedule.len();
    let round = way.cycle.len();
    let whole = way.steps()?;
    let parts = parts_of(first, round, whole.len());
    let (steps, lowered) = schedule_on(alloc, name, side, program, whole)?;
    let steps = steps.as_slice();
    within_a_page(alloc, telling, from, steps.len())?;
    let subject = Subject {
        name,
        text,
        asked: &asked,
        parts,
        is_code: is_of_code(side),
    };
    let out = telling_of(alloc, &subject, lowered, steps, telling)?;
    Ok(output(alloc, DONE, out))
}

fn text_in(input: &[u8]) -> &str
    requires { IsUtf8 input.now }
    ensures { result.now ≡ input.now }
{
    let Ok(text) = str::from_utf8(input) else {
        unreachable!()
    };
    text
}

// The schedule under which this side runs, where this one is given; and the code, where that was made for it.
fn schedule_on(
    alloc: Global,
    name: &str,
    side: Side,
    program: &Program,
    given: Vec<u8>,
) -> Result<(Vec<u8>, Option<Code>), NoAnswer>
    requires { All (λ p. p < (resolved program.now).processes) given.items }
    ensures ok { IfOk result (λ on. on.0.items ≡ schedule_on side program.now given.items) }
    ensures in_range { IfOk result (λ on. All (λ p. p < (resolved program.now).processes) on.0.items) }
    ensures code { IfOk result (λ on. IfSome on.1 (λ code. code ≡ program_code program.now)) }
    ensures has_code { IfOk result (λ on. IfSome on.1 (λ code. HasCode program.now)) }
    ensures refused { IfErr result (λ stop. IfRefused stop (IsCodeless (is_of_code side) name.now program.now)) }
{
    match side {
        Side::Program | Side::Code => Ok((given, None)),
        Side::Lifted => {
            let code = code_of(alloc, name, program)?;
            let lifted = lift(alloc, program, &code, given.as_slice())?;
            Ok((lifted, Some(code)))
        }
    }
}

fn is_of_code(side: Side) -> bool
    ensures { result ≡ is_of_code side }
{
    match side {
        Side::Program => false,
        Side::Code | Side::Lifted => true,
    }
}

// `lowered` is the code, where it was made before.
fn telling_of(
    alloc: Global,
    subject: &Subject<'_, '_>,
    lowered: Option<Code>,
    schedule: &[u8],
    telling: &Telling<&str>,
) -> Result<Vec<u8>, NoAnswer>
    requires lines { length subject.now.asked.now.lines.properties.items ≡ length subject.now.asked.now.lines.places.items }
    requires schedule { All (λ p. p < (resolved subject.now.asked.now.spelled.program).processes) schedule.now }
    requires program { SpelledIn subject.now.text.now subject.now.asked.now.spelled }
    requires code { IfSome lowered (λ code. code ≡ program_code subject.now.asked.now.spelled.program) }
    requires has_code { IfSome lowered (λ code. HasCode subject.now.asked.now.spelled.program) }
    ensures ok { IfOk result (λ out. IsToldWith (plain_telling telling.now) subject.now.is_code subject.now.name.now
        (lines_of subject.now.asked.now.lines.properties.items) (map place_of subject.now.asked.now.lines.places.items)
        subject.now.text.now subject.now.asked.now.spelled.program subject.now.parts schedule.now out.items) }
    ensures refused { IfErr result (λ stop. IfRefused stop (IsCodeless subject.now.is_code subject.now.name.now subject.now.asked.now.spelled.program)) }
{
    let schedule = steps_told(telling, schedule);
    if subject.is_code {
        let (name, program) = (subject.name, &subject.asked.spelled.program);
        let code = code_asked(alloc, name, program, lowered)?;
        return Ok(code_told(alloc, name, program, &code, schedule, telling)?);
    }
    Ok(program_told(alloc, subject, schedule, telling)?)
}

// The code of a program. It is lowered where that wasn't done before.
fn code_asked(
    alloc: Global,
    name: &str,
    program: &Program,
    lowered: Option<Code>,
) -> Result<Code, NoAnswer>
    requires code { IfSome lowered (λ code. code ≡ program_code program.now) }
    requires has_code { IfSome lowered (λ code. HasCode program.now) }
    ensures code { IfOk result (λ code. code ≡ program_code program.now) }
    ensures has_code { IfOk result (λ code. HasCode program.now) }
    ensures refused { IfErr result (λ stop. IfRefused stop (HasNoCode name.now program.now)) }
{
    match lowered {
        Some(code) => Ok(code),
        None => code_of(alloc, name, program),
    }
}

fn program_told(
    alloc: Global,
    subject: &Subject<'_, '_>,
    schedule: &[u8],
    telling: &Telling<&str>,
) -> Result<Vec<u8>, NoMemory>
    requires lines { length subject.now.asked.now.lines.properties.items ≡ length subject.now.asked.now.lines.places.items }
    requires schedule { All (λ p. p < (resolved subject.now.asked.now.spelled.program).processes) schedule.now }
    requires program { SpelledIn subject.now.text.now subject.now.asked.now.spelled }
    ensures { IfOk result (λ out. IsProgramTold (plain_telling telling.now) subject.now.name.now
        (lines_of subject.now.asked.now.lines.properties.items) (map place_of subject.now.asked.now.lines.places.items)
        subject.now.text.now subject.now.asked.now.spelled.program subject.now.parts schedule.now out.items) }
{
    let Subject { name, text, .. } = *subject;
    let (spelled, lines) = (&subject.asked.spelled, &subject.asked.lines);
    let program = &spelled.program;
    let run = program_run(alloc, program, lines, schedule, telling)?;
    let never = never_mark(lines.places.len(), run.broken);
    match telling {
        Telling::Trace(tracing) => {
            program_trace(alloc, text, spelled, subject.parts, &run, *tracing)
        }
        Telling::Page(paging) => {
            let (title, is_shared) = (title_of(paging.title, name), paging.is_shared);
            let parts = subject.parts;
            program_page(alloc, title, is_shared, text, spelled, parts, &run, never)
        }
        Telling::Picture(drawing) => {
            let (title, marks) = (title_of(drawing.title, name), run.marks.as_slice());
            let look = look_of(drawing);
            picture_of(alloc, program, title, look, subject.parts, marks, never)
        }
    }
}

fn code_told(
    alloc: Global,
    name: &str,
    program: &Program,
    code: &Code,
    schedule: &[u8],
    telling: &Telling<&str>,
) -> Result<Vec<u8>, NoMemory>
    requires code { code.now ≡ program_code program.now }
    requires has_code { HasCode program.now }
    requires schedule { All (λ p. p < (resolved program.now).processes) schedule.now }
    ensures { IfOk result (λ out. IsCodeTold (plain_telling telling.now) name.now program.now schedule.now out.items) }
{
    let run = code_run(alloc, code, schedule, telling)?;
    match telling {
        Telling::Trace(tracing) => {
            instructions_told(alloc, program, run.steps.as_slice(), *tracing)
        }
        Telling::Page(paging) => {
            let title = title_of(paging.title, name);
            code_page_of(alloc, title, paging.is_shared, program, code, &run)
        }
        Telling::Picture(drawing) => {
            let (title, marks) = (title_of(drawing.title, name), run.marks.as_slice());
            picture_of(alloc, program, title, look_of(drawing), None, marks, None)
        }
    }
}

// The steps that are told: in a picture those up to the last that is shown.
fn steps_told<'s>(telling: &Telling<&str>, schedule: &'s [u8]) -> &'s [u8]
    ensures { result.now ≡ steps_told (plain_telling telling.now) schedule.now }
{
    match telling {
        Telling::Picture(drawing) => &schedule[..schedule.len().min(drawing.to as usize)],
        Telling::Trace(_) | Telling::Page(_) => schedule,
    }
}
