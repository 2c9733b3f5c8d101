//! `ticklab explain`: what is wrong with a program, a code or a schedule, or that nothing is.
ghost use Rattle.std.specs.Prelude.{◌≡◌, ◌++◌, IfErr, IfOk, MatchResult, option_map};
ghost use Rattle.ticketc_refusals.specs.Refusals.{IsCode, IsCodeRefused, ProgramIn};
ghost use Rattle.ticklab_files.specs.Asking.{IsProgramFile};
ghost use Rattle.ticklab_files.specs.Faults.{IsOfFileThat, IsOneOf, IsUnread};
ghost use Rattle.ticklab_answers.specs.Explanations.{Explains, ExplainsBoth, ExplainsInput, ExplainsSchedule, HasProcesses, IsFaultOf, IsLineFault, TellsFault, fine_in};
ghost use Rattle.ticklab_files.specs.Responses.{Gives};

use base::NoMemory;
use language_questions::{QuestionFault, questions_of};
use std::alloc::Global;
use std::str;
use tick_kinds::Program;
use ticketc_refusals::{Refusal, begins_code, code_in, program_in, schedule_refusal};
use ticklab_explain::{InputFault, explanation_of, report_of};
use ticklab_files::{
    AnswerFault, DONE, Files, Form, LabFault, REFUSED, Response, answer, bytes_of, is_input,
    output, text_of,
};
use ticklab_json::{explanation_object, fine_object};

/// What is wrong with a program or a code, and where nothing is with a schedule of it. The report is the answer.
pub fn explained<F: Files>(
    alloc: Global,
    files: &mut F,
    file: &str,
    schedule: Option<&str>,
    form: Form,
) -> Result<Response, LabFault>
    ensures ok { IfOk result (Explains F.Reads F.ReadsInput files.old files.new file.now (option_map (λ text. text.now) schedule.entry) form) }
    ensures err { IfErr result (IsOfFileThat (IsUnread F.Reads F.ReadsInput F.Lists F.Fails) (IsOneOf file.now (option_map (λ text. text.now) schedule.entry))) }
{
    let input = bytes_of(alloc, files, file)?;
    match schedule {
        None => Ok(input_explained(alloc, file, input.as_slice(), form)?),
        Some(schedule) => {
            let (from, text) = text_of(alloc, files, schedule, is_input(file))?;
            Ok(schedule_explained(alloc, file, input.as_slice(), from, &text, form)?)
        }
    }
}

fn input_explained(
    alloc: Global,
    name: &str,
    input: &[u8],
    form: Form,
) -> Result<Response, AnswerFault>
    ensures { IfOk result (ExplainsInput name.now input.now form) }
{
    match processes_of(alloc, input)? {
        Ok(_n) => Ok(fine(alloc, name, ": nothing is wrong\n", form)?),
        Err(fault) => Ok(wrong(alloc, 0, name, input, fault, form)?),
    }
}

// `from` says where the schedule is from.
fn schedule_explained(
    alloc: Global,
    name: &str,
    input: &[u8],
    from: &str,
    schedule: &str,
    form: Form,
) -> Result<Response, AnswerFault>
    ensures { IfOk result (ExplainsBoth name.now input.now from.now schedule.now form) }
{
    match processes_of(alloc, input)? {
        Ok(n) => Ok(explained_for(alloc, n, name, from, schedule, form)?),
        Err(fault) => Ok(wrong(alloc, 0, name, input, fault, form)?),
    }
}

// What is wrong with a schedule of so many processes.
fn explained_for(
    alloc: Global,
    n: u8,
    name: &str,
    from: &str,
    schedule: &str,
    form: Form,
) -> Result<Response, NoMemory>
    ensures { IfOk result (ExplainsSchedule n name.now from.now schedule.now form) }
{
    match schedule_refusal(alloc, schedule, n)? {
        Some(refusal) => {
            let fault = InputFault::Refused(refusal);
            wrong(alloc, n, from, schedule.as_bytes(), fault, form)
        }
        None => fine(
            alloc,
            name,
            ": nothing is wrong, nor with the schedule\n",
            form,
        ),
    }
}

// That nothing is wrong, which a line says with this behind the name.
fn fine(alloc: Global, name: &str, behind: &str, form: Form) -> Result<Response, NoMemory>
    ensures { IfOk result (Gives 0 (λ out. out ≡ fine_in form name.now (name.now ++ behind.now))) }
{
    let text = match form {
        Form::Text => format!(in alloc; "{name}{behind}")?,
        Form::Json => fine_object(alloc, name)?,
    };
    Ok(answer(alloc, DONE, text))
}

// What is wrong with an input, or with a schedule of so many processes.
fn wrong(
    alloc: Global,
    processes: u8,
    name: &str,
    text: &[u8],
    fault: InputFault,
    form: Form,
) -> Result<Response, NoMemory>
    ensures { IfOk result (Gives 1 (TellsFault form processes name.now text.now fault)) }
{
    let out = match form {
        Form::Text => report_of(alloc, processes, name, text, fault)?,
        Form::Json => {
            let explanation = explanation_of(alloc, processes, text, fault)?;
            explanation_object(alloc, name, explanation)?.into_bytes()
        }
    };
    Ok(output(alloc, REFUSED, out))
}

// How many processes an input has, or what is wrong with it.
fn processes_of(alloc: Global, input: &[u8]) -> Result<Result<u8, InputFault>, NoMemory>
    ensures { IfOk result (λ found. MatchResult found (HasProcesses input.now) (IsFaultOf input.now)) }
{
    if begins_code(input) {
        return match processes_of_code(alloc, input)? {
            Ok(n) => Ok(Ok(n)),
            Err(refusal) => Ok(Err(InputFault::Refused(refusal))),
        };
    }
    match program_in(alloc, input)? {
        Ok(program) => processes_of_program(alloc, input, &program),
        Err(refusal) => Ok(Err(InputFault::Refused(refusal))),
    }
}

fn processes_of_code(alloc: Global, input: &[u8]) -> Result<Result<u8, Refusal>, NoMemory>
    ensures { IfOk result (λ found. MatchResult found (λ n. (is : IsCode input.now) × (n ≡ is.code.sizes.processes)) (IsCodeRefused input.now)) }
{
    match code_in(alloc, input)? {
        Ok(code) => Ok(Ok(code.sizes().processes())),
        Err(refusal) => Ok(Err(refusal)),
    }
}

// The same of a program, of whose file a line `#!` may have a fault.
fn processes_of_program(
    alloc: Global,
    input: &[u8],
    program: &Program,
) -> Result<Result<u8, InputFault>, NoMemory>
    requires { ProgramIn input.now program.now }
    ensures { IfOk result (λ found. MatchResult found (λ n. (is : IsProgramFile input.now) × (n ≡ is.program.processes)) (IsLineFault program.now input.now)) }
{
    let Ok(text) = str::from_utf8(input) else {
        unreachable!()
    };
    match questions_of(alloc, program, text) {
        Ok(_questions) => Ok(Ok(program.processes())),
        Err(QuestionFault::NoMemory) => Err(NoMemory),
        Err(fault) => Ok(Err(InputFault::Question(fault))),
    }
}
