// The report of what is wrong with a question about a program.
ghost use Rattle.std.specs.Prelude.{◌≡◌, ◌≢◌, ◌++◌, IfOk, OnOk};
ghost use Rattle.base.specs.Lines.{line_end};
ghost use Rattle.ticklab_explain.specs.Questions.{IsPointed, IsQuestionReport, question_hint, question_message, question_span};

use crate::advising::hint_for;
use crate::report::{HINT, push_placed};
use crate::scene::text_at;
use crate::writing::{Added, push};
use base::NoMemory;
use base::span::Span;
use language_questions::QuestionFault;
use std::alloc::Global;

// What is told of each fault.
const NO_SUCH_CHARACTER: &str = "no question has this character";

const NUMBER_TOO_GREAT: &str = "this number is above 4294967295";

const CANNOT_GO_ON: &str = "a question can't go on with this";

const NESTED_TOO_DEEPLY: &str = "this is nested too deeply";

const NO_SUCH_NAME: &str = "nothing has this name";

const SEEN_BY_NO_OTHER: &str = "no other process sees this";

const HAS_A_MEANING: &str = "this name has a meaning already";

const NAMES_A_ROW_TOO: &str = "this word names a register row too";

const NO_SUCH_PROCESS: &str = "there is no process of this number";

const NO_SUCH_WORD: &str = "no question begins with this word";

const ASKS_NOTHING: &str = "this comment asks nothing";

const ENDS_TWICE: &str = "a line above says already who has to end";

const NOT_EXPECTED: &str = "nothing is expected by this word";

const EXPECTED_TWICE: &str = "a line above says already what is expected";

const OUT_OF_MEMORY: &str = "out of memory";

/// What is wrong with a question in a text, as a report for people: its place, the line with a caret, and what may
/// help. `name` is that of the text's file. Where memory was refused there is no report.
pub fn explain_question(
    alloc: Global,
    name: &str,
    text: &[u8],
    fault: QuestionFault,
) -> Result<Vec<u8>, NoMemory>
    ensures { IfOk result (λ report. (fault ≢ QuestionFault.NoMemory) × IsQuestionReport name.now text.now fault report.items) }
{
    match fault {
        QuestionFault::NoMemory => Err(NoMemory),
        fault => reported(alloc, name, text, fault),
    }
}

fn reported(
    alloc: Global,
    name: &str,
    text: &[u8],
    fault: QuestionFault,
) -> Result<Vec<u8>, NoMemory>
    ensures { IfOk result (λ report. IsQuestionReport name.now text.now fault report.items) }
{
    let (span, message, help) = told(text, fault);
    let mut report = point(alloc, name, text, span, message)?;
    push_help(&mut report, help)?;
    Ok(report)
}

/// A message about a part of a text: its place, the message, and the line with a caret.
pub fn point(
    alloc: Global,
    name: &str,
    text: &[u8],
    span: Span,
    message: &str,
) -> Result<Vec<u8>, NoMemory>
    ensures { IfOk result (λ told. IsPointed name.now text.now span message.now told.items) }
{
    let mut told = Vec::new(alloc);
    push_placed(alloc, &mut told, name, text, span, message)?;
    Ok(told)
}

fn push_help(report: &mut Vec<u8>, hint: &str) -> Added
    ensures { OnOk result (report.new.items ≡ report.old.items ++ (HINT.now ++ hint.now ++ line_end)) }
{
    push(report, HINT)?;
    push(report, hint)?;
    push(report, "\n")
}

/// What is told of a fault: where it is, what is wrong, and what may help.
pub fn told(text: &[u8], fault: QuestionFault) -> (Span, &'static str, &'static str)
    ensures span { result.0 ≡ question_span fault }
    ensures message { result.1.now ≡ question_message fault }
    ensures hint { result.2.now ≡ question_hint text.now fault }
{
    let (span, message) = placed(fault);
    (span, message, hint_for(fault, text_at(text, span)))
}

// Where a fault is, and what is wrong. Want of memory has no place.
fn placed(fault: QuestionFault) -> (Span, &'static str)
    ensures span { result.0 ≡ question_span fault }
    ensures message { result.1.now ≡ question_message fault }
{
    match fault {
        QuestionFault::BadCharacter(span) => (span, NO_SUCH_CHARACTER),
        QuestionFault::NumberTooBig(span) => (span, NUMBER_TOO_GREAT),
        QuestionFault::Unexpected(_, span) => (span, CANNOT_GO_ON),
        QuestionFault::TooDeep(span) => (span, NESTED_TOO_DEEPLY),
        QuestionFault::Unknown(span) => (span, NO_SUCH_NAME),
        QuestionFault::NotShared(span) => (span, SEEN_BY_NO_OTHER),
        QuestionFault::Twice(span) => (span, HAS_A_MEANING),
        QuestionFault::TwoMeanings(span) => (span, NAMES_A_ROW_TOO),
        QuestionFault::NoSuchProcess(span) => (span, NO_SUCH_PROCESS),
        QuestionFault::NoSuchWord(span) => (span, NO_SUCH_WORD),
        QuestionFault::NotAsked(span) => (span, ASKS_NOTHING),
        QuestionFault::EndsTwice(span) => (span, ENDS_TWICE),
        QuestionFault::NotExpected(span) => (span, NOT_EXPECTED),
        QuestionFault::ExpectTwice(span) => (span, EXPECTED_TWICE),
        QuestionFault::NoMemory => (Span { start: 0, end: 0 }, OUT_OF_MEMORY),
    }
}
