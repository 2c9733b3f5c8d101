//! What a file and a command line ask of a program.
ghost use Rattle.std.specs.Prelude.{◌≡◌, ◌++◌, Err, IfErr, IfOk, Ok, length, map};
ghost use Rattle.language_properties.specs.Properties.{formula_of};
ghost use Rattle.language_questions.specs.Lines.{asked_of, questions_in};
ghost use Rattle.language_questions.specs.Reading.{question_of};
ghost use Rattle.searches_explore.specs.Lines.{lines_of};
ghost use Rattle.ticketc_refusals.specs.Refusals.{ProgramIn};
ghost use Rattle.ticklab_files.specs.Asking.{TellsOption, TellsQuestion, TellsText, lines_in, option_place, options_after, place_of, places_by, text_place, texts_of};
ghost use Rattle.ticklab_files.specs.Stops.{IfRefused};

use crate::stop::NoAnswer;
use base::NoMemory;
use base::span::Span;
use language_questions::{NeverLine, Property, Questions, never_of, questions_of};
use std::alloc::Global;
use std::str;
use tick_kinds::Program;
use ticklab_explain::explain_question;

/// Where the text of a property stands: in a text, which has this name, a part.
#[derive(Clone, Copy)]
pub struct PropertyPlace<'a> {
    pub name: &'a str,
    pub text: &'a [u8],
    pub span: Span,
}

/// The properties that no state of a program may have, and where each stands.
#[derive(Drop)]
pub struct NeverLines<'a> {
    pub properties: Vec<Property>,
    pub places: Vec<PropertyPlace<'a>>,
}

/// What the lines of a file ask of its program; `name` is that of the file.
pub fn questions_asked(
    alloc: Global,
    name: &str,
    input: &[u8],
    program: &Program,
) -> Result<Questions, NoAnswer>
    requires { ProgramIn input.now program.now }
    ensures ok { IfOk result (λ questions. questions_in program.now input.now ≡ Ok (asked_of questions)) }
    ensures refused { IfErr result (λ stop. IfRefused stop (TellsQuestion program.now name.now input.now)) }
{
    let Ok(text) = str::from_utf8(input) else {
        unreachable!()
    };
    match questions_of(alloc, program, text) {
        Ok(questions) => Ok(questions),
        Err(fault) => {
            let report = explain_question(alloc, name, input, fault)?;
            Err(NoAnswer::Refused(report))
        }
    }
}

/// What must never hold of the program of a file that asks this: its lines `#! never`, and then these texts of the
/// command line.
pub fn never_lines<'a>(
    alloc: Global,
    name: &'a str,
    input: &'a [u8],
    program: &Program,
    questions: Questions,
    never: &'a [&'a str],
) -> Result<NeverLines<'a>, NoAnswer>
    ensures places { IfOk result (λ held. map place_of held.places.items ≡ places_by name.now input.now (asked_of questions) (texts_of never.now)) }
    ensures read { IfOk result (λ held. options_after program.now (lines_in (asked_of questions)) (texts_of never.now) ≡ Ok (lines_of held.properties.items)) }
    ensures as_many { IfOk result (λ held. length held.properties.items ≡ length held.places.items) }
    ensures refused { IfErr result (λ stop. IfRefused stop (TellsOption program.now (lines_in (asked_of questions)) (texts_of never.now))) }
{
    let lines = file_lines(alloc, name, input, questions.never)?;
    with_options(alloc, program, lines, never)
}

// The lines of the file of this name.
fn file_lines<'a>(
    alloc: Global,
    name: &'a str,
    input: &'a [u8],
    lines: Vec<NeverLine>,
) -> Result<NeverLines<'a>, NoMemory>
    ensures properties { IfOk result (λ held. held.properties.items ≡ map (λ line. line.property) lines.items) }
    ensures places { IfOk result (λ held. map place_of held.places.items ≡ map (λ line. text_place name.now input.now line.span) lines.items) }
    ensures as_many { IfOk result (λ held. length held.properties.items ≡ length held.places.items) }
{
    let mut properties = Vec::new(alloc);
    let mut places = Vec::new(alloc);
    for line in lines {
        properties.push(line.property)?;
        places.push(PropertyPlace {
            name,
            text: input,
            span: line.span,
        })?;
    }
    Ok(NeverLines { properties, places })
}

// And then these texts of the command line.
fn with_options<'a>(
    alloc: Global,
    program: &Program,
    lines: NeverLines<'a>,
    never: &'a [&'a str],
) -> Result<NeverLines<'a>, NoAnswer>
    requires { length lines.properties.items ≡ length lines.places.items }
    ensures read { IfOk result (λ held. options_after program.now (lines_of lines.entry.properties.items) (texts_of never.now) ≡ Ok (lines_of held.properties.items)) }
    ensures places { IfOk result (λ held. map place_of held.places.items ≡ map place_of lines.entry.places.items ++ map option_place (texts_of never.now)) }
    ensures as_many { IfOk result (λ held. length held.properties.items ≡ length held.places.items) }
    ensures refused { IfErr result (λ stop. IfRefused stop (TellsOption program.now (lines_of lines.entry.properties.items) (texts_of never.now))) }
{
    let mut properties = lines.properties;
    let mut places = lines.places;
    for text in never {
        let property = option_of(alloc, program, text)?;
        properties.push(property)?;
        places.push(whole(text))?;
    }
    Ok(NeverLines { properties, places })
}

// The place of a text of the command line that is a property as a whole.
fn whole(text: &str) -> PropertyPlace<'_>
    ensures { place_of result ≡ option_place text.now }
{
    let span = Span {
        start: 0,
        end: text.len(),
    };
    PropertyPlace {
        name: "--never",
        text: text.as_bytes(),
        span,
    }
}

// The property that a text of the command line is.
fn option_of(alloc: Global, program: &Program, text: &str) -> Result<Property, NoAnswer>
    ensures ok { IfOk result (λ property. question_of program.now text.now ≡ Ok (formula_of property)) }
    ensures refused { IfErr result (λ stop. IfRefused stop (TellsText program.now text.now)) }
{
    match never_of(alloc, program, text) {
        Ok(property) => Ok(property),
        Err(fault) => {
            let report = explain_question(alloc, "--never", text.as_bytes(), fault)?;
            Err(NoAnswer::Refused(report))
        }
    }
}
