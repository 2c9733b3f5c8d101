// One file: what a search of its program finds, or why it is refused.
ghost use Rattle.std.specs.Prelude.{◌≡◌, IfOk, Ok, map};
ghost use Rattle.language_questions.specs.Lines.{asked_of, questions_in};
ghost use Rattle.searches_explore.specs.Lines.{lines_of};
ghost use Rattle.tick_kinds.specs.Resolution.{resolved};
ghost use Rattle.ticketc_refusals.specs.Refusals.{ProgramIn};
ghost use Rattle.ticklab_check.specs.Checking.{ComesTo, IsFound, IsFoundOfAsked, SourceComesTo, lines_asked, one_if};
ghost use Rattle.ticklab_check.specs.prover.Answers.{asked_found, fault_of, found_of, known_of, own_found};

use crate::asking::asked_for;
use crate::checked::Checked;
use crate::comparing::expected_of;
use crate::found::Found;
use crate::source::Source;
use base::NoMemory;
use language_questions::{Ends, EndsLines, NeverLine, Property, Questions, questions_of};
use searches_explore::{
    Conditions, Fault, Known, Limits, Liveness, OwnSteps, StepKind, Unwatched, Verdict, explore,
    explore_ends,
};
use std::alloc::{AllocError, Global};
use std::str;
use tick_kinds::Program;
use ticketc_refusals::program_in;
use ticklab_explain::{explain_question, explain_refusal};

/// What a file comes to, within these limits.
pub fn checked_file(alloc: Global, source: &Source, limits: Limits) -> Result<Checked, NoMemory>
    ensures { IfOk result (SourceComesTo limits source.now) }
{
    let name = source.name.as_str();
    let input = source.bytes.as_slice();
    match program_in(alloc, input)? {
        Ok(program) => checked_program(alloc, name, input, &program, limits),
        Err(refusal) => {
            let report = explain_refusal(alloc, name, input, refusal)?;
            Ok(Checked::Refused(report))
        }
    }
}

fn checked_program(
    alloc: Global,
    name: &str,
    input: &[u8],
    program: &Program,
    limits: Limits,
) -> Result<Checked, NoMemory>
    requires { ProgramIn input.now program.now }
    ensures { IfOk result (ComesTo limits name.now input.now) }
{
    let Ok(text) = str::from_utf8(input) else {
        unreachable!()
    };
    match questions_of(alloc, program, text) {
        Ok(questions) => searched(alloc, name, input, program, questions, limits),
        Err(fault) => {
            let report = explain_question(alloc, name, input, fault)?;
            Ok(Checked::Refused(report))
        }
    }
}

fn searched(
    alloc: Global,
    name: &str,
    input: &[u8],
    program: &Program,
    questions: Questions,
    limits: Limits,
) -> Result<Checked, NoMemory>
    requires program { ProgramIn input.now program.now }
    requires asks { questions_in program.now input.now ≡ Ok (asked_of questions) }
    ensures { IfOk result (ComesTo limits name.now input.now) }
{
    let asked = asked_for(questions.ends);
    let expected = expected_of(questions.expected);
    let lines = lines_asked(&questions);
    let properties = properties_of(alloc, questions.never)?;
    let found = found_in(alloc, program, &properties, asked, limits)?;
    Ok(Checked::Searched {
        found,
        expected,
        lines,
    })
}

// How many lines `#! never` and `#! ends` there are.
fn lines_asked(questions: &Questions) -> usize
    ensures { result ≡ lines_asked (asked_of questions.now) }
{
    let never = questions.never.as_slice().len();
    let EndsLines {
        fair,
        wait_free,
        alone,
    } = questions.ends;
    never + one_if(fair) + one_if(wait_free) + one_if(alone)
}

// 1 for a line that there is.
fn one_if(line: Option<Ends>) -> usize
    ensures { result ≡ one_if line }
{
    match line {
        Some(_) => 1,
        None => 0,
    }
}

fn properties_of(alloc: Global, lines: Vec<NeverLine>) -> Result<Vec<Property>, AllocError>
    ensures { IfOk result (λ properties. properties.items ≡ map (λ line. line.property) lines.items) }
{
    let mut properties = Vec::new(alloc);
    for line in lines {
        properties.push(line.property)?;
    }
    Ok(properties)
}

// What is found of a program where these lines must never hold, and these processes are asked for: by merged steps.
fn found_in(
    alloc: Global,
    program: &Program,
    lines: &[Property],
    asked: Option<Conditions>,
    limits: Limits,
) -> Result<Found, NoMemory>
    ensures { IfOk result (IsFound (resolved program.now) (lines_of lines.now) limits asked) }
{
    match asked {
        None => {
            let kind = StepKind::Merged;
            let explored = explore(alloc, program, lines, kind, limits, &mut Unwatched)?;
            Ok(found_of(&explored))
        }
        Some(asked) => found_of_asked(alloc, program, lines, asked, limits),
    }
}

fn found_of(explored: &Verdict<Fault, ()>) -> Found
    ensures { result ≡ found_of explored.now }
{
    match explored {
        Verdict::Found { found, .. } => fault_of(found),
        Verdict::Nowhere { states, .. } => Found::Safe { states: *states },
        Verdict::Limit { states } => Found::Limit { states: *states },
    }
}

fn fault_of(fault: &Fault) -> Found
    ensures { result ≡ fault_of fault.now }
{
    match fault {
        Fault::Trapped(_) => Found::Trap,
        Fault::Broken { .. } => Found::Never,
    }
}

// The same where these processes are asked for.
#[tactic(auto, using(crate::proofs::Asked::asked_is))]
fn found_of_asked(
    alloc: Global,
    program: &Program,
    lines: &[Property],
    asked: Conditions,
    limits: Limits,
) -> Result<Found, NoMemory>
    ensures { IfOk result (IsFoundOfAsked (resolved program.now) (lines_of lines.now) limits asked) }
{
    let kind = StepKind::Merged;
    let explored = explore_ends(alloc, program, lines, asked, kind, limits, &mut Unwatched)?;
    Ok(asked_found(&explored))
}

fn asked_found(explored: &Verdict<Fault, Known>) -> Found
    ensures { result ≡ asked_found explored.now }
{
    match explored {
        Verdict::Found { found, .. } => fault_of(found),
        Verdict::Nowhere { states, known } => known_of(known, *states),
        Verdict::Limit { states } => Found::Limit { states: *states },
    }
}

fn known_of(known: &Known, states: u32) -> Found
    ensures { result ≡ known_of known.now states }
{
    match known.fair {
        Liveness::Stuck { .. } => Found::Stuck { states },
        Liveness::Endless { .. } => Found::Endless { states },
        Liveness::Ends => own_found(&known.wait_free, &known.alone, states),
    }
}

// The same of the own steps of processes.
fn own_found(wait_free: &OwnSteps, alone: &OwnSteps, states: u32) -> Found
    ensures { result ≡ own_found wait_free.now alone.now states }
{
    match (wait_free, alone) {
        (OwnSteps::ForEver { .. }, _) => Found::NotWaitFree { states },
        (OwnSteps::Stop, OwnSteps::ForEver { .. }) => Found::NotAlone { states },
        (OwnSteps::Stop, OwnSteps::Stop) => Found::Ends { states },
    }
}
