//! From the words of a command line to a command, or to what is told in its place.
ghost use Rattle.std.specs.Prelude.{◌≡◌, ◌≢◌, ◌++◌, IfOk, map, string_bytes};
ghost use Rattle.clap.specs.Matches.{found_of};
ghost use Rattle.clap.specs.Simple.{subcommand_rows_of};
ghost use Rattle.clap.specs.Values.{kind_of};
ghost use Rattle.clap.specs.Walk.{rows_of};
ghost use Rattle.ticklab_line.specs.Slips.{hint_for, hint_line};
ghost use Rattle.ticklab_line.specs.Lines.{Answers, IsFound, IsMeant, IsToldBy, number_text, output_in, output_of, version_text};

use crate::commands::{Lent, command_line, request_in};
use crate::conflicts::{conflict_in, conflict_text};
use crate::slips::push_hint;
use crate::values::is_set;
use clap::error::ErrorKind;
use clap::{ArgMatches, Error};
use std::alloc::{AllocError, Global};

/// What is printed of an answer.
#[derive(Clone, Copy, PartialEq, Eq, Debug)]
pub enum Output {
    /// Its text.
    Text,
    /// The schedule in its text, and nothing else.
    ScheduleAlone,
    /// The answer as JSON.
    Json,
}

/// What a command line asks for, or what is told in place of an answer.
#[derive(Drop)]
pub enum Line<'a> {
    /// A command, and what is printed of its answer.
    Request(Lent<'a>, Output),
    /// The help that was asked for.
    Help(String),
    /// The program's name and its version.
    Version(String),
    /// The words are no command, and why.
    Refused(String),
}

/// What the words of a command line ask for, of which the first is the program's name, of a program of this version.
/// The only error is that memory was refused.
pub fn asked<'a>(alloc: Global, words: &'a [String], version: &str) -> Result<Line<'a>, AllocError>
    ensures { IfOk result (Answers version.now (map string_bytes words.entry.now)) }
{
    match command_line(alloc)?.try_get_matches_from(words) {
        Ok(matches) => found(alloc, &matches),
        Err(error) => told(alloc, error, words, version),
    }
}

fn found<'a>(alloc: Global, matches: &ArgMatches<'a>) -> Result<Line<'a>, AllocError>
    ensures { IfOk result (IsFound (subcommand_rows_of matches.now)) }
{
    match conflict_in(matches) {
        Some(options) => Ok(Line::Refused(conflict_text(alloc, options)?)),
        None => meant(alloc, matches),
    }
}

fn meant<'a>(alloc: Global, matches: &ArgMatches<'a>) -> Result<Line<'a>, AllocError>
    ensures { IfOk result (IsMeant (subcommand_rows_of matches.now)) }
{
    match request_in(alloc, matches)? {
        Some(request) => Ok(Line::Request(request, output_of(matches))),
        None => Ok(Line::Refused(number_refused(alloc)?)),
    }
}

fn output_of(matches: &ArgMatches<'_>) -> Output
    ensures { result ≡ output_of (subcommand_rows_of matches.now) }
{
    match matches.subcommand() {
        Some((_name, given)) => output_in(given),
        None => Output::Text,
    }
}

fn output_in(given: &ArgMatches<'_>) -> Output
    ensures { result ≡ output_in (rows_of (found_of given.now)) }
{
    match (is_set(given, "schedule-only"), is_set(given, "json")) {
        (true, _) => Output::ScheduleAlone,
        (false, true) => Output::Json,
        (false, false) => Output::Text,
    }
}

// Where `clap` took a number that is out of its range.
fn number_refused(alloc: Global) -> Result<String, AllocError>
    ensures { IfOk result (λ text. string_bytes text ≡ number_text) }
{
    String::from_str(alloc, "error: a number is out of its range\n")
}

fn told<'a>(
    alloc: Global,
    error: Error,
    words: &[String],
    version: &str,
) -> Result<Line<'a>, AllocError>
    ensures { IfOk result (λ line. IsToldBy version.now (map string_bytes words.now) (kind_of error) line × (kind_of error ≢ ErrorKind.OutOfMemory)) }
{
    match error.kind() {
        ErrorKind::OutOfMemory => Err(AllocError),
        kind => line_told(alloc, kind, format!(in alloc; "{error}")?, words, version),
    }
}

fn line_told<'a>(
    alloc: Global,
    kind: ErrorKind,
    text: String,
    words: &[String],
    version: &str,
) -> Result<Line<'a>, AllocError>
    ensures { IfOk result (IsToldBy version.now (map string_bytes words.now) kind) }
{
    match kind {
        ErrorKind::DisplayHelp => Ok(Line::Help(text)),
        ErrorKind::DisplayVersion => Ok(Line::Version(version_text(alloc, version)?)),
        _ => Ok(Line::Refused(with_hint(text, words)?)),
    }
}

// What is told of words that are refused, and behind it what may help.
fn with_hint(text: String, words: &[String]) -> Result<String, AllocError>
    ensures { IfOk result (λ told. string_bytes told ≡ string_bytes text ++ hint_line (hint_for (map string_bytes words.now))) }
{
    let mut told = text;
    push_hint(&mut told, words)?;
    Ok(told)
}

// (Of the text that `clap` has no clause speaks.)
fn version_text(alloc: Global, version: &str) -> Result<String, AllocError>
    ensures { IfOk result (λ text. string_bytes text ≡ version_text version.now) }
{
    let mut text = String::from_str(alloc, "ticklab ")?;
    text.push_str(version)?;
    text.push_str("\n")?;
    Ok(text)
}
