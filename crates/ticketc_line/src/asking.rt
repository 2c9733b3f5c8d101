//! From the words of a command line to what they ask for, or why they are refused.
ghost use Rattle.std.specs.Prelude.{◌≡◌, IfOk, Ok, map, option_map, string_bytes};
ghost use Rattle.clap.specs.Simple.{App, Shape, app_of, subcommand_rows_of, with_subcommand};
ghost use Rattle.ticketc_line.specs.Asked.{FitsRequest, named, named_with, plain_asked, plain_request};
ghost use Rattle.ticketc_line.specs.Line.{IsLine, IsPart, asked_in, asked_in_rows, command_shape, plain_row, subcommand_wanted, ticketc, with_commands};

use crate::command::{Command, LineFault, Request};
use crate::numbers::{processes, turns};
use clap::error::ErrorKind;
use clap::{Arg, ArgMatches, Command as Line};
use std::alloc::{AllocError, Global};

/// What the words of a command line ask for, of which the first is the program's name, or why they are
/// refused. The only other error is that memory was refused.
pub fn asked<'a>(
    alloc: Global,
    words: &'a [String],
) -> Result<Result<Request<&'a str>, LineFault>, AllocError>
    ensures asked { IfOk result (λ r. plain_asked r ≡ asked_in (map string_bytes words.entry.now)) }
    ensures fits { IfOk result (λ r. IfOk r (λ request. FitsRequest (plain_request request))) }
{
    match command_line(alloc)?.try_get_matches_from(words) {
        Ok(matches) => Ok(found(&matches)),
        Err(error) => match error.kind() {
            ErrorKind::OutOfMemory => Err(AllocError),
            _ => Ok(Err(LineFault::Usage)),
        },
    }
}

// The commands, and whether a text has to follow each.
static COMMANDS: [(&str, bool); 8] = [
    ("order", true),
    ("check", false),
    ("emit", false),
    ("source", true),
    ("code", true),
    ("lift", true),
    ("drop", true),
    ("run", true),
];

fn command_line<'a>(alloc: Global) -> Result<Line<'a>, AllocError>
    ensures { IsLine ticketc result }
{
    with_all(alloc, Ok(wanting_one(alloc)), &COMMANDS)
}

fn with_all<'a>(
    alloc: Global,
    first: Result<Line<'a>, AllocError>,
    commands: &'a [(&'a str, bool)],
) -> Result<Line<'a>, AllocError>
    ensures { (app : App) → IsLine app first.entry → IsLine (with_commands app (map plain_row commands.entry.now)) result }
{
    let mut line = first;
    for (name, takes_text) in commands {
        line = with(line, command(alloc, name, *takes_text));
    }
    line
}

// The line with one more command.
fn with<'a>(
    line: Result<Line<'a>, AllocError>,
    more: Result<Line<'a>, AllocError>,
) -> Result<Line<'a>, AllocError>
    ensures { (app : App) (shape : Shape) → IsLine app line.entry → IsPart shape more.entry → IsLine (with_subcommand app shape) result }
{
    match (line, more) {
        (Ok(line), Ok(more)) => line.subcommand(more),
        (Err(error), _) | (_, Err(error)) => Err(error),
    }
}

fn wanting_one<'a>(alloc: Global) -> Line<'a>
    ensures { app_of result ≡ subcommand_wanted }
{
    Line::new(alloc, "ticketc").subcommand_required(true)
}

fn command<'a>(alloc: Global, name: &'a str, takes_text: bool) -> Result<Line<'a>, AllocError>
    ensures { IsPart (command_shape (name.entry.now, takes_text)) result }
{
    let command = Line::new(alloc, name);
    if takes_text {
        return command.arg(Arg::new(alloc, "value").required(true));
    }
    Ok(command)
}

fn found<'a>(matches: &ArgMatches<'a>) -> Result<Request<&'a str>, LineFault>
    ensures asked { plain_asked result ≡ asked_in_rows (subcommand_rows_of matches.now) }
    ensures fits { IfOk result (λ request. FitsRequest (plain_request request)) }
{
    match matches.subcommand() {
        Some((name, inner)) => request_named(name, inner.get_str("value")),
        None => Err(LineFault::Usage),
    }
}

fn request_named<'a>(name: &str, text: Option<&'a str>) -> Result<Request<&'a str>, LineFault>
    ensures asked { plain_asked result ≡ named name.now (option_map (λ t. t.now) text.entry) }
    ensures fits { IfOk result (λ request. FitsRequest (plain_request request)) }
{
    match name {
        "check" => Ok(Request::Alone(Command::Check)),
        "emit" => Ok(Request::Alone(Command::Emit)),
        _ => match text {
            Some(text) => request_with(name, text),
            None => Err(LineFault::Usage),
        },
    }
}

fn request_with<'a>(name: &str, text: &'a str) -> Result<Request<&'a str>, LineFault>
    ensures asked { plain_asked result ≡ named_with name.now text.entry.now }
    ensures fits { IfOk result (λ request. FitsRequest (plain_request request)) }
{
    match name {
        "order" => Ok(Request::Alone(Command::Order(processes(text)?))),
        "source" => Ok(Request::Alone(Command::Source(text))),
        "code" => Ok(Request::Alone(Command::Code(text))),
        "lift" => Ok(Request::Alone(Command::Lift(text))),
        "drop" => Ok(Request::Alone(Command::Drop(text))),
        "run" => Ok(Request::Run(turns(text)?)),
        _ => Err(LineFault::Usage),
    }
}
