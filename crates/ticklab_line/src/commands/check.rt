//! `ticklab check`: files and folders of files.
ghost use Rattle.std.specs.Prelude.{◌≡◌, IfOk, map, option_map};
ghost use Rattle.clap.specs.Matches.{found_of};
ghost use Rattle.clap.specs.Walk.{rows_of};
ghost use Rattle.ticklab_line.specs.Commands.{check_in, check_of, plain_request};

use crate::commands::{Lent, Request, limit_in, memory_in};
use crate::described::Description;
use crate::described::Word::{Number, Several};
use crate::values::{list_in, number_or};
use crate::words::{JSON, LIMIT, MEMORY};
use clap::ArgMatches;
use clap::builder::ValueParser;
use std::alloc::{AllocError, Global};

/// `ticklab check`.
pub const CHECK: Description = Description {
    name: "check",
    about: "Explores each file, and compares the answer with what its line #! expect says; safe without one",
    example: "Example: ticklab check programs/",
    words: &[
        Several(
            "path",
            "PATH",
            "A program, - for standard input, or a folder, for the .tick files in it by name",
        ),
        LIMIT,
        MEMORY,
        Number(
            "jobs",
            "N",
            ValueParser::Signed(1, 64),
            "How many files are searched side by side, 1 to 64 [default: as many as there are processors]",
        ),
        JSON,
    ],
};

/// What it asks for.
pub fn check_in<'a>(alloc: Global, given: &ArgMatches<'a>) -> Result<Option<Lent<'a>>, AllocError>
    ensures { IfOk result (λ found. option_map plain_request found ≡ check_in (rows_of (found_of given.now))) }
{
    let paths = list_in(alloc, given, "path")?;
    Ok(check_of(given, paths))
}

fn check_of<'a>(given: &ArgMatches<'a>, paths: Vec<&'a str>) -> Option<Lent<'a>>
    ensures { option_map plain_request result ≡ check_of (map (λ text. text.now) paths.entry.items) (rows_of (found_of given.now)) }
{
    let limit = limit_in(given)?;
    let memory = memory_in(given)?;
    let jobs = number_or(given, "jobs", 64)?;
    Some(Request::Check {
        paths,
        limit,
        memory,
        jobs,
    })
}
