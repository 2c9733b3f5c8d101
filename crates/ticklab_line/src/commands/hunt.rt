//! `ticklab hunt`: random schedules of a program, or runs of its code on threads.
ghost use Rattle.std.specs.Prelude.{◌≡◌, IfOk, map, option_map};
ghost use Rattle.clap.specs.Matches.{found_of};
ghost use Rattle.clap.specs.Walk.{rows_of};
ghost use Rattle.ticklab_line.specs.Commands.{hunt_in, plain_request, plan_of, runs_in};

use crate::commands::{Lent, Request};
use crate::described::Description;
use crate::described::Word::{Flag, Number, TwoNumbers};
use crate::values::{
    is_set, large_number, large_number_or, list_in, number, number_or, text_in, texts_in,
};
use crate::words::{JSON, NEVER, PROGRAM, SCHEDULE_ONLY};
use clap::ArgMatches;
use clap::builder::ValueParser;
use std::alloc::{AllocError, Global};

/// `ticklab hunt`.
pub const HUNT: Description = Description {
    name: "hunt",
    about: "Tries random schedules until a process traps or a #! never line breaks, and shortens that schedule",
    example: "Example: ticklab hunt --seed 7 lock.tick",
    words: &[
        PROGRAM,
        Number(
            "seed",
            "N",
            ValueParser::Unsigned(0, 18_446_744_073_709_551_615),
            "Where the random numbers start: the same seed gives the same answer [default: 0]",
        ),
        Number(
            "runs",
            "N",
            ValueParser::Signed(1, 4_294_967_295),
            "How many schedules there are at most [default: 10000]",
        ),
        Number(
            "from",
            "RUN",
            ValueParser::Signed(0, 4_294_967_294),
            "The run that is made first, so that a hunt can be divided [default: 0]",
        ),
        Number(
            "steps",
            "N",
            ValueParser::Signed(0, 10_000_000),
            "How many steps a schedule has at most [default: 300]",
        ),
        Number(
            "jobs",
            "N",
            ValueParser::Signed(1, 64),
            "How many schedules are tried side by side, 1 to 64 [default: as many as there are processors]",
        ),
        Flag(
            "uniform",
            "Draws the process of each step by itself, in place of bursts of steps of one process",
        ),
        NEVER,
        SCHEDULE_ONLY,
        JSON,
        TwoNumbers(
            "threads",
            &["TIMES", "TURNS"],
            ValueParser::Unsigned(1, 1_000_000_000),
            "Runs the code on threads instead, so many times, each process for at most so many turns; and prints how often each outcome came",
        ),
    ],
};

/// What it asks for.
pub fn hunt_in<'a>(alloc: Global, given: &ArgMatches<'a>) -> Result<Option<Lent<'a>>, AllocError>
    ensures { IfOk result (λ found. option_map plain_request found ≡ hunt_in (rows_of (found_of given.now))) }
{
    let never = list_in(alloc, given, "never")?;
    match texts_in(given, "threads") {
        Some(texts) => Ok(runs_in(given, texts)),
        None => Ok(plan_of(given, never)),
    }
}

fn runs_in<'a>(given: &ArgMatches<'a>, texts: &[&'a str]) -> Option<Lent<'a>>
    ensures { option_map plain_request result ≡ runs_in (rows_of (found_of given.now)) (map (λ text. text.now) texts.now) }
{
    match texts {
        [times, turns] => Some(Request::Runs {
            file: text_in(given, "file")?,
            times: number(times)?,
            turns: large_number(turns)?,
        }),
        _ => None,
    }
}

fn plan_of<'a>(given: &ArgMatches<'a>, never: Vec<&'a str>) -> Option<Lent<'a>>
    ensures { option_map plain_request result ≡ plan_of (map (λ text. text.now) never.entry.items) (rows_of (found_of given.now)) }
{
    Some(Request::Hunt {
        file: text_in(given, "file")?,
        never,
        seed: large_number_or(given, "seed", 0)?,
        runs: number_or(given, "runs", 10_000)?,
        from: number_or(given, "from", 0)?,
        steps: number_or(given, "steps", 300)?,
        is_uniform: is_set(given, "uniform"),
        jobs: number_or(given, "jobs", 64)?,
    })
}
