//! `ticklab explore`: all schedules of a program.
ghost use Rattle.std.specs.Prelude.{◌≡◌, IfOk, map, option_map};
ghost use Rattle.clap.specs.Matches.{found_of};
ghost use Rattle.clap.specs.Walk.{rows_of};
ghost use Rattle.ticklab_line.specs.Commands.{condition_in, ends_in, ends_of, explore_in, plain_request, schedules_of, steps_in, without_ends};

use crate::commands::{Lent, Request, Steps, limit_in, memory_in};
use crate::described::Description;
use crate::described::Word::{Flag, PerhapsNumber};
use crate::values::{byte, is_set, list_in, text_in, texts_in};
use crate::words::{JSON, LIMIT, MEMORY, NEVER, PROGRAM, SCHEDULE_ONLY};
use clap::ArgMatches;
use clap::builder::ValueParser;
use language_questions::Condition;
use std::alloc::{AllocError, Global};

/// `ticklab explore`.
pub const EXPLORE: Description = Description {
    name: "explore",
    about: "Looks under every schedule for one under which a process traps or a #! never line breaks, and then for a shortest one",
    example: "Example: ticklab explore lock.tick",
    words: &[
        PROGRAM,
        LIMIT,
        MEMORY,
        Flag(
            "merged",
            "Searches by merged steps alone: far fewer states, and a schedule that need not be a shortest one",
        ),
        Flag(
            "single",
            "Searches by single steps alone: more states, and a shortest schedule; not with --merged",
        ),
        NEVER,
        SCHEDULE_ONLY,
        JSON,
        PerhapsNumber(
            "ends",
            "P",
            ValueParser::Signed(0, 5),
            "Also asks whether all processes, or process P, can still end after every schedule",
        ),
        Flag(
            "wait-free",
            "Asks whether they end by their own steps, though others stop anywhere",
        ),
        Flag(
            "alone",
            "Asks whether each ends once it steps alone, from wherever; not with --wait-free",
        ),
    ],
};

/// What it asks for.
pub fn explore_in<'a>(alloc: Global, given: &ArgMatches<'a>) -> Result<Option<Lent<'a>>, AllocError>
    ensures { IfOk result (λ found. option_map plain_request found ≡ explore_in (rows_of (found_of given.now))) }
{
    let never = list_in(alloc, given, "never")?;
    match texts_in(given, "ends") {
        Some(texts) => Ok(ends_in(given, never, texts)),
        None => Ok(without_ends(given, never)),
    }
}

// All schedules; and who ends under a condition, where one is asked for.
fn without_ends<'a>(given: &ArgMatches<'a>, never: Vec<&'a str>) -> Option<Lent<'a>>
    ensures { option_map plain_request result ≡ without_ends (map (λ text. text.now) never.entry.items) (rows_of (found_of given.now)) }
{
    match condition_in(given) {
        Condition::Fair => schedules_of(given, never),
        Condition::WaitFree | Condition::Alone => ends_of(given, never, None),
    }
}

fn schedules_of<'a>(given: &ArgMatches<'a>, never: Vec<&'a str>) -> Option<Lent<'a>>
    ensures { option_map plain_request result ≡ schedules_of (map (λ text. text.now) never.entry.items) (rows_of (found_of given.now)) }
{
    Some(Request::Explore {
        file: text_in(given, "file")?,
        never,
        limit: limit_in(given)?,
        memory: memory_in(given)?,
        steps: steps_in(given),
    })
}

// By merged steps first, unless one kind of steps is asked for.
fn steps_in(given: &ArgMatches<'_>) -> Steps
    ensures { result ≡ steps_in (rows_of (found_of given.now)) }
{
    if is_set(given, "merged") {
        return Steps::Merged;
    }
    if is_set(given, "single") {
        return Steps::Single;
    }
    Steps::MergedFirst
}

// The condition under which it is asked who ends.
fn condition_in(given: &ArgMatches<'_>) -> Condition
    ensures { result ≡ condition_in (rows_of (found_of given.now)) }
{
    if is_set(given, "wait-free") {
        return Condition::WaitFree;
    }
    if is_set(given, "alone") {
        return Condition::Alone;
    }
    Condition::Fair
}

fn ends_in<'a>(given: &ArgMatches<'a>, never: Vec<&'a str>, texts: &[&'a str]) -> Option<Lent<'a>>
    ensures { option_map plain_request result ≡ ends_in (map (λ text. text.now) never.entry.items) (rows_of (found_of given.now)) (map (λ text. text.now) texts.now) }
{
    match texts {
        [] => ends_of(given, never, None),
        [process] => ends_of(given, never, Some(byte(process)?)),
        _ => None,
    }
}

fn ends_of<'a>(given: &ArgMatches<'a>, never: Vec<&'a str>, process: Option<u8>) -> Option<Lent<'a>>
    ensures { option_map plain_request result ≡ ends_of (map (λ text. text.now) never.entry.items) process (rows_of (found_of given.now)) }
{
    let condition = condition_in(given);
    let steps = steps_in(given);
    Some(Request::Ends {
        file: text_in(given, "file")?,
        never,
        process,
        condition,
        limit: limit_in(given)?,
        memory: memory_in(given)?,
        steps,
    })
}
