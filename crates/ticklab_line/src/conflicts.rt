//! Options that do not go together.
ghost use Rattle.std.specs.Prelude.{◌≡◌, IfOk, map, option_map, string_bytes};
ghost use Rattle.clap.specs.Matches.{found_of};
ghost use Rattle.clap.specs.Walk.{rows_of};
ghost use Rattle.clap.specs.Simple.{subcommand_rows_of};
ghost use Rattle.ticklab_line.specs.Conflicts.{code_conflict, code_option, conditions_conflict, conflict_in as conflict_found, conflict_of, conflict_text, in_order, json_conflict, may_conflict, of_file, plan_option, run_named, search_named, shown, steps_conflict, threads_conflict, threads_lead};

use crate::values::{is_set, text_in, texts_in};
use clap::ArgMatches;
use std::alloc::{AllocError, Global};

const THREADS: &str = "--threads <TIMES> <TURNS>";

/// Two options that do not go together, as they are shown, the command that they are of, and the words that it
/// takes.
#[derive(Drop)]
pub struct Conflict<'a> {
    command: &'a str,
    words: &'a str,
    first: &'a str,
    second: &'a str,
}

/// The options of the words that do not go together, where there are some.
pub fn conflict_in(matches: &ArgMatches<'_>) -> Option<Conflict<'static>>
    ensures { option_map shown result ≡ conflict_found (subcommand_rows_of matches.now) }
{
    let (name, given) = matches.subcommand()?;
    conflict_of(name, given)
}

fn conflict_of(name: &str, given: &ArgMatches<'_>) -> Option<Conflict<'static>>
    ensures { option_map shown result ≡ conflict_of name.now (rows_of (found_of given.now)) }
{
    if let Some(conflict) = threads_conflict(given) {
        return Some(conflict);
    }
    if let Some(conflict) = steps_conflict(given) {
        return Some(conflict);
    }
    if let Some(conflict) = conditions_conflict(given) {
        return Some(conflict);
    }
    if let Some(conflict) = json_conflict(name, given) {
        return Some(conflict);
    }
    code_conflict(name, given)
}

// `--merged` and `--single` of `explore`.
fn steps_conflict(given: &ArgMatches<'_>) -> Option<Conflict<'static>>
    ensures { option_map shown result ≡ steps_conflict (rows_of (found_of given.now)) }
{
    if is_set(given, "merged") && is_set(given, "single") {
        return Some(of_file("explore", "--merged", "--single"));
    }
    None
}

// `--wait-free` and `--alone` of `explore`.
fn conditions_conflict(given: &ArgMatches<'_>) -> Option<Conflict<'static>>
    ensures { option_map shown result ≡ conditions_conflict (rows_of (found_of given.now)) }
{
    if is_set(given, "wait-free") && is_set(given, "alone") {
        return Some(of_file("explore", "--wait-free", "--alone"));
    }
    None
}

// `--json` and `--schedule-only` of `explore` or `hunt`.
fn json_conflict(name: &str, given: &ArgMatches<'_>) -> Option<Conflict<'static>>
    ensures { option_map shown result ≡ json_conflict name.now (rows_of (found_of given.now)) }
{
    if is_set(given, "json") && is_set(given, "schedule-only") {
        return Some(of_file(search_named(name), "--json", "--schedule-only"));
    }
    None
}

// The command of this name whose answer may have a schedule.
fn search_named(name: &str) -> &'static str
    ensures { result.now ≡ search_named name.now }
{
    match name {
        "hunt" => "hunt",
        _ => "explore",
    }
}

// Two options of a command that takes a file.
fn of_file<'a>(command: &'a str, first: &'a str, second: &'a str) -> Conflict<'a>
    ensures { shown result ≡ of_file command.now first.now second.now }
{
    Conflict {
        command,
        words: " <FILE>",
        first,
        second,
    }
}

// `--code` or `--lift`, and `--never`, of `trace`, `draw` or `page`.
fn code_conflict(name: &str, given: &ArgMatches<'_>) -> Option<Conflict<'static>>
    ensures { option_map shown result ≡ code_conflict name.now (rows_of (found_of given.now)) }
{
    let _never = text_in(given, "never")?;
    let option = code_option(given)?;
    Some(Conflict {
        command: run_named(name),
        words: " <FILE> <SCHEDULE>",
        first: option,
        second: "--never <EXPR>",
    })
}

// The command of this name that takes a schedule.
fn run_named(name: &str) -> &'static str
    ensures { result.now ≡ run_named name.now }
{
    match name {
        "draw" => "draw",
        "page" => "page",
        _ => "trace",
    }
}

fn code_option(given: &ArgMatches<'_>) -> Option<&'static str>
    ensures { option_map (λ option. option.now) result ≡ code_option (rows_of (found_of given.now)) }
{
    if is_set(given, "code") {
        return Some("--code");
    }
    if is_set(given, "lift") {
        return Some("--lift");
    }
    None
}

// `--threads` and an option of a plan, in the order in which they were given.
fn threads_conflict(given: &ArgMatches<'_>) -> Option<Conflict<'static>>
    ensures { option_map shown result ≡ threads_conflict (rows_of (found_of given.now)) }
{
    let _threads = texts_in(given, "threads")?;
    let option = plan_option(given)?;
    Some(in_order(threads_lead(given), option))
}

fn in_order(threads_lead: bool, option: &str) -> Conflict<'_>
    ensures { shown result ≡ in_order threads_lead option.now }
{
    if threads_lead {
        return of_file("hunt", THREADS, option);
    }
    of_file("hunt", option, THREADS)
}

// The first option of a plan that is given, as it is shown.
fn plan_option(given: &ArgMatches<'_>) -> Option<&'static str>
    ensures { option_map (λ option. option.now) result ≡ plan_option (rows_of (found_of given.now)) }
{
    if text_in(given, "seed").is_some() {
        return Some("--seed <N>");
    }
    if text_in(given, "runs").is_some() {
        return Some("--runs <N>");
    }
    if text_in(given, "from").is_some() {
        return Some("--from <RUN>");
    }
    if text_in(given, "steps").is_some() {
        return Some("--steps <N>");
    }
    if text_in(given, "jobs").is_some() {
        return Some("--jobs <N>");
    }
    if is_set(given, "uniform") {
        return Some("--uniform");
    }
    if text_in(given, "never").is_some() {
        return Some("--never <EXPR>");
    }
    if is_set(given, "schedule-only") {
        return Some("--schedule-only");
    }
    if is_set(given, "json") {
        return Some("--json");
    }
    None
}

// Whether `--threads` was given before each option of a plan.
fn threads_lead(given: &ArgMatches<'_>) -> bool
    ensures { result ≡ threads_lead (map (λ row. row.id) (rows_of (found_of given.now))) }
{
    for id in given.ids() {
        if may_conflict(id) {
            return id == "threads";
        }
    }
    false
}

fn may_conflict(id: &str) -> bool
    ensures { result ≡ may_conflict id.now }
{
    matches!(
        id,
        "threads"
            | "seed"
            | "runs"
            | "from"
            | "steps"
            | "jobs"
            | "uniform"
            | "never"
            | "schedule-only"
            | "json"
    )
}

/// What is told of them, as `clap` tells it of two of its own.
pub fn conflict_text(alloc: Global, options: Conflict<'_>) -> Result<String, AllocError>
    ensures { IfOk result (λ text. string_bytes text ≡ conflict_text (shown options.entry)) }
{
    let mut text = String::from_str(alloc, "error: the argument '")?;
    text.push_str(options.first)?;
    text.push_str("' cannot be used with '")?;
    text.push_str(options.second)?;
    text.push_str("'\n\nUsage: ticklab ")?;
    text.push_str(options.command)?;
    text.push_str(" ")?;
    text.push_str(options.first)?;
    text.push_str(options.words)?;
    text.push_str("\n\nFor more information, try '--help'.\n")?;
    Ok(text)
}
