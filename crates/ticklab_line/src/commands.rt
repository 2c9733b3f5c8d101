//! The commands: what each asks for. Each has a file, with its description and what reads its words.
ghost use Rattle.std.specs.Prelude.{◌≡◌, IfOk, option_map};
ghost use Rattle.clap.specs.Matches.{found_of};
ghost use Rattle.clap.specs.Walk.{rows_of};
ghost use Rattle.clap.specs.Simple.{app_of, subcommand_rows_of};
ghost use Rattle.ticklab_line.specs.CommandLine.{IsLine};
ghost use Rattle.ticklab_line.specs.Commands.{command_wanted, limit_in, memory_in, named, plain_request, ticklab};
ghost use Rattle.ticklab_line.specs.Commands.{request_in as found_request};

pub mod check;
pub mod explain;
pub mod explore;
pub mod hunt;
pub mod labels;
pub mod lasso;
pub mod runs;

use crate::described::{Description, described};
use crate::parts::with;
use crate::values::number_or;
use check::{CHECK, check_in};
use clap::{ArgMatches, Command};
use explain::{EXPLAIN, explain_in};
use explore::{EXPLORE, explore_in};
use hunt::{HUNT, hunt_in};
use labels::{LABELS, labels_in};
use language_questions::Condition;
use lasso::{LASSO, lasso_in};
use runs::{DRAW, PAGE, TRACE, run_in};
use std::alloc::{AllocError, Global};

/// What makes the steps of a schedule.
#[derive(Clone, Copy, PartialEq, Eq, Debug)]
pub enum Side {
    /// The program.
    Program,
    /// Its code; the schedule is one of the code.
    Code,
    /// Its code, under the schedule that `lift` makes of this one of the program.
    Lifted,
}

/// By which steps all schedules are gone through.
#[derive(Clone, Copy, PartialEq, Eq, Debug)]
pub enum Steps {
    /// By merged steps, in which private steps go with the shared one before them; then by single steps too, where
    /// these tell more.
    MergedFirst,
    Single,
    Merged,
}

/// What a picture shows of a run, and how.
#[derive(Debug, Drop)]
pub struct Drawing<T> {
    /// Its title, where that is not the file's name.
    pub title: Option<T>,
    /// The first step that is shown, counted from 1.
    pub from: u32,
    /// The last one.
    pub to: u32,
    /// Only what other processes can see is shown.
    pub is_shared: bool,
    /// How wide it is, in pixels.
    pub width: u32,
}

/// How a page shows a run.
#[derive(Debug, Drop)]
pub struct Paging<T> {
    /// Its title, where that is not the file's name.
    pub title: Option<T>,
    /// Steps that no other process can see are folded.
    pub is_shared: bool,
}

/// A run of a program, or of its code, and what must never hold.
#[derive(Debug, Drop)]
pub struct AskedRun<T, L> {
    pub file: T,
    pub schedule: T,
    pub never: L,
    pub side: Side,
}

/// A command with what goes with it, its texts and its lists of texts in whatever form they are held. A file is a
/// name, and `-` is standard input; a schedule is its text, or `@` and the name of the file that has it, or `-`. Neither
/// is read yet.
#[derive(Debug, Drop)]
pub enum Request<T, L> {
    /// All schedules of a program, as far as it has at most so many states, which take at most so many megabytes; and
    /// what must never hold.
    Explore {
        file: T,
        never: L,
        limit: u32,
        memory: u32,
        steps: Steps,
    },
    /// The same, and whether this process ends under a condition; where none is given, those that the file names, or
    /// all.
    Ends {
        file: T,
        never: L,
        process: Option<u8>,
        condition: Condition,
        limit: u32,
        memory: u32,
        steps: Steps,
    },
    /// Files, and folders of files: whether each is as it says, as far as it has at most so many states, which take at
    /// most so many megabytes; so many are searched side by side.
    Check {
        paths: L,
        limit: u32,
        memory: u32,
        jobs: u32,
    },
    /// A schedule that repeats a part of itself for ever, and who runs on there. Where no cycle is given, that is a part of
    /// what the prefix is given by.
    Lasso {
        file: T,
        prefix: T,
        cycle: Option<T>,
    },
    /// Random schedules of a program, from one of them on, and what must never hold; so many runs are tried side by
    /// side.
    Hunt {
        file: T,
        never: L,
        seed: u64,
        runs: u32,
        from: u32,
        steps: u32,
        is_uniform: bool,
        jobs: u32,
    },
    /// Runs on threads of a program's code: how many, and the turns of each process.
    Runs {
        file: T,
        times: u32,
        turns: u64,
    },
    /// A run step by step, and where what must never hold does. Steps that no other process can see may be folded.
    Trace {
        run: AskedRun<T, L>,
        is_shared: bool,
    },
    /// A run as a picture, and where what must never hold does.
    Draw(AskedRun<T, L>, Drawing<T>),
    /// A run as a page of HTML, and where what must never hold does.
    Page(AskedRun<T, L>, Paging<T>),
    /// What is wrong with a program or a code, or with a schedule of it.
    Explain {
        file: T,
        schedule: Option<T>,
    },
    /// The labels of so many processes under stamps and clears, as a picture.
    Labels {
        processes: u8,
        moves: T,
    },
}

/// A request whose texts are those of the words.
pub type Lent<'a> = Request<&'a str, Vec<&'a str>>;

const ABOUT: &str =
    "Shows what a ticket program does under every schedule, under random ones, and step by step";

// What stands below the help of the whole line: an example of each command, and the statuses. No contract says what it is.
const EXAMPLES: &str = "Examples:
  ticklab explore lock.tick
  ticklab check programs/
  ticklab lasso lock.tick \"0 1\" \"1*2\"
  ticklab hunt --seed 7 lock.tick
  ticklab trace lock.tick \"0 1*3 0\"
  ticklab draw lock.tick \"0 1*3 0\" > run.svg
  ticklab page lock.tick \"0 1*3 0\" > run.html
  ticklab explain lock.tick
  ticklab labels 3 \"0 1 2 0\" > labels.svg

Exit status: \
0 it is done: what was asked for is printed, explore and hunt found nothing, and check found all as expected; \
1 the program, code, schedule or #! line is refused; \
2 the command line is; \
3 a file could not be read, or the answer not be written; \
4 memory or a thread was refused; \
5 explore or hunt found a schedule under which a process traps or a #! never line breaks, or check what was not expected; \
6 explore or check met its limit; \
7 explore found a schedule after which what was asked for can't end or never does, or lasso says that it never does. \
All but the answer is told on standard error.";

/// All commands, as the help tells them.
pub const COMMANDS: &[Description] = &[
    EXPLORE, CHECK, LASSO, HUNT, TRACE, DRAW, PAGE, EXPLAIN, LABELS,
];

/// The whole command line.
pub fn command_line<'a>(alloc: Global) -> Result<Command<'a>, AllocError>
    ensures { IsLine ticklab result }
{
    let mut line = Ok(ticklab(alloc));
    for description in COMMANDS {
        line = with(line, described(alloc, description));
    }
    line
}

fn ticklab<'a>(alloc: Global) -> Command<'a>
    ensures { app_of result ≡ command_wanted }
{
    Command::new(alloc, "ticklab")
        .version("")
        .about(ABOUT)
        .after_help(EXAMPLES)
        .subcommand_required(true)
        .arg_required_else_help(true)
}

/// The request, where the line has one: `clap` has seen to it that it does.
pub fn request_in<'a>(
    alloc: Global,
    matches: &ArgMatches<'a>,
) -> Result<Option<Lent<'a>>, AllocError>
    ensures { IfOk result (λ found. option_map plain_request found ≡ found_request (subcommand_rows_of matches.now)) }
{
    match matches.subcommand() {
        Some((name, given)) => {
            let found = request_named(alloc, name, given)?;
            Ok(found)
        }
        None => Ok(None),
    }
}

fn request_named<'a>(
    alloc: Global,
    name: &str,
    given: &ArgMatches<'a>,
) -> Result<Option<Lent<'a>>, AllocError>
    ensures { IfOk result (λ found. option_map plain_request found ≡ named name.now (rows_of (found_of given.now))) }
{
    match name {
        "explore" => explore_in(alloc, given),
        "check" => check_in(alloc, given),
        "lasso" => Ok(lasso_in(given)),
        "hunt" => hunt_in(alloc, given),
        "trace" | "draw" | "page" => run_in(alloc, name, given),
        "explain" => Ok(explain_in(given)),
        "labels" => Ok(labels_in(given)),
        _ => Ok(None),
    }
}

/// How many states a search may have.
pub fn limit_in(given: &ArgMatches<'_>) -> Option<u32>
    ensures { result ≡ limit_in (rows_of (found_of given.now)) }
{
    number_or(given, "limit", u32::MAX)
}

/// How many megabytes they may take.
pub fn memory_in(given: &ArgMatches<'_>) -> Option<u32>
    ensures { result ≡ memory_in (rows_of (found_of given.now)) }
{
    number_or(given, "memory", 1000)
}
