//! `ticklab trace`, `draw` and `page`: one run of a program, or of its code.
ghost use Rattle.std.specs.Prelude.{◌≡◌, IfOk, codes, map, option_map};
ghost use Rattle.clap.specs.Matches.{found_of};
ghost use Rattle.clap.specs.Walk.{first_of, rows_of};
ghost use Rattle.ticklab_line.specs.Commands.{drawing_in, paging_in, plain_drawing, plain_paging, plain_request, run_in, run_of, side_in};

use crate::commands::{AskedRun, Drawing, Lent, Paging, Request, Side};
use crate::described::Word::{Flag, Number, One, Repeated, Text};
use crate::described::{Description, Word};
use crate::values::{is_set, list_in, number_or, text_in};
use crate::words::{JSON, PROGRAM};
use clap::ArgMatches;
use clap::builder::ValueParser;
use std::alloc::{AllocError, Global};

const SCHEDULE: Word = One(
    "schedule",
    "SCHEDULE",
    "Which process makes each step, as \"0 1*3 0\", or @ and the file that has it or an answer; - for standard input",
);

const CODE: Word = Flag(
    "code",
    "Takes the program's code, on bounded labels; the schedule is one of the code",
);

const LIFT: Word = Flag(
    "lift",
    "Takes the code, and a schedule of the program, which is lifted to the code",
);

const MARKED: Word = Repeated(
    "never",
    "EXPR",
    "Also marks where EXPR first holds, as a line #! never EXPR of the program does; it may be given again; not with --code or --lift",
);

const FOLDED: Word = Flag(
    "shared",
    "Folds what touches nothing shared: a row of such steps of one process is told as one",
);

/// `ticklab trace`.
pub const TRACE: Description = Description {
    name: "trace",
    about: "Prints a line for each step of a run",
    example: "Example: ticklab trace lock.tick \"0 1*3 0\"",
    words: &[PROGRAM, SCHEDULE, CODE, LIFT, MARKED, FOLDED, JSON],
};

/// `ticklab draw`.
pub const DRAW: Description = Description {
    name: "draw",
    about: "Draws a run, as SVG on standard output",
    example: "Example: ticklab draw lock.tick \"0 1*3 0\" > run.svg",
    words: &[
        PROGRAM,
        SCHEDULE,
        CODE,
        LIFT,
        MARKED,
        Text(
            "title",
            "TEXT",
            "The title, as it is, in place of the file's name",
        ),
        Number(
            "from",
            "STEP",
            ValueParser::Signed(1, 10_000_000),
            "The first step that is shown, counted from 1 as by trace; past the last one the picture is empty [default: 1]",
        ),
        Number(
            "to",
            "STEP",
            ValueParser::Signed(1, 10_000_000),
            "The last step that is shown [default: the last one]",
        ),
        Flag(
            "shared",
            "Leaves out what touches nothing shared: older, held and out",
        ),
        Number(
            "width",
            "PIXELS",
            ValueParser::Signed(300, 20_000),
            "How wide the picture is, 300 to 20000 [default: 1000]",
        ),
    ],
};

/// `ticklab page`.
pub const PAGE: Description = Description {
    name: "page",
    about: "Writes a run as one page of HTML, to go through step by step, on standard output",
    example: "Example: ticklab page lock.tick \"0 1*3 0\" > run.html",
    words: &[
        PROGRAM,
        SCHEDULE,
        CODE,
        LIFT,
        MARKED,
        Text(
            "title",
            "TEXT",
            "The title of the page [default: the name of the program's file]",
        ),
        FOLDED,
    ],
};

/// What `trace`, `draw` or `page` asks for, by its name.
pub fn run_in<'a>(
    alloc: Global,
    name: &str,
    given: &ArgMatches<'a>,
) -> Result<Option<Lent<'a>>, AllocError>
    ensures { IfOk result (λ found. option_map plain_request found ≡ run_in name.now (rows_of (found_of given.now))) }
{
    let never = list_in(alloc, given, "never")?;
    Ok(run_of(name, given, never))
}

fn run_of<'a>(name: &str, given: &ArgMatches<'a>, never: Vec<&'a str>) -> Option<Lent<'a>>
    ensures { option_map plain_request result ≡ run_of name.now (map (λ text. text.now) never.entry.items) (rows_of (found_of given.now)) }
{
    let run = AskedRun {
        file: text_in(given, "file")?,
        schedule: text_in(given, "schedule")?,
        never,
        side: side_in(given),
    };
    match name {
        "draw" => Some(Request::Draw(run, drawing_in(given)?)),
        "page" => Some(Request::Page(run, paging_in(given))),
        _ => {
            let is_shared = is_set(given, "shared");
            Some(Request::Trace { run, is_shared })
        }
    }
}

fn side_in(given: &ArgMatches<'_>) -> Side
    ensures { result ≡ side_in (rows_of (found_of given.now)) }
{
    if is_set(given, "lift") {
        return Side::Lifted;
    }
    if is_set(given, "code") {
        return Side::Code;
    }
    Side::Program
}

fn title_in<'a>(given: &ArgMatches<'a>) -> Option<&'a str>
    ensures { option_map (λ text. text.now) result ≡ first_of (codes "title") (rows_of (found_of given.now)) }
{
    text_in(given, "title")
}

fn paging_in<'a>(given: &ArgMatches<'a>) -> Paging<&'a str>
    ensures { plain_paging result ≡ paging_in (rows_of (found_of given.now)) }
{
    let (title, is_shared) = (title_in(given), is_set(given, "shared"));
    Paging { title, is_shared }
}

fn drawing_in<'a>(given: &ArgMatches<'a>) -> Option<Drawing<&'a str>>
    ensures { option_map plain_drawing result ≡ drawing_in (rows_of (found_of given.now)) }
{
    Some(Drawing {
        from: number_or(given, "from", 1)?,
        to: number_or(given, "to", 10_000_000)?,
        width: number_or(given, "width", 1000)?,
        title: title_in(given),
        is_shared: is_set(given, "shared"),
    })
}
