//! `ticklab explain`: what is wrong with an input.
ghost use Rattle.std.specs.Prelude.{◌≡◌, option_map};
ghost use Rattle.clap.specs.Matches.{found_of};
ghost use Rattle.clap.specs.Walk.{rows_of};
ghost use Rattle.ticklab_line.specs.Commands.{explain_in, plain_request};

use crate::commands::{Lent, Request};
use crate::described::Description;
use crate::described::Word::{Further, One};
use crate::values::text_in;
use crate::words::JSON;
use clap::ArgMatches;

/// `ticklab explain`.
pub const EXPLAIN: Description = Description {
    name: "explain",
    about: "Says what is wrong with a program or a code, where, and what may help",
    example: "Example: ticklab explain lock.tick",
    words: &[
        One(
            "file",
            "FILE",
            "The program or the code; - for standard input",
        ),
        Further(
            "schedule",
            "SCHEDULE",
            "A schedule of it, to be explained too; or @ and the file that has it or an answer",
        ),
        JSON,
    ],
};

/// What it asks for.
pub fn explain_in<'a>(given: &ArgMatches<'a>) -> Option<Lent<'a>>
    ensures { option_map plain_request result ≡ explain_in (rows_of (found_of given.now)) }
{
    Some(Request::Explain {
        file: text_in(given, "file")?,
        schedule: text_in(given, "schedule"),
    })
}
