//! `ticklab lasso`: whether a schedule can go on for ever.
ghost use Rattle.std.specs.Prelude.{◌≡◌, option_map};
ghost use Rattle.clap.specs.Matches.{found_of};
ghost use Rattle.clap.specs.Walk.{rows_of};
ghost use Rattle.ticklab_line.specs.Commands.{lasso_in, plain_request};

use crate::commands::{Lent, Request};
use crate::described::Description;
use crate::described::Word::{Further, One};
use crate::values::text_in;
use crate::words::PROGRAM;
use clap::ArgMatches;

/// `ticklab lasso`.
pub const LASSO: Description = Description {
    name: "lasso",
    about: "Says whether a cycle after a prefix can go on for ever, with a step of each process that runs there",
    example: "Example: ticklab lasso lock.tick \"0 1\" \"1*2\"",
    words: &[
        PROGRAM,
        One(
            "prefix",
            "PREFIX",
            "The steps before the cycle, as \"0 1*3 0\", or @ and the file that has them, or an answer with both",
        ),
        Further(
            "cycle",
            "CYCLE",
            "The steps of the cycle, or @ and the file that has them; left out: those of the answer",
        ),
    ],
};

/// What it asks for.
pub fn lasso_in<'a>(given: &ArgMatches<'a>) -> Option<Lent<'a>>
    ensures { option_map plain_request result ≡ lasso_in (rows_of (found_of given.now)) }
{
    Some(Request::Lasso {
        file: text_in(given, "file")?,
        prefix: text_in(given, "prefix")?,
        cycle: text_in(given, "cycle"),
    })
}
