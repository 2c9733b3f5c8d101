//! `ticklab labels`: the labels of processes that stamp.
ghost use Rattle.std.specs.Prelude.{◌≡◌, option_map};
ghost use Rattle.clap.specs.Matches.{found_of};
ghost use Rattle.clap.specs.Walk.{rows_of};
ghost use Rattle.ticklab_line.specs.Commands.{labels_in, plain_request};

use crate::commands::{Lent, Request};
use crate::described::Description;
use crate::described::Word::{NumberWord, One};
use crate::values::{byte_in, text_in};
use clap::ArgMatches;
use clap::builder::ValueParser;

/// `ticklab labels`.
pub const LABELS: Description = Description {
    name: "labels",
    about: "Draws the bounded labels of N processes, a frame for each stamp, as SVG on standard output",
    example: "Example: ticklab labels 3 \"0 1 2 0\" > labels.svg",
    words: &[
        NumberWord(
            "processes",
            "N",
            ValueParser::Signed(1, 6),
            "How many processes there are, 1 to 6",
        ),
        One(
            "moves",
            "STAMPS",
            "Who stamps, as \"0 1*2 0\"; c0 takes the label of process 0 away",
        ),
    ],
};

/// What it asks for.
pub fn labels_in<'a>(given: &ArgMatches<'a>) -> Option<Lent<'a>>
    ensures { option_map plain_request result ≡ labels_in (rows_of (found_of given.now)) }
{
    Some(Request::Labels {
        processes: byte_in(given, "processes")?,
        moves: text_in(given, "moves")?,
    })
}
