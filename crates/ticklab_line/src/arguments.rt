//! The arguments of commands, as they are described to `clap`.
ghost use Rattle.std.specs.Prelude.{length};
ghost use Rattle.ticklab_line.specs.CommandLine.{IsWord, flag_rule, further_rule, number_rule, number_word_rule, perhaps_number_rule, repeated_rule, text_rule, two_numbers_rule, word_rule, words_rule};

use clap::builder::ValueParser;
use clap::{Arg, ArgAction};
use std::alloc::Global;

/// A word that has to be there.
pub fn word<'a>(alloc: Global, name: &'a str, value: &'a str, help: &'a str) -> Arg<'a>
    ensures { IsWord (word_rule name.entry.now) result }
{
    further(alloc, name, value, help).required(true)
}

/// One word or more.
pub fn words<'a>(alloc: Global, name: &'a str, value: &'a str, help: &'a str) -> Arg<'a>
    ensures { IsWord (words_rule name.entry.now) result }
{
    let words = word(alloc, name, value, help).num_args(1..);
    words.action(ArgAction::Append)
}

/// A word that may be left out.
pub fn further<'a>(alloc: Global, name: &'a str, value: &'a str, help: &'a str) -> Arg<'a>
    ensures { IsWord (further_rule name.entry.now) result }
{
    Arg::new(alloc, name).value_name(value).help(help)
}

/// A number that has to be there.
pub fn number_word<'a>(
    alloc: Global,
    name: &'a str,
    value: &'a str,
    parser: ValueParser<'a>,
    help: &'a str,
) -> Arg<'a>
    ensures { IsWord (number_word_rule name.entry.now parser.entry) result }
{
    word(alloc, name, value, help).value_parser(parser)
}

/// An option without a value.
pub fn flag<'a>(alloc: Global, name: &'a str, help: &'a str) -> Arg<'a>
    ensures { IsWord (flag_rule name.entry.now) result }
{
    Arg::new(alloc, name)
        .long(name)
        .action(ArgAction::SetTrue)
        .help(help)
}

/// An option with a text.
pub fn text<'a>(alloc: Global, name: &'a str, value: &'a str, help: &'a str) -> Arg<'a>
    ensures { IsWord (text_rule name.entry.now) result }
{
    further(alloc, name, value, help).long(name)
}

/// An option with a text, which may be given again and again.
pub fn repeated<'a>(alloc: Global, name: &'a str, value: &'a str, help: &'a str) -> Arg<'a>
    ensures { IsWord (repeated_rule name.entry.now) result }
{
    text(alloc, name, value, help).action(ArgAction::Append)
}

/// An option with a number. What stands for it where it is left out is for the help alone.
pub fn number<'a>(
    alloc: Global,
    name: &'a str,
    value: &'a str,
    parser: ValueParser<'a>,
    help: &'a str,
) -> Arg<'a>
    ensures { IsWord (number_rule name.entry.now parser.entry) result }
{
    text(alloc, name, value, help).value_parser(parser)
}

/// An option alone, or with a number.
pub fn perhaps_number<'a>(
    alloc: Global,
    name: &'a str,
    value: &'a str,
    parser: ValueParser<'a>,
    help: &'a str,
) -> Arg<'a>
    ensures { IsWord (perhaps_number_rule name.entry.now parser.entry) result }
{
    number(alloc, name, value, parser, help).num_args(0..=1)
}

/// An option with two numbers.
pub fn two_numbers<'a>(
    alloc: Global,
    name: &'a str,
    values: &'a [&'a str],
    parser: ValueParser<'a>,
    help: &'a str,
) -> Arg<'a>
    ensures { IsWord (two_numbers_rule name.entry.now (length values.entry.now) parser.entry) result }
{
    Arg::new(alloc, name)
        .long(name)
        .value_names(values)
        .num_args(2)
        .value_parser(parser)
        .help(help)
}
