//! Commands as data: what each is named, what it takes, and its help. `clap` is told just this.
ghost use Rattle.ticklab_line.specs.CommandLine.{IsCommand, IsWord};
ghost use Rattle.ticklab_line.specs.prover.Described.{app_for, rule_for};

use crate::arguments::{
    flag, further, number, number_word, perhaps_number, repeated, text, two_numbers, word, words,
};
use crate::parts::taking;
use clap::builder::ValueParser;
use clap::{Arg, Command};
use std::alloc::{AllocError, Global};

/// A word or an option of a command: its name, what stands for its value in the usage, which numbers it takes, and its
/// help.
#[derive(Clone, Copy)]
pub enum Word {
    /// A word that has to be there.
    One(&'static str, &'static str, &'static str),
    /// One word or more.
    Several(&'static str, &'static str, &'static str),
    /// A word that may be left out.
    Further(&'static str, &'static str, &'static str),
    /// A number that has to be there.
    NumberWord(&'static str, &'static str, ValueParser<'static>, &'static str),
    /// `--name`
    Flag(&'static str, &'static str),
    /// `--name TEXT`
    Text(&'static str, &'static str, &'static str),
    /// `--name TEXT`, again and again.
    Repeated(&'static str, &'static str, &'static str),
    /// `--name NUMBER`
    Number(&'static str, &'static str, ValueParser<'static>, &'static str),
    /// `--name`, and `--name NUMBER`
    PerhapsNumber(&'static str, &'static str, ValueParser<'static>, &'static str),
    /// `--name NUMBER NUMBER`
    TwoNumbers(&'static str, &'static [&'static str], ValueParser<'static>, &'static str),
}

/// A command.
#[derive(Clone, Copy)]
pub struct Description {
    pub name: &'static str,
    /// What it does, in a sentence.
    pub about: &'static str,
    /// What stands below its help: an example.
    pub example: &'static str,
    /// What it takes, as its help tells it.
    pub words: &'static [Word],
}

/// The command, as it is told to `clap`.
pub fn described<'a>(alloc: Global, description: &Description) -> Result<Command<'a>, AllocError>
    ensures { IsCommand (app_for description.now) result }
{
    let mut command = Ok(
        Command::new(alloc, description.name)
            .about(description.about)
            .after_help(description.example),
    );
    for word in description.words {
        command = taking(command, argument(alloc, word));
    }
    command
}

fn argument<'a>(alloc: Global, described: &Word) -> Arg<'a>
    ensures { IsWord (rule_for described.now) result }
{
    match *described {
        Word::One(name, value, help) => word(alloc, name, value, help),
        Word::Several(name, value, help) => words(alloc, name, value, help),
        Word::Further(name, value, help) => further(alloc, name, value, help),
        Word::NumberWord(name, value, parser, help) => {
            number_word(alloc, name, value, parser, help)
        }
        Word::Flag(name, help) => flag(alloc, name, help),
        Word::Text(name, value, help) => text(alloc, name, value, help),
        Word::Repeated(name, value, help) => repeated(alloc, name, value, help),
        Word::Number(name, value, parser, help) => number(alloc, name, value, parser, help),
        Word::PerhapsNumber(name, value, parser, help) => {
            perhaps_number(alloc, name, value, parser, help)
        }
        Word::TwoNumbers(name, values, parser, help) => {
            two_numbers(alloc, name, values, parser, help)
        }
    }
}
