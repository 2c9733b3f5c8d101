//! The values that `clap` found for an argument: its text, and the number that the text is.
ghost use Rattle.std.specs.Prelude.{◌≡◌, IfOk, map, option_map};
ghost use Rattle.clap.specs.Matches.{found_of};
ghost use Rattle.clap.specs.Walk.{all_of, first_of, rows_of};
ghost use Rattle.ticklab_line.specs.Found.{is_set, list_of, number_in, number_of, number_or};

use clap::ArgMatches;
use std::alloc::{AllocError, Global};

/// The text of an argument, where there is one.
pub fn text_in<'a>(given: &ArgMatches<'a>, id: &str) -> Option<&'a str>
    ensures { option_map (λ text. text.now) result ≡ first_of id.now (rows_of (found_of given.now)) }
{
    given.get_str(id)
}

/// All texts of an argument, where there are some.
pub fn texts_in<'b, 'a>(given: &'b ArgMatches<'a>, id: &str) -> Option<&'b [&'a str]>
    ensures { option_map (λ texts. map (λ text. text.now) texts.now) result ≡ all_of id.now (rows_of (found_of given.now)) }
{
    given.get_strs(id)
}

/// The same as a list, which is empty where there are none.
pub fn list_in<'a>(
    alloc: Global,
    given: &ArgMatches<'a>,
    id: &str,
) -> Result<Vec<&'a str>, AllocError>
    ensures { IfOk result (λ list. map (λ text. text.now) list.items ≡ list_of id.now (rows_of (found_of given.now))) }
{
    match texts_in(given, id) {
        Some(texts) => Vec::from_slice(alloc, texts),
        None => Ok(Vec::new(alloc)),
    }
}

/// Whether a flag is given: its text is `true` then. (Of other texts than `true` and `false` `get_flag` has no
/// clause.)
pub fn is_set(given: &ArgMatches<'_>, id: &str) -> bool
    ensures { result ≡ is_set id.now (rows_of (found_of given.now)) }
{
    match text_in(given, id) {
        Some(text) => text == "true",
        None => false,
    }
}

pub fn byte_in(given: &ArgMatches<'_>, id: &str) -> Option<u8>
    ensures { result ≡ number_in 8 id.now (rows_of (found_of given.now)) }
{
    given.get_one::<u8>(id)
}

/// The number of an option, and the other one where the option is not given.
pub fn number_or(given: &ArgMatches<'_>, id: &str, other: u32) -> Option<u32>
    ensures { result ≡ number_or 32 id.now other (rows_of (found_of given.now)) }
{
    match text_in(given, id) {
        Some(_text) => given.get_one::<u32>(id),
        None => Some(other),
    }
}

pub fn large_number_or(given: &ArgMatches<'_>, id: &str, other: u64) -> Option<u64>
    ensures { result ≡ number_or 64 id.now other (rows_of (found_of given.now)) }
{
    match text_in(given, id) {
        Some(_text) => given.get_one::<u64>(id),
        None => Some(other),
    }
}

pub fn byte(text: &str) -> Option<u8>
    ensures { result ≡ number_of 8 text.now }
{
    text.parse::<u8>().ok()
}

pub fn number(text: &str) -> Option<u32>
    ensures { result ≡ number_of 32 text.now }
{
    text.parse::<u32>().ok()
}

pub fn large_number(text: &str) -> Option<u64>
    ensures { result ≡ number_of 64 text.now }
{
    text.parse::<u64>().ok()
}
