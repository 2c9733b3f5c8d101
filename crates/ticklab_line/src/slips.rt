//! What may help where `clap` refuses the words: slips that show in them.
ghost use Rattle.std.specs.Prelude.{◌≡◌, ◌&&◌, ◌++◌, OnOk, map, option_map, string_bytes};
ghost use Rattle.std.specs.List.{list_any};
ghost use Rattle.ticklab_line.specs.Slips.{begins_plain, crowd_of, hint_behind, hint_for, hint_line, is_option, is_text, lacks_a_number, lacks_number};

use crate::values::large_number;
use std::alloc::AllocError;

const FILE_FIRST: &str =
    "behind --ends stands a process or nothing: write the file first, as in `ticklab explore lock.tick --ends`";

const DIGITS: &str = "a number is written in digits alone, as 1000000";

const ONE_FILE: &str = "it takes one file; `ticklab check` takes several, and folders";

const ONE_WORD: &str = "a schedule is one word: put it in quotes, as \"0 1*3 0\"";

/// Adds the hint for these words, if there is one.
pub fn push_hint(text: &mut String, words: &[String]) -> Result<(), AllocError>
    ensures { OnOk result (string_bytes text.new ≡ string_bytes text.old ++ hint_line (hint_for (map string_bytes words.now))) }
{
    match hint_for(words) {
        Some(hint) => {
            text.push_str("hint: ")?;
            text.push_str(hint)?;
            text.push_str("\n")
        }
        None => Ok(()),
    }
}

// The hint for the words, of which the first is the program's name, and the second a command's.
fn hint_for(words: &[String]) -> Option<&'static str>
    ensures { option_map (λ hint. hint.now) result ≡ hint_for (map string_bytes words.now) }
{
    if words.len() < 2 {
        return None;
    }
    hint_behind(&words[1], &words[2..])
}

fn hint_behind(command: &str, words: &[String]) -> Option<&'static str>
    ensures { option_map (λ hint. hint.now) result ≡ hint_behind command.now (map string_bytes words.now) }
{
    if lacks_number("--ends", words) {
        return Some(FILE_FIRST);
    }
    if lacks_a_number(words) {
        return Some(DIGITS);
    }
    let (count, hint) = crowd_of(command)?;
    if begins_plain(count, words) {
        Some(hint)
    } else {
        None
    }
}

// How many words are one too many for a command, and what may help.
fn crowd_of(command: &str) -> Option<(usize, &'static str)>
    ensures { option_map (λ crowd. (crowd.0, crowd.1.now)) result ≡ crowd_of command.now }
{
    match command {
        "explore" | "hunt" => Some((2, ONE_FILE)),
        "trace" | "draw" | "page" | "explain" | "labels" => Some((3, ONE_WORD)),
        "lasso" => Some((4, ONE_WORD)),
        _ => None,
    }
}

// Whether an option that wants a number is followed by something else.
fn lacks_a_number(words: &[String]) -> bool
    ensures { result ≡ lacks_a_number (map string_bytes words.now) }
{
    lacks_number("--limit", words)
        || lacks_number("--memory", words)
        || lacks_number("--jobs", words)
        || lacks_number("--seed", words)
        || lacks_number("--runs", words)
        || lacks_number("--from", words)
        || lacks_number("--to", words)
        || lacks_number("--steps", words)
        || lacks_number("--width", words)
        || lacks_number("--threads", words)
}

// Whether an option of this name is followed by a word that is neither an option nor a number.
fn lacks_number(name: &str, words: &[String]) -> bool
    ensures { result ≡ lacks_number name.now (map string_bytes words.now) }
{
    let mut is_behind = false;
    for word in words {
        if is_text_behind(is_behind, word) {
            return true;
        }
        is_behind = word.as_str() == name;
    }
    false
}

// Whether this word stands behind the option, and is neither an option nor a number.
fn is_text_behind(is_behind: bool, word: &str) -> bool
    ensures { result ≡ (is_behind && is_text word.now) }
{
    is_behind && is_text(word)
}

fn is_text(word: &str) -> bool
    ensures { result ≡ is_text word.now }
{
    !is_option(word) && large_number(word).is_none()
}

// Whether there are so many words, and the first so many are no options.
fn begins_plain(count: usize, words: &[String]) -> bool
    ensures { result ≡ begins_plain count (map string_bytes words.now) }
{
    count <= words.len() && !has_option(&words[..count])
}

fn has_option(words: &[String]) -> bool
    ensures { result ≡ list_any (λ word. is_option (string_bytes word)) words.now }
{
    words.iter().any(|word| is_option(word))
}

fn is_option(word: &str) -> bool
    ensures { result ≡ is_option word.now }
{
    word.as_bytes().starts_with(b"-")
}
