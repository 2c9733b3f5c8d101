// The names that a program declares.
ghost use Rattle.std.specs.Prelude.{◌≡◌, ◌++◌, OnOk, codes, false, if◌then◌else◌, string_bytes, true};
ghost use Rattle.ticklab_explain.specs.Hints.{declared_in, is_section, no_names, section_name};

use crate::scene::{is_name, text_at};
use crate::words::beside;
use crate::writing::Added;
use tick_syntax::token::Token;

// What is told where no names are declared, and of each section.
const NO_NAMES: &str = " no names: `var x;` after the number of processes declares one";

const SECTIONS: &[(&str, &str)] = &[
    ("var", "variables"),
    ("scan", "scans"),
    ("reg", "registers"),
];

// Whether a word begins a section.
#[tactic(auto, unfolding(crate::specs::Hints::is_section))]
fn is_section(word: &str) -> bool
    ensures { result ≡ is_section word.now }
{
    (word == "var") | (word == "scan") | (word == "reg")
}

/// Adds the names that are declared, by sections.
pub fn push_declared(text: &mut String, bytes: &[u8], tokens: &[Token]) -> Added
    ensures { OnOk result (string_bytes text.new ≡ string_bytes text.old ++ declared_in bytes.now true false tokens.now) }
{
    let mut is_first = true;
    let mut is_next = false;
    for token in tokens {
        let word = text_at(bytes, token.span);
        if word == "begin" {
            return push_no_names(text, is_first);
        }
        if is_section(word) {
            push_section(text, is_first, word)?;
            is_first = false;
            is_next = false;
        } else if is_name(token.sort) {
            push_name(text, is_next, word)?;
            is_next = true;
        }
    }
    push_no_names(text, is_first)
}

fn push_no_names(text: &mut String, is_first: bool) -> Added
    ensures { OnOk result (string_bytes text.new ≡ string_bytes text.old ++ no_names is_first) }
{
    if is_first {
        text.push_str(NO_NAMES)
    } else {
        Ok(())
    }
}

fn push_section(text: &mut String, is_first: bool, keyword: &str) -> Added
    ensures { OnOk result (string_bytes text.new ≡ string_bytes text.old ++ ((if is_first then codes " " else codes "; ") ++ section_name keyword.now)) }
{
    text.push_str(if is_first { " " } else { "; " })?;
    text.push_str(section_name(keyword))
}

fn push_name(text: &mut String, is_next: bool, name: &str) -> Added
    ensures { OnOk result (string_bytes text.new ≡ string_bytes text.old ++ ((if is_next then codes ", " else codes " ") ++ name.now)) }
{
    text.push_str(if is_next { ", " } else { " " })?;
    text.push_str(name)
}

#[tactic(auto, unfolding(crate::specs::Hints::section_name))]
fn section_name(keyword: &str) -> &'static str
    ensures { result.now ≡ section_name keyword.now }
{
    beside(SECTIONS, keyword, "")
}
