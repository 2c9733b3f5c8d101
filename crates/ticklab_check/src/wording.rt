// Adds what is told of files to a text.
ghost use Rattle.std.specs.Prelude.{◌≡◌, ◌++◌, ◌==◌, IfOk, OnOk};
ghost use Rattle.std.specs.Fmt.{decimal};
ghost use Rattle.ticklab_check.specs.Wording.{behind_text, checked_text, expected_text, file_text, found_text, lines_text, merged_text, more_text, searched_line, seconds_text, states_text, tally_text, verdict_text};

use crate::checked::{Checked, Comparison, Timed};
use crate::comparing::compared;
use crate::found::{Found, found_word, states_of};
use crate::source::Source;
use crate::tally::Tally;
use itoa::Buffer;
use language_questions::Expected;
use std::alloc::{AllocError, Global};

type Added = Result<(), AllocError>;

/// The lines that are told of a file: one, and below it the report of a file that is refused.
pub fn file_lines(alloc: Global, source: &Source, timed: &Timed) -> Result<Vec<u8>, AllocError>
    ensures { IfOk result (λ text. text.items ≡ file_text source.now timed.now) }
{
    let mut text = Vec::new(alloc);
    push_file(&mut text, source, timed)?;
    Ok(text)
}

fn push_file(text: &mut Vec<u8>, source: &Source, timed: &Timed) -> Added
    ensures { OnOk result (text.new.items ≡ text.old.items ++ file_text source.now timed.now) }
{
    push(text, source.name.as_str())?;
    push_checked(text, &timed.checked, timed.hundredths)
}

fn push_checked(text: &mut Vec<u8>, checked: &Checked, hundredths: u64) -> Added
    ensures { OnOk result (text.new.items ≡ text.old.items ++ checked_text checked.now hundredths) }
{
    match checked {
        Checked::Refused(report) => {
            push(text, ": refused\n")?;
            text.extend_from_slice(report.as_slice())
        }
        Checked::Searched {
            found,
            expected,
            lines,
        } => {
            push(text, ": ")?;
            push_searched(text, *found, *expected, *lines, hundredths)
        }
    }
}

fn push_searched(
    text: &mut Vec<u8>,
    found: Found,
    expected: Expected,
    lines: usize,
    hundredths: u64,
) -> Added
    ensures { OnOk result (text.new.items ≡ text.old.items ++ searched_line found expected lines hundredths) }
{
    push(text, found_text(found))?;
    push_verdict(text, compared(found, expected), expected)?;
    push_states(text, found)?;
    push_lines(text, lines)?;
    push(text, ", ")?;
    push_seconds(text, hundredths)
}

fn found_text(found: Found) -> &'static str
    ensures { result.now ≡ found_text found }
{
    match found {
        Found::Never => "broken #! never line",
        Found::NotWaitFree { .. } => "not wait-free",
        Found::NotAlone { .. } => "not alone",
        Found::Safe { .. }
        | Found::Ends { .. }
        | Found::Trap
        | Found::Stuck { .. }
        | Found::Endless { .. }
        | Found::Limit { .. } => found_word(found),
    }
}

fn push_verdict(text: &mut Vec<u8>, verdict: Comparison, expected: Expected) -> Added
    ensures { OnOk result (text.new.items ≡ text.old.items ++ verdict_text verdict expected) }
{
    match (verdict, expected) {
        (Comparison::AsExpected, Expected::Safe) | (Comparison::Limit, _) => Ok(()),
        (Comparison::AsExpected, _) => push(text, ", as expected"),
        (Comparison::Otherwise, _) => {
            push(text, ", but ")?;
            push(text, expected_text(expected))?;
            push(text, " was expected")
        }
    }
}

/// The word behind `#! expect` that says this.
pub fn expected_text(expected: Expected) -> &'static str
    ensures { result.now ≡ expected_text expected }
{
    match expected {
        Expected::Safe => "safe",
        Expected::Trap => "trap",
        Expected::Never => "never",
        Expected::Stuck => "stuck",
        Expected::NotWaitFree => "not_wait_free",
        Expected::NotAlone => "not_alone",
    }
}

fn push_states(text: &mut Vec<u8>, found: Found) -> Added
    ensures { OnOk result (text.new.items ≡ text.old.items ++ states_text found) }
{
    match found {
        Found::Limit { states } => push_more(text, states),
        _ => push_behind(text, states_of(found)),
    }
}

// That there are more than so many, behind a comma.
fn push_more(text: &mut Vec<u8>, states: u32) -> Added
    ensures { OnOk result (text.new.items ≡ text.old.items ++ more_text states) }
{
    push(text, ", more than ")?;
    push_merged(text, states)
}

// How many there are, behind a comma.
fn push_behind(text: &mut Vec<u8>, states: Option<u32>) -> Added
    ensures { OnOk result (text.new.items ≡ text.old.items ++ behind_text states) }
{
    let Some(states) = states else {
        return Ok(());
    };
    push(text, ", ")?;
    push_merged(text, states)
}

fn push_merged(text: &mut Vec<u8>, states: u32) -> Added
    ensures { OnOk result (text.new.items ≡ text.old.items ++ merged_text states) }
{
    push_decimal(text, u64::from(states))?;
    push(
        text,
        if states == 1 {
            " merged state"
        } else {
            " merged states"
        },
    )
}

// How many lines ask something, behind a comma.
fn push_lines(text: &mut Vec<u8>, lines: usize) -> Added
    ensures { OnOk result (text.new.items ≡ text.old.items ++ lines_text lines) }
{
    if lines == 0 {
        return push(text, ", no line asked");
    }
    push(text, ", ")?;
    push_decimal(text, lines as u64)?;
    push(text, if lines == 1 { " line" } else { " lines" })
}

fn push_seconds(text: &mut Vec<u8>, hundredths: u64) -> Added
    ensures { OnOk result (text.new.items ≡ text.old.items ++ seconds_text hundredths) }
{
    push_decimal(text, hundredths / 100)?;
    push(text, ".")?;
    push_decimal(text, hundredths / 10 % 10)?;
    push_decimal(text, hundredths % 10)?;
    push(text, " s\n")
}

/// Adds the last line.
pub fn push_tally(text: &mut Vec<u8>, tally: Tally) -> Added
    ensures { OnOk result (text.new.items ≡ text.old.items ++ tally_text tally) }
{
    push_decimal(text, tally.as_expected)?;
    push(text, " as expected, ")?;
    push_decimal(text, tally.otherwise)?;
    push(text, " not, ")?;
    push_decimal(text, tally.limit)?;
    push(text, " at the limit\n")
}

fn push(text: &mut Vec<u8>, more: &str) -> Added
    ensures { OnOk result (text.new.items ≡ text.old.items ++ more.now) }
{
    text.extend_from_slice(more.as_bytes())
}

fn push_decimal(text: &mut Vec<u8>, number: u64) -> Added
    ensures { OnOk result (text.new.items ≡ text.old.items ++ decimal number) }
{
    push(text, Buffer::new().format(number))
}
