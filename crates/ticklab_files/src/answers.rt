//! The texts of a way in that of a file, which may be an answer.
ghost use Rattle.std.specs.Prelude.{◌≡◌, ◌∷◌, IfOk, map, option_map, string_bytes};
ghost use Rattle.serde_json.specs.Read.{read as read_text};
ghost use Rattle.serde_json.specs.View.{view};
ghost use Rattle.ticklab_files.specs.Ways.{answer_behind, answer_in, answer_texts, first_of, held, json_texts, line_behind, lines, object_texts, text_at, texts_in};

use crate::ways::{ScheduleTexts, alone};
use base::NoMemory;
use serde_json::{Category, Value};
use std::alloc::{AllocError, Global};

// What stands before the steps that lead on, and before those that repeat.
const LEAD_IN: &str = "then these steps:";

const CYCLE: &str = "then these again and again";

/// The texts in that of a file.
pub fn texts_in(alloc: Global, text: String) -> Result<ScheduleTexts, NoMemory>
    ensures { IfOk result (λ texts. held texts ≡ texts_in (string_bytes text)) }
{
    if let Some(texts) = json_texts(alloc, &text)? {
        return Ok(texts);
    }
    match lines_texts(alloc, &text)? {
        Some(texts) => Ok(texts),
        None => Ok(alone(alloc, text)),
    }
}

fn lines_texts(alloc: Global, text: &str) -> Result<Option<ScheduleTexts>, AllocError>
    ensures { IfOk result (λ found. option_map held found ≡ answer_in (lines text.now)) }
{
    let lines = lines_of(alloc, text)?;
    answer_in(alloc, lines.as_slice())
}

fn lines_of(alloc: Global, text: &str) -> Result<Vec<&str>, AllocError>
    ensures { IfOk result (λ found. map (λ line. line.now) found.items ≡ lines text.now) }
{
    text.split('\n').collect(alloc)
}

// Those of an answer in these lines.
fn answer_in(alloc: Global, lines: &[&str]) -> Result<Option<ScheduleTexts>, AllocError>
    ensures { IfOk result (λ found. option_map held found ≡ answer_in (map (λ line. line.now) lines.now)) }
{
    match lines {
        [] | [_] => Ok(None),
        [line, schedule, rest @ ..] => answer_behind(alloc, line, schedule, rest),
    }
}

// Those behind a first line, which ends in a colon.
fn answer_behind(
    alloc: Global,
    line: &str,
    schedule: &str,
    lines: &[&str],
) -> Result<Option<ScheduleTexts>, AllocError>
    ensures { IfOk result (λ found. option_map held found ≡ answer_behind line.now schedule.now (map (λ line. line.now) lines.now)) }
{
    if line.as_bytes().ends_with(b":") {
        let texts = answer_texts(alloc, schedule, lines)?;
        return Ok(Some(texts));
    }
    Ok(None)
}

fn answer_texts(alloc: Global, schedule: &str, lines: &[&str]) -> Result<ScheduleTexts, AllocError>
    ensures { IfOk result (λ texts. held texts ≡ answer_texts schedule.now (map (λ line. line.now) lines.now)) }
{
    let mut first = String::from_str(alloc, "\n")?;
    first.push_str(schedule)?;
    Ok(ScheduleTexts {
        schedule: first,
        lead_in: line_behind(alloc, LEAD_IN, lines)?,
        cycle: line_behind(alloc, CYCLE, lines)?,
    })
}

// The line behind the first that begins so, where it stands in the text: two lines come before these.
fn line_behind(alloc: Global, start: &str, lines: &[&str]) -> Result<String, AllocError>
    ensures { IfOk result (λ text. string_bytes text ≡ 10 ∷ 10 ∷ line_behind start.now (map (λ line. line.now) lines.now)) }
{
    let mut text = String::from_str(alloc, "\n\n")?;
    for (at, line) in lines.iter().enumerate() {
        text.push_str("\n")?;
        if line.as_bytes().starts_with(start.as_bytes()) {
            text.push_str(first_of(&lines[at + 1..]))?;
            return Ok(text);
        }
    }
    Ok(text)
}

fn first_of<'a>(lines: &[&'a str]) -> &'a str
    ensures { result.now ≡ first_of (map (λ line. line.now) lines.now) }
{
    match lines {
        [] => "",
        [line, ..] => line,
    }
}

// Those of an answer in JSON, if the text is one that has a schedule.
fn json_texts(alloc: Global, text: &str) -> Result<Option<ScheduleTexts>, NoMemory>
    ensures { IfOk result (λ found. option_map held found ≡ json_texts text.now) }
{
    if !text.as_bytes().starts_with(b"{") {
        return Ok(None);
    }
    match value_of(alloc, text)? {
        Some(answer) => Ok(object_texts(alloc, &answer)?),
        None => Ok(None),
    }
}

// What the text is, if it is JSON.
fn value_of(alloc: Global, text: &str) -> Result<Option<Value>, NoMemory>
    ensures { IfOk result (λ found. option_map view found ≡ read_text text.now) }
{
    match Value::from_str(alloc, text) {
        Ok(answer) => Ok(Some(answer)),
        Err(error) => match error.classify() {
            Category::Memory => Err(NoMemory),
            Category::Io | Category::Syntax | Category::Data | Category::Eof => Ok(None),
        },
    }
}

fn object_texts(alloc: Global, answer: &Value) -> Result<Option<ScheduleTexts>, AllocError>
    ensures { IfOk result (λ found. option_map held found ≡ object_texts (view answer.now)) }
{
    let Some(schedule) = text_at(answer, "schedule") else {
        return Ok(None);
    };
    let lead_in = text_at(answer, "lead_in").unwrap_or("");
    let cycle = text_at(answer, "cycle").unwrap_or("");
    Ok(Some(ScheduleTexts {
        schedule: String::from_str(alloc, schedule)?,
        lead_in: String::from_str(alloc, lead_in)?,
        cycle: String::from_str(alloc, cycle)?,
    }))
}

fn text_at<'v>(answer: &'v Value, key: &'static str) -> Option<&'v str>
    ensures { option_map (λ text. text.now) result ≡ text_at key.now (view answer.now) }
{
    answer.get(key)?.as_str()
}
