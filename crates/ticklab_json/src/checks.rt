//! What files come to, as an object.
ghost use Rattle.std.specs.Prelude.{◌≡◌, ◌∷◌, [], IfOk, OnOk, length, map, string_bytes};
ghost use Rattle.serde_json.specs.Data.{object};
ghost use Rattle.serde_json.specs.View.{members_view, view};
ghost use Rattle.ticklab_json.specs.Checks.{checked_word, file_data, file_list, file_members, findings_data, findings_members, verdict_word, with_checked, with_states};
ghost use Rattle.ticklab_json.specs.Members.{lines};

use crate::members::{Members, answer_on, one_line};
use base::NoMemory;
use serde_json::{Value, json, put};
use std::alloc::{AllocError, Global};
use ticklab_check::{
    Checked, Comparison, Findings, Source, Timed, comparison_of, expected_text, found_word,
    states_of,
};

/// What these files come to, as an object in a line.
pub fn findings_object(
    alloc: Global,
    sources: &[Source],
    findings: &Findings,
) -> Result<String, NoMemory>
    requires { length sources.now ≡ length findings.now.files.items }
    ensures { IfOk result (λ text. string_bytes text ≡ lines (findings_data sources.now findings.now ∷ [])) }
{
    let files = file_values(alloc, sources, &findings.files)?;
    let value = with_tally(alloc, findings, files)?;
    Ok(one_line(alloc, &value)?)
}

fn with_tally(alloc: Global, findings: &Findings, files: Vec<Value>) -> Result<Value, AllocError>
    ensures { IfOk result (λ v. view v ≡ object (findings_members (map view files.items) findings.now)) }
{
    let tally = findings.tally;
    json!(in alloc; {"as_expected": tally.as_expected, "files": files, "limit": tally.limit, "otherwise": tally.otherwise})
}

fn file_values(alloc: Global, sources: &[Source], files: &[Timed]) -> Result<Vec<Value>, AllocError>
    requires { length sources.now ≡ length files.now }
    ensures { IfOk result (λ values. map view values.items ≡ file_list sources.now files.now) }
{
    let mut values = Vec::with_capacity(alloc, files.len())?;
    for (place, timed) in files.iter().enumerate() {
        let value = file_value(alloc, &sources[place], timed)?;
        values.push(value)?;
    }
    Ok(values)
}

fn file_value(alloc: Global, source: &Source, timed: &Timed) -> Result<Value, AllocError>
    ensures { IfOk result (λ v. view v ≡ file_data source.now timed.now) }
{
    let mut members = file_members(alloc, source, timed)?;
    put_checked(&mut members, alloc, &timed.checked)?;
    Ok(Value::Object(members))
}

// What every file has.
fn file_members(alloc: Global, source: &Source, timed: &Timed) -> Result<Members, AllocError>
    ensures { IfOk result (λ members. members_view members.entries ≡ file_members source.now timed.now) }
{
    let verdict = Value::try_from_str(alloc, verdict_word(comparison_of(&timed.checked)))?;
    let hundredths = Value::from(timed.hundredths);
    let mut members = answer_on(alloc, checked_word(&timed.checked), source.name.as_str())?;
    put(&mut members, alloc, "hundredths", hundredths)?;
    put(&mut members, alloc, "verdict", verdict)?;
    Ok(members)
}

// The report of a refused file; of any other what was expected, its states, and how many of its lines ask something.
fn put_checked(members: &mut Members, alloc: Global, checked: &Checked) -> Result<(), AllocError>
    ensures { OnOk result (members_view members.new.entries ≡ with_checked checked.now (members_view members.old.entries)) }
{
    match checked {
        Checked::Refused(report) => {
            let report = String::from_utf8_lossy(alloc, report.as_slice())?;
            put(members, alloc, "report", Value::String(report))
        }
        Checked::Searched {
            found,
            expected,
            lines,
        } => {
            let expected = Value::try_from_str(alloc, expected_text(*expected))?;
            put(members, alloc, "expected", expected)?;
            put_states(members, alloc, states_of(*found))?;
            put(members, alloc, "lines", Value::from(*lines))
        }
    }
}

// How many merged states there are, where that is known.
fn put_states(members: &mut Members, alloc: Global, states: Option<u32>) -> Result<(), AllocError>
    ensures { OnOk result (members_view members.new.entries ≡ with_states states (members_view members.old.entries)) }
{
    let Some(states) = states else {
        return Ok(());
    };
    put(members, alloc, "merged", Value::from(true))?;
    put(members, alloc, "states", Value::from(states))
}

fn checked_word(checked: &Checked) -> &'static str
    ensures { result.now ≡ checked_word checked.now }
{
    match checked {
        Checked::Refused(_) => "refused",
        Checked::Searched { found, .. } => found_word(*found),
    }
}

fn verdict_word(verdict: Comparison) -> &'static str
    ensures { result.now ≡ verdict_word verdict }
{
    match verdict {
        Comparison::AsExpected => "as-expected",
        Comparison::Otherwise => "otherwise",
        Comparison::Limit => "limit",
    }
}
