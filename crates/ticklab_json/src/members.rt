//! Members that may be left out, and lines.
ghost use Rattle.std.specs.Prelude.{◌≡◌, ◌<◌, ◌++◌, ◌∷◌, [], IfOk, OnOk, false, option_map, string_bytes};
ghost use Rattle.base.specs.Lines.{line_end};
ghost use Rattle.serde_json.specs.View.{members_view, view};
ghost use Rattle.serde_json.specs.Written.{compact_text, has_float};
ghost use Rattle.ticklab_json.specs.Members.{answer_members, lines, with_member};
ghost use Rattle.ticklab_json.specs.Steps.{heading};

use serde_json::{Map, Value, put};
use std::alloc::{AllocError, Global};

/// The members of an object.
pub type Members = Map<String, Value>;

/// Puts a member where its key belongs, if there is one.
pub fn put_if(
    members: &mut Members,
    alloc: Global,
    key: &str,
    value: Option<Value>,
) -> Result<(), AllocError>
    ensures { OnOk result (members_view members.new.entries ≡ with_member key.now (option_map view value) (members_view members.old.entries)) }
{
    match value {
        Some(value) => put(members, alloc, key, value),
        None => Ok(()),
    }
}

/// The answer on the file of this name.
pub fn answer_on(alloc: Global, answer: &str, name: &str) -> Result<Members, AllocError>
    ensures { IfOk result (λ members. members_view members.entries ≡ answer_members answer.now name.now) }
{
    let answer = Value::try_from_str(alloc, answer)?;
    let file = Value::try_from_str(alloc, name)?;
    let mut members = Map::new(alloc);
    put(&mut members, alloc, "answer", answer)?;
    put(&mut members, alloc, "file", file)?;
    Ok(members)
}

/// The number of step `number` from 0 as it is told, from 1, and the process that made it.
pub fn heading(alloc: Global, number: usize, process: u8) -> Result<Members, AllocError>
    requires { number < 18446744073709551615 }
    ensures { IfOk result (λ members. members_view members.entries ≡ heading number process) }
{
    let mut members = Map::new(alloc);
    put(&mut members, alloc, "step", Value::from(number + 1))?;
    put(&mut members, alloc, "process", Value::from(process))?;
    Ok(members)
}

/// Adds a value in a line of its own.
pub fn push_line(text: &mut String, alloc: Global, value: &Value) -> Result<(), AllocError>
    requires { has_float (view value.now) ≡ false }
    ensures { OnOk result (string_bytes text.new ≡ string_bytes text.old ++ compact_text (view value.now) ++ line_end) }
{
    let line = value.to_string(alloc)?;
    text.push_str(&line)?;
    text.push_str("\n")
}

/// A value in a line, and nothing else.
pub fn one_line(alloc: Global, value: &Value) -> Result<String, AllocError>
    requires { has_float (view value.now) ≡ false }
    ensures { IfOk result (λ text. string_bytes text ≡ lines (view value.now ∷ [])) }
{
    let mut text = String::new(alloc);
    push_line(&mut text, alloc, value)?;
    Ok(text)
}
