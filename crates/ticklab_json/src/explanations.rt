//! What is wrong with a file, as an object.
ghost use Rattle.std.specs.Prelude.{◌≡◌, ◌∷◌, [], IfOk, OnOk, option_map, string_bytes};
ghost use Rattle.serde_json.specs.View.{members_view, view};
ghost use Rattle.ticklab_json.specs.Explanations.{explanation_data, fine_data, text_data, with_line};
ghost use Rattle.ticklab_json.specs.Members.{lines};

use crate::members::{Members, answer_on, one_line, put_if};
use base::NoMemory;
use serde_json::{Value, put};
use std::alloc::{AllocError, Global};
use ticklab_explain::Explanation;
use ticklab_explain::place::Place;

/// That nothing is wrong with the file of this name, as an object in a line.
pub fn fine_object(alloc: Global, name: &str) -> Result<String, NoMemory>
    ensures { IfOk result (λ text. string_bytes text ≡ lines (fine_data name.now ∷ [])) }
{
    let value = fine_value(alloc, name)?;
    Ok(one_line(alloc, &value)?)
}

fn fine_value(alloc: Global, name: &str) -> Result<Value, AllocError>
    ensures { IfOk result (λ v. view v ≡ fine_data name.now) }
{
    Ok(Value::Object(answer_on(alloc, "fine", name)?))
}

/// What is wrong with the file of this name, as an object in a line.
pub fn explanation_object(
    alloc: Global,
    name: &str,
    explanation: Explanation,
) -> Result<String, NoMemory>
    ensures { IfOk result (λ text. string_bytes text ≡ lines (explanation_data name.now explanation ∷ [])) }
{
    let value = explanation_value(alloc, name, explanation)?;
    Ok(one_line(alloc, &value)?)
}

fn explanation_value(
    alloc: Global,
    name: &str,
    explanation: Explanation,
) -> Result<Value, AllocError>
    ensures { IfOk result (λ v. view v ≡ explanation_data name.now explanation) }
{
    let message = Value::String(explanation.message);
    let mut members = answer_on(alloc, "refused", name)?;
    put(&mut members, alloc, "message", message)?;
    put_line(&mut members, alloc, explanation.place)?;
    put_if(&mut members, alloc, "hint", text_in(explanation.hint))?;
    put_if(&mut members, alloc, "ticketc", text_in(explanation.ticketc))?;
    Ok(Value::Object(members))
}

fn put_line(members: &mut Members, alloc: Global, place: Option<Place>) -> Result<(), AllocError>
    ensures { OnOk result (members_view members.new.entries ≡ with_line place (members_view members.old.entries)) }
{
    let Some(place) = place else {
        return Ok(());
    };
    put(members, alloc, "column", Value::from(place.column))?;
    put(members, alloc, "line", Value::from(place.line))
}

fn text_in(text: Option<String>) -> Option<Value>
    ensures { option_map view result ≡ option_map text_data text }
{
    match text {
        Some(text) => Some(Value::String(text)),
        None => None,
    }
}
