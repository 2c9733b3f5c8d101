//! A line that must never hold, and breaks.
ghost use Rattle.std.specs.Prelude.{◌≡◌, IfOk, option_map};
ghost use Rattle.serde_json.specs.View.{view};
ghost use Rattle.ticklab_json.specs.Steps.{break_data, broken_at, broken_line};

use base::Trap;
use serde_json::{Value, json, put};
use std::alloc::{AllocError, Global};
use tick_play::trap_name;

/// A line that must never hold, where it stands, and what it comes to.
#[derive(Clone, Copy)]
pub struct Breaking<'a> {
    /// After how many steps it breaks.
    pub steps: usize,
    /// Where it stands: the name of the file, or `--never`.
    pub file: &'a str,
    /// Its line there, from 1.
    pub line: usize,
    /// The character of that line that it begins with, from 1.
    pub column: usize,
    pub text: &'a str,
    pub value: Result<u32, Trap>,
}

/// The line as an object, where it breaks after so many steps.
pub fn broken_at(
    alloc: Global,
    steps: usize,
    broken: Option<Breaking<'_>>,
) -> Result<Option<Value>, AllocError>
    ensures { IfOk result (λ found. option_map view found ≡ broken_at steps (option_map broken_line broken.entry)) }
{
    match broken {
        Some(broken) => {
            if broken.steps == steps {
                return Ok(Some(break_value(alloc, broken)?));
            }
            Ok(None)
        }
        None => Ok(None),
    }
}

/// The line as an object.
pub fn break_value(alloc: Global, broken: Breaking<'_>) -> Result<Value, AllocError>
    ensures { IfOk result (λ v. view v ≡ break_data (broken_line broken.entry)) }
{
    let Breaking {
        file,
        line,
        column,
        text,
        ..
    } = broken;
    match broken.value {
        Ok(value) => {
            json!(in alloc; {"column": column, "file": file, "line": line, "text": text, "value": value})
        }
        Err(trap) => {
            let trap = trap_name(trap);
            json!(in alloc; {"column": column, "file": file, "line": line, "text": text, "trap": trap})
        }
    }
}
