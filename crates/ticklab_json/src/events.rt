//! What others see of a step, as an object.
ghost use Rattle.std.specs.Prelude.{◌≡◌, IfOk, map, option_map, take};
ghost use Rattle.base.specs.View.{name_of};
ghost use Rattle.serde_json.specs.View.{view};
ghost use Rattle.ticklab_json.specs.Events.{event_data};
ghost use Rattle.ticklab_json.specs.Members.{count};
ghost use Rattle.ticklab_trace.specs.TraceText.{name_at};

use base::Act;
use base::tree::Named;
use serde_json::{Value, json};
use std::alloc::{AllocError, Global};
use tick_kinds::Program;
use tick_play::trap_name;

/// What others see of a step, where they see something.
pub fn event_in(
    alloc: Global,
    program: &Program,
    act: Option<Act>,
) -> Result<Option<Value>, AllocError>
    ensures { IfOk result (λ found. option_map view found ≡ option_map (event_data program.now) act) }
{
    match act {
        Some(act) => Ok(Some(event(alloc, program, act)?)),
        None => Ok(None),
    }
}

fn event(alloc: Global, program: &Program, act: Act) -> Result<Value, AllocError>
    ensures { IfOk result (λ v. view v ≡ event_data program.now act) }
{
    match act {
        Act::Put(row, value) => {
            json!(in alloc; {"kind": "put", "register": register(program, row), "value": value})
        }
        Act::Get(row, owner, value) => {
            let register = register(program, row);
            json!(in alloc; {"kind": "get", "process": owner, "register": register, "value": value})
        }
        Act::Stamp => json!(in alloc; {"kind": "stamp"}),
        Act::Clear => json!(in alloc; {"kind": "clear"}),
        Act::Scan(ranks) => {
            let ranks = counts(alloc, &ranks, usize::from(program.processes()))?;
            json!(in alloc; {"kind": "scan", "ranks": ranks})
        }
        Act::Older(first, second, answer) => {
            json!(in alloc; {"answer": answer, "first": first, "kind": "older", "second": second})
        }
        Act::Held(process, answer) => {
            json!(in alloc; {"answer": answer, "kind": "held", "process": process})
        }
        Act::Out(value) => json!(in alloc; {"kind": "out", "value": value}),
        Act::Trap(trap) => json!(in alloc; {"kind": "trap", "trap": trap_name(trap)}),
        Act::End => json!(in alloc; {"kind": "end"}),
    }
}

fn register(program: &Program, row: u8) -> &str
    ensures { result.now ≡ name_at program.now.registers row }
{
    name_in(&program.tree().registers, row)
}

/// The name of this number in a section, and no letters where there is none.
pub fn name_in(section: &[Named], number: u8) -> &str
    ensures { result.now ≡ name_at (map name_of section.now) number }
{
    match section.get(usize::from(number)) {
        Some(named) => named.name.as_str(),
        None => "",
    }
}

// The first so many numbers.
fn counts(alloc: Global, numbers: &[u8], most: usize) -> Result<Vec<Value>, AllocError>
    ensures { IfOk result (λ values. map view values.items ≡ map count (take most numbers.now)) }
{
    let told = &numbers[..most.min(numbers.len())];
    let mut values = Vec::new(alloc);
    for &number in told {
        values.push(Value::from(number))?;
    }
    Ok(values)
}
