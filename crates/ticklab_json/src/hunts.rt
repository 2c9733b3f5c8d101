//! The runs that a hunt tries, as members of an object.
ghost use Rattle.std.specs.Prelude.{◌≡◌, ◌∷◌, [], IfOk, string_bytes};
ghost use Rattle.serde_json.specs.View.{members_view};
ghost use Rattle.ticklab_json.specs.Hunts.{empty_hunt_data, plan_members};
ghost use Rattle.ticklab_json.specs.Members.{lines};

use crate::members::{Members, one_line};
use base::push_number;
use searches_hunt::Plan;
use serde_json::{Map, Value, put};
use std::alloc::{AllocError, Global};

/// That no run of the plan from this one on has a fault, where so many lines must never hold, and whether a line `#! ends`
/// of the file isn't asked; as an object in a line.
pub fn empty_hunt(
    alloc: Global,
    plan: Plan,
    from: u32,
    never_lines: usize,
    ends_unasked: bool,
) -> Result<String, AllocError>
    ensures { IfOk result (λ text. string_bytes text ≡ lines (empty_hunt_data plan from never_lines ends_unasked ∷ [])) }
{
    let mut members = plan_members(alloc, plan, from)?;
    let answer = Value::try_from_str(alloc, "none")?;
    put(&mut members, alloc, "answer", answer)?;
    put(&mut members, alloc, "never_lines", Value::from(never_lines))?;
    let unasked = Value::from(ends_unasked);
    put(&mut members, alloc, "ends_unasked", unasked)?;
    one_line(alloc, &Value::Object(members))
}

/// Which random schedules are tried.
pub fn plan_members(alloc: Global, plan: Plan, from: u32) -> Result<Members, AllocError>
    ensures { IfOk result (λ members. members_view members.entries ≡ plan_members plan from) }
{
    let mut seed = String::new(alloc);
    push_number(&mut seed, plan.seed)?;
    let mut members = Map::new(alloc);
    put(&mut members, alloc, "from", Value::from(from))?;
    put(&mut members, alloc, "runs", Value::from(plan.runs))?;
    put(&mut members, alloc, "seed", Value::String(seed))?;
    put(&mut members, alloc, "steps", Value::from(plan.steps))?;
    Ok(members)
}
