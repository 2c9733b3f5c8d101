//! The value of a property in a state, or the trap that it comes to.
ghost use Rattle.std.specs.Prelude.{◌≡◌, ◌<◌, ◌==◌, if◌then◌else◌, length, map, replicate, slice_set, Ok};
ghost use Rattle.std.specs.List.{range_with_len};
ghost use Rattle.language_properties.specs.Properties.{formula_of};
ghost use Rattle.base.specs.Operators.{truth_value};
ghost use Rattle.language_properties.specs.Values.{answer, of_process, sum_from, truth_of, value, values};
ghost use Rattle.language_properties.specs.prover.Deciding.{decides, decided, left_decides};

use crate::property::{Junction, Property, Quantifier, Question};
use crate::visible::Visible;
use base::{Op, Status, Trap, set_at};

/// How many quantifiers may stand in one another.
const MOST_BOUND: usize = 8;

impl Property {
    /// The value in a state, or why it has none.
    pub fn value<S: Visible>(&self, state: &S) -> Result<u32, Trap>
        ensures { result ≡ value (S.seen state.now) (replicate 8 0) (formula_of self.now) }
    {
        value_in(state, [0; MOST_BOUND], self)
    }
}

// What is asked of a process that there is.
fn answer<S: Visible>(state: &S, asked: Question, process: u8) -> u32
    requires { process < length (S.seen state.now).statuses }
    ensures { result ≡ answer (S.seen state.now) asked process }
{
    match asked {
        Question::Row(row) => state.register(row, process),
        Question::Held => u32::from(state.holds(process)),
        Question::Ended => u32::from(matches!(state.status(process), Status::Ended)),
        Question::Trapped => u32::from(matches!(state.status(process), Status::Trapped(_))),
    }
}

// The same of the process of this number, if there is one.
fn answer_of<S: Visible>(state: &S, asked: Question, process: u32) -> Result<u32, Trap>
    ensures { result ≡ of_process (S.seen state.now) process (Ok (answer (S.seen state.now) asked process)) }
{
    if process < u32::from(state.processes()) {
        Ok(answer(state, asked, process as u8))
    } else {
        Err(Trap::Index)
    }
}

// Whether the first of two processes has the older ticket, if there are both.
fn older_of<S: Visible>(state: &S, first: u32, second: u32) -> Result<u32, Trap>
    ensures { result ≡ of_process (S.seen state.now) first (of_process (S.seen state.now) second (Ok (truth_value ((S.seen state.now).is_older first second)))) }
{
    let n = u32::from(state.processes());
    if first < n && second < n {
        Ok(u32::from(state.is_older(first as u8, second as u8)))
    } else {
        Err(Trap::Index)
    }
}

// Whether the second operand doesn't count.
fn left_decides(by: Junction, left: u32) -> bool
    ensures { result ≡ left_decides by left }
{
    match by {
        Junction::And => left == 0,
        Junction::Or => left != 0,
    }
}

fn truth(value: u32) -> u32
    ensures { truth_of value ≡ Ok result }
{
    u32::from(value != 0)
}

fn negated(value: u32) -> u32
    ensures { result ≡ (if value == 0 then 1 else 0) }
{
    u32::from(value == 0)
}

// What the processes are that quantifiers go through, where the one of this number goes through another.
fn with(bound: [u8; MOST_BOUND], number: usize, process: u8) -> [u8; MOST_BOUND]
    ensures { result ≡ slice_set bound number process }
{
    let mut inner = bound;
    set_at(&mut inner, number, process);
    inner
}

// The value where quantifiers go through these processes.
#[cycle(value)]
fn value_in<S: Visible>(
    state: &S,
    bound: [u8; MOST_BOUND],
    property: &Property,
) -> Result<u32, Trap>
    ensures { result ≡ value (S.seen state.now) bound (formula_of property.now) }
{
    match property {
        Property::Number(number) => Ok(*number),
        Property::Count => Ok(u32::from(state.processes())),
        Property::Bound(number) => Ok(u32::from(bound.get(*number).copied().unwrap_or(0))),
        Property::Of(asked, process) => {
            let process = value_in(state, bound, process)?;
            answer_of(state, *asked, process)
        }
        Property::Older(first, second) => {
            let first = value_in(state, bound, first)?;
            let second = value_in(state, bound, second)?;
            older_of(state, first, second)
        }
        Property::Binary(left, op, right) => {
            let left = value_in(state, bound, left)?;
            let right = value_in(state, bound, right)?;
            op.apply(left, right)
        }
        Property::Joined(left, by, right) => {
            let left = value_in(state, bound, left)?;
            if left_decides(*by, left) {
                return Ok(truth(left));
            }
            Ok(truth(value_in(state, bound, right)?))
        }
        Property::Not(body) => Ok(negated(value_in(state, bound, body)?)),
        Property::Over(Quantifier::Some, number, body) => decide(state, true, bound, *number, body),
        Property::Over(Quantifier::All, number, body) => decide(state, false, bound, *number, body),
        Property::Over(Quantifier::Sum, number, body) => sum_of(state, bound, *number, body),
    }
}

// Whether one value decides: one that isn't 0 that some isn't, one that is 0 that not all are others.
fn decides(wants_some: bool, value: u32) -> bool
    ensures { result ≡ decides wants_some value }
{
    if wants_some { value != 0 } else { value == 0 }
}

// Whether the property isn't 0 for some process, or for all.
#[cycle(value)]
fn decide<S: Visible>(
    state: &S,
    wants_some: bool,
    bound: [u8; MOST_BOUND],
    number: usize,
    body: &Property,
) -> Result<u32, Trap>
    ensures { result ≡ decided wants_some (values (S.seen state.now) bound number (formula_of body.now)) }
{
    for process in 0..state.processes() {
        let value = value_in(state, with(bound, number, process), body)?;
        if decides(wants_some, value) {
            return Ok(u32::from(wants_some));
        }
    }
    Ok(u32::from(!wants_some))
}

// The sum of the values that the property has for each process.
#[cycle(value)]
fn sum_of<S: Visible>(
    state: &S,
    bound: [u8; MOST_BOUND],
    number: usize,
    body: &Property,
) -> Result<u32, Trap>
    ensures { result ≡ sum_from 0 (values (S.seen state.now) bound number (formula_of body.now)) }
{
    let mut total = 0;
    for process in 0..state.processes() {
        let more = value_in(state, with(bound, number, process), body)?;
        total = Op::Add.apply(total, more)?;
    }
    Ok(total)
}
