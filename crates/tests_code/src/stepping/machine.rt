use crate::codes::code_of;
use crate::stepping::answers::outcome_of;
use crate::stepping::turns::{Run, comes_along};
use code_machine::{Act, Event, Instr, Outcome, Status};
use std::test::Fail;
use tests_shared::holds;

const STAMPS_AND_COMPARES: [Instr; 10] = [
    Instr::LoadWord,
    Instr::Next,
    Instr::Exchange(0),
    Instr::Scan(0),
    Instr::Push(0),
    Instr::Push(1),
    Instr::Older(0, 0),
    Instr::Load(0),
    Instr::Out,
    Instr::Halt,
];

const ONE_AFTER_THE_OTHER: [Event; 10] = [
    Event {
        process: 0,
        act: Act::Stamp,
    },
    Event {
        process: 0,
        act: Act::Scan([1, 0, 0, 0, 0, 0]),
    },
    Event {
        process: 0,
        act: Act::Older(0, 1, 0),
    },
    Event {
        process: 0,
        act: Act::Out(0),
    },
    Event {
        process: 0,
        act: Act::End,
    },
    Event {
        process: 1,
        act: Act::Stamp,
    },
    Event {
        process: 1,
        act: Act::Scan([0, 1, 0, 0, 0, 0]),
    },
    Event {
        process: 1,
        act: Act::Older(0, 1, 1),
    },
    Event {
        process: 1,
        act: Act::Out(1),
    },
    Event {
        process: 1,
        act: Act::End,
    },
];

static BOTH: Run<'static> = Run {
    numbers: (2, 1, 1, 0),
    turns: &[
        (0, 10, (5, 9, Status::Ended)),
        (1, 10, (10, 9, Status::Ended)),
    ],
    events: &ONE_AFTER_THE_OTHER,
    word: 844_424_930_132_224,
};

fn is_one_after_the_other(outcome: &Outcome) -> bool {
    outcome.events.as_slice() == ONE_AFTER_THE_OTHER.as_slice()
        && outcome.statuses.as_slice() == [Status::Ended, Status::Ended].as_slice()
        && outcome.registers.len() == 0
}

// A run that was refused is asked once more, and is the same.
#[test]
fn runs_one_after_the_other(rt: HostRuntime) -> Result<(), Fail> {
    let code = code_of(rt.alloc(), (2, 1, 1, 0), &STAMPS_AND_COMPARES)?;
    let outcome = outcome_of(
        rt.alloc(),
        &code,
        &[0, 0, 0, 0, 0, 0, 0, 0, 0, 0, 1, 1, 1, 1, 1, 1, 1, 1, 1, 1],
    )?;
    holds(is_one_after_the_other(&outcome), "the outcome")
}

// The list of events grows under the steps, and a step that was refused changes nothing.
#[test]
fn steps_one_after_the_other(rt: HostRuntime) -> Result<(), Fail> {
    comes_along(rt.alloc(), &STAMPS_AND_COMPARES, &BOTH)
}
