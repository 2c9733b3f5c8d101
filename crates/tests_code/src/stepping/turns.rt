//! Runs of a machine in rows.
ghost use Rattle.std.specs.Prelude.{◌≡◌, ◌<◌, length};

use crate::codes::{Numbers, code_of};
use crate::stepping::answers::{machine_of, step_often};
use code_machine::{CodeMachine, Event, Instr, Status};
use std::alloc::Global;
use std::test::Fail;
use tests_shared::is_same;

/// How many events there are, at which place a process is, and its status.
pub type Seen = (usize, u16, Status);

/// Turns of processes, each with how many steps it has and what is seen of the process then; and at the end the events
/// and the word.
#[derive(Drop)]
pub struct Run<'a> {
    pub numbers: Numbers,
    pub turns: &'a [(u8, u32, Seen)],
    pub events: &'a [Event],
    pub word: u64,
}

fn goes(machine: &mut CodeMachine<'_>, run: &Run<'_>) -> Result<(), Fail>
    requires { length machine.old.state.processes ≡ run.now.numbers.0 }
{
    for &(p, steps, seen) in run.turns {
        if p >= run.numbers.0 {
            return Err(Fail::new("no process"));
        }
        step_often(machine, p, steps)?;
        let found = (machine.events().len(), machine.place(p), machine.status(p));
        is_same(&found, &seen)?;
    }
    let is_so = machine.events() == run.events;
    is_same(&(is_so, machine.word().bits()), &(true, run.word))
}

/// The machine of a code of these instructions goes as the rows say.
pub fn comes_along(alloc: Global, instructions: &[Instr], run: &Run<'_>) -> Result<(), Fail> {
    let code = code_of(alloc, run.numbers, instructions)?;
    goes(&mut machine_of(alloc, &code)?, run)
}
