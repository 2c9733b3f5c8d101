ghost use Rattle.std.specs.Prelude.{◌≡◌, ◌<◌, length};

use crate::machine::answers::{machine_of, outcome_of, step_often};
use std::alloc::Global;
use std::test::Fail;
use tests_shared::{Checked, is_same};
use tick_kinds::Program;
use tick_play::read_schedule;
use tick_source::{Outcome, SourceMachine, Status};

const EACH_STATEMENT: &str = "
processes 2; var x, y; scan s, t; reg r;
begin
  stamp;
  s = scan;
  t = copy s;
  x = older t 0 1;
  y = held t 1;
  put r (x + 5);
  y = get r me;
  out y;
  if y { out 1; } else { out 2; }
  while (x < 2) { x = (x + 1); }
  out x;
  clear;
end";

// Each process makes twenty steps, one process after the other.
fn comes_to(machine: &mut SourceMachine<'_>, outcome: &Outcome) -> Result<(), Fail>
    requires two { 1 < length machine.old.processes }
{
    step_often(machine, 0, 20)?;
    step_often(machine, 1, 20)?;
    let is_so = machine.events() == outcome.events.as_slice();
    let statuses = [machine.status(0), machine.status(1)];
    is_same(
        &(is_so, outcome.events.len(), statuses),
        &(true, 22, [Status::Ended, Status::Ended]),
    )
}

fn is_run(alloc: Global, program: &Program) -> Result<(), Fail> {
    is_same(&program.processes(), &2)?;
    let steps = read_schedule(alloc, "0*20 1*20", program.processes())?;
    let outcome = outcome_of(alloc, program, &steps)?;
    let mut machine = machine_of(alloc, program)?;
    comes_to(&mut machine, &outcome)
}

// The events and the open blocks grow under the steps, and a step that was refused changes nothing.
#[test]
fn steps_each_statement(rt: HostRuntime) -> Result<(), Fail> {
    is_run(
        rt.alloc(),
        &Checked::new(rt.alloc(), EACH_STATEMENT)?.program,
    )
}
