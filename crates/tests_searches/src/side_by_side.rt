//! Runs that are tried side by side tell what they tell in turn, whatever the number of threads.

use searches_hunt::{InTurn, Mode, NoMemory, Plan, Sought, Trials};
use searches_parallel::OnProcessors;
use std::alloc::Global;
use std::test::Fail;
use std::thread::Threads;
use tests_shared::{Checked, is_same};
use tick_kinds::Program;

// Process 1 traps if it steps late: if process 0 has made its eleven steps before.
static LATE: &str = "\
processes 2;
var a;
reg written;
begin
  if me { a = get written 0; a = (1 / (a == 0)); }
  else { while (a < 4) { a = (a + 1); } put written 1; }
end
";

// The first run with a fault, of so many runs. Where memory was refused it is asked once more.
fn told<T: Trials>(
    trials: &T,
    alloc: Global,
    program: &Program,
    runs: u32,
) -> Result<Option<u32>, NoMemory> {
    let sought = Sought {
        alloc,
        program,
        lines: &[],
    };
    let plan = Plan {
        seed: 1,
        runs,
        steps: 300,
        mode: Mode::Uniform,
    };
    match trials.first_fault(sought, plan, 0) {
        Err(NoMemory) => trials.first_fault(sought, plan, 0),
        answer => answer,
    }
}

// Of so many runs the same is told by each number of threads.
fn told_by_all<R: AllocGlobal + Threads + Sync>(
    rt: &R,
    program: &Program,
    runs: u32,
    wanted: Option<u32>,
) -> Result<(), Fail> {
    is_same(&told(&InTurn, rt.alloc(), program, runs)?, &wanted)?;
    for jobs in [0, 1, 2, 3, 4, 7] {
        let trials = OnProcessors { rt, jobs };
        is_same(&told(&trials, rt.alloc(), program, runs)?, &wanted)?;
    }
    Ok(())
}

// A fault is told where its run is the last, and none where the runs end before it.
#[test]
fn threads_tell_the_same(rt: HostRuntime) -> Result<(), Fail> {
    let checked = Checked::new(rt.alloc(), LATE)?;
    let program = &checked.program;
    let Some(run) = told(&InTurn, rt.alloc(), program, 20_000)? else {
        return Err("no trap was found")?;
    };
    for (runs, wanted) in [
        (20_000, Some(run)),
        (run, None),
        (run.saturating_add(1), Some(run)),
    ] {
        told_by_all(&rt, program, runs, wanted)?;
    }
    Ok(())
}
