ghost use Rattle.std.specs.Prelude.{◌<◌, IfOk};
ghost use Rattle.tick_kinds.specs.Resolution.{resolved};
ghost use Rattle.searches_explore.specs.Lines.{lines_of};
ghost use Rattle.searches_hunt.specs.Never.{TellsFirst};

use searches_hunt::{InTurn, NoMemory, Plan, Sought, Trials};
use std::thread::{Threads, join};

/// The first run of the plan, from this one on, that has a fault. So many threads, of which this is one, share the runs
/// in pieces of the same length.
#[cycle(sharing)]
pub fn side_by_side<R: Threads>(
    rt: &R,
    sought: Sought,
    plan: Plan,
    from: u32,
    threads: u8,
) -> Result<Option<u32>, NoMemory>
    ensures { IfOk result (TellsFirst (resolved sought.entry.program.now) (lines_of sought.entry.lines.now) plan from) }
{
    if threads < 2 || plan.runs < 2 {
        return InTurn.first_fault(sought, plan, from);
    }
    let others = threads - 1;
    let runs = plan.runs.div_ceil(u32::from(threads));
    let piece = Plan { runs, ..plan };
    let rest = Plan {
        runs: plan.runs - runs,
        ..plan
    };
    let middle = from.saturating_add(runs);
    let earlier = move || -> Result<Option<u32>, NoMemory>
        ensures { IfOk result (TellsFirst (resolved sought.entry.program.now) (lines_of sought.entry.lines.now) piece from) }
    { InTurn.first_fault(sought, piece, from) };
    let later = move || -> Result<Option<u32>, NoMemory>
        ensures { IfOk result (TellsFirst (resolved sought.entry.program.now) (lines_of sought.entry.lines.now) rest middle) }
    { side_by_side(rt, sought, rest, middle, others) };
    let (first, second) = join(rt, earlier, later);
    match first? {
        Some(run) => Ok(Some(run)),
        None => second,
    }
}
