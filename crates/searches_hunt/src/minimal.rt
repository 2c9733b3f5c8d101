ghost use Rattle.std.specs.Prelude.{◌≡◌, ◌<◌, IfOk, true};
ghost use Rattle.std.specs.List.{All};
ghost use Rattle.tick_kinds.specs.Resolution.{resolved};
ghost use Rattle.tick_source.specs.Source.{source};
ghost use Rattle.searches_explore.specs.Lines.{is_fault, lines_of};
ghost use Rattle.searches_explore.specs.Never.{IfBreaks, IfTraps, schedule_of};
ghost use Rattle.searches_hunt.specs.Hunts.{IsPartOf};
ghost use Rattle.searches_hunt.specs.Never.{IsMinimalBroken, IsMinimalTrapped};

use crate::hunting::told;
use crate::shrinking::shrink;
use base::NoMemory;
use language_properties::Property;
use searches_explore::Fault;
use std::alloc::Global;
use tick_kinds::Program;

/// Leaves steps out of a schedule, after which a process has trapped or a line is broken, until it needs each that is
/// left.
pub fn shrink_fault(
    alloc: Global,
    program: &Program,
    lines: &[Property],
    schedule: Vec<u8>,
) -> Result<Fault, NoMemory>
    requires lawful { All (λ p. p < (resolved program.now).processes) schedule.items }
    requires fault { is_fault (lines_of lines.now) (source (resolved program.now) schedule.items) ≡ true }
    ensures trapped { IfOk result (λ f. IfTraps f (IsMinimalTrapped (resolved program.now) (lines_of lines.now))) }
    ensures broken { IfOk result (λ f. IfBreaks f (IsMinimalBroken (resolved program.now) (lines_of lines.now))) }
    ensures part { IfOk result (λ f. IsPartOf (schedule_of f).items schedule.items) }
{
    let kept = shrink(alloc, program, lines, schedule)?;
    let fault = told(alloc, program, lines, kept)?;
    Ok(fault)
}
