ghost use Rattle.std.specs.Prelude.{◌≡◌, ◌<◌, All, IfOk, string_bytes};
ghost use Rattle.tick_kinds.specs.Resolution.{resolved};
ghost use Rattle.tick_play.specs.Report.{code_report, source_report};

use crate::report::report_of;
use base::NoMemory;
use code_machine::Code;
use std::alloc::Global;
use tick_kinds::Program;

/// The report of the program's run under a schedule, each number of which is below the number of
/// processes.
pub fn play_source(alloc: Global, program: &Program, schedule: &[u8]) -> Result<String, NoMemory>
    requires { All (λ p. p < (resolved program.now).processes) schedule.now }
    ensures { IfOk result (λ text. string_bytes text ≡ source_report (resolved program.now) schedule.now) }
{
    let outcome = tick_source::run(alloc, program, schedule)?;
    report_of(alloc, &outcome)
}

/// The report of the code's run on bounded labels under a schedule, each number of which is below
/// the number of processes.
pub fn play_code(alloc: Global, code: &Code, schedule: &[u8]) -> Result<String, NoMemory>
    requires { All (λ p. p < code.now.sizes.processes) schedule.now }
    ensures { IfOk result (λ text. string_bytes text ≡ code_report code.now schedule.now) }
{
    let outcome = code_machine::run(alloc, code, schedule)?;
    report_of(alloc, &outcome)
}
