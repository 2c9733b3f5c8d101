// The public calls.
ghost use Rattle.std.specs.Prelude.{◌≡◌, ◌<◌, ℕ, List, IfOk, MatchOption, None, Some};
ghost use Rattle.language_schedules.specs.Schedule.{schedule_of};
ghost use Rattle.ticketc_refusals.specs.Refusals.{IsCode, IsCodeRefused, IsInputRefused, IsProgram, IsProgramRefused, IsScheduleRefused, IsTakenInput};
ghost use Rattle.ticklab_explain.specs.Reports.{IsReport, Tells, TellsFor};
ghost use Rattle.ticklab_explain.specs.Settings.{move_items};
ghost use Rattle.ticketc_refusals.specs.declared.refusal.Refusal.TheVariants.{Schedule};

use crate::report::{moves_report, report};
use base::NoMemory;
use language_schedules::ScheduleFault;
use std::alloc::Global;
use ticketc_refusals::{Refusal, begins_code, code_refusal, program_refusal, schedule_refusal};

/// What is wrong with an input, as a report for people; `name` is that of its file. What begins with
/// the nine bytes `tickcode ` is taken for a code, and all else for a program. What is accepted has no
/// report, and all else has one.
pub fn explain(alloc: Global, name: &str, input: &[u8]) -> Result<Option<Vec<u8>>, NoMemory>
    ensures { IfOk result (λ told. MatchOption told (IsTakenInput input.now) (λ text. Tells (IsInputRefused input.now) name.now input.now text.items)) }
{
    if begins_code(input) {
        explain_code(alloc, name, input)
    } else {
        explain_program(alloc, name, input)
    }
}

/// The same of an input that has to be a program.
pub fn explain_program(alloc: Global, name: &str, input: &[u8]) -> Result<Option<Vec<u8>>, NoMemory>
    ensures { IfOk result (λ told. MatchOption told (IsProgram input.now) (λ text. Tells (IsProgramRefused input.now) name.now input.now text.items)) }
{
    let refusal = program_refusal(alloc, input)?;
    told(alloc, name, input, refusal)
}

// The report of the refusal that an input has, where it has one.
fn told(
    alloc: Global,
    name: &str,
    input: &[u8],
    refusal: Option<Refusal>,
) -> Result<Option<Vec<u8>>, NoMemory>
    ensures { IfOk result (λ told. MatchOption told (refusal ≡ None) (λ text. Tells (λ one. refusal ≡ Some one) name.now input.now text.items)) }
{
    match refusal {
        Some(refusal) => {
            let text = explain_refusal(alloc, name, input, refusal)?;
            Ok(Some(text))
        }
        None => Ok(None),
    }
}

/// The report of a refusal that an input has.
pub fn explain_refusal(
    alloc: Global,
    name: &str,
    input: &[u8],
    refusal: Refusal,
) -> Result<Vec<u8>, NoMemory>
    ensures { IfOk result (λ text. Tells (λ told. told ≡ refusal) name.now input.now text.items) }
{
    report(alloc, 0, name, input, refusal)
}

/// The same of an input that has to be a code.
pub fn explain_code(alloc: Global, name: &str, input: &[u8]) -> Result<Option<Vec<u8>>, NoMemory>
    ensures { IfOk result (λ told. MatchOption told (IsCode input.now) (λ text. Tells (IsCodeRefused input.now) name.now input.now text.items)) }
{
    let refusal = code_refusal(alloc, input)?;
    told(alloc, name, input, refusal)
}

/// The same of a schedule of so many processes.
pub fn explain_schedule(
    alloc: Global,
    name: &str,
    text: &str,
    n: u8,
) -> Result<Option<Vec<u8>>, NoMemory>
    ensures { IfOk result (λ told. MatchOption told ((steps : List ℕ) × (schedule_of n text.now ≡ Ok steps)) (λ report. TellsFor n (IsScheduleRefused n text.now) name.now text.now report.items)) }
{
    match schedule_refusal(alloc, text, n)? {
        Some(refusal) => {
            let report = report(alloc, n, name, text.as_bytes(), refusal)?;
            Ok(Some(report))
        }
        None => Ok(None),
    }
}

/// The report of this fault of a text that spells no stamps and clears of so many processes.
pub fn explain_moves(
    alloc: Global,
    name: &str,
    text: &str,
    n: u8,
    fault: ScheduleFault,
) -> Result<Vec<u8>, NoMemory>
    ensures { IfOk result (λ report. IsReport (move_items n) name.now text.now (Schedule fault) report.items) }
{
    let refusal = Refusal::Schedule(fault);
    moves_report(alloc, n, name, text.as_bytes(), refusal)
}
