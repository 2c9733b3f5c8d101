//! The answers of `lift` and `drop`: a schedule of a program's code or of the program, in one line.
ghost use Rattle.std.specs.Prelude.{◌≡◌, ◌<◌, All, IfOk, false, string_bytes};
ghost use Rattle.tick_kinds.specs.Resolution.{resolved};
ghost use Rattle.ticketc_answers.specs.Codes.{OnLowered, code_of};
ghost use Rattle.ticketc_answers.specs.Inputs.{Is};
ghost use Rattle.ticketc_answers.specs.Maps.{carried as carried_steps, carried_answer, carried_line as line_carried, schedule_line as line_of_schedule};
ghost use Rattle.ticketc_answers.specs.Stop.{Tells};

use crate::codes::lowering_of;
use crate::stop::Reply;
use code_core::Code;
use language_schedules::{NoMemory, read_schedule, write_schedule};
use std::alloc::Global;
use tick_kinds::Program;
use tick_sim::{drop, lift};

/// Which way a schedule is carried.
#[derive(Clone, Copy)]
pub enum Way {
    /// From the program to its code.
    Lift,
    /// From the code to its program.
    Drop,
}

/// The schedule that the spelled one is on the other side, of the program that an input is and its code.
pub fn carried_text(alloc: Global, way: Way, input: &[u8], schedule: &str) -> Reply
    ensures { Tells false (OnLowered (Is (carried_answer way schedule.now)) input.now) result }
{
    let (program, code) = lowering_of(alloc, input)?;
    carried_schedule(alloc, way, &program, &code, schedule)
}

fn carried_schedule(
    alloc: Global,
    way: Way,
    program: &Program,
    code: &Code,
    schedule: &str,
) -> Reply
    requires { code.now ≡ code_of program.now }
    ensures { Tells false (Is (carried_answer way schedule.now) code.now) result }
{
    let steps = read_schedule(alloc, schedule, program.processes())?;
    let line = carried_line(alloc, way, program, code, steps.as_slice())?;
    Ok(line)
}

fn carried_line(
    alloc: Global,
    way: Way,
    program: &Program,
    code: &Code,
    steps: &[u8],
) -> Result<String, NoMemory>
    requires code { code.now ≡ code_of program.now }
    requires processes { All (λ p. p < (resolved program.now).processes) steps.now }
    ensures { IfOk result (λ line. string_bytes line ≡ line_carried way code.now steps.now) }
{
    let there = carried(alloc, way, program, code, steps)?;
    schedule_line(alloc, there.as_slice())
}

fn carried(
    alloc: Global,
    way: Way,
    program: &Program,
    code: &Code,
    steps: &[u8],
) -> Result<Vec<u8>, NoMemory>
    requires code { code.now ≡ code_of program.now }
    requires processes { All (λ p. p < (resolved program.now).processes) steps.now }
    ensures { IfOk result (λ there. there.items ≡ carried_steps way code.now steps.now) }
{
    match way {
        Way::Lift => lift(alloc, program, code, steps),
        Way::Drop => drop(alloc, program, code, steps),
    }
}

// A schedule with a line feed.
fn schedule_line(alloc: Global, steps: &[u8]) -> Result<String, NoMemory>
    ensures { IfOk result (λ line. string_bytes line ≡ line_of_schedule steps.now) }
{
    let mut line = write_schedule(alloc, steps)?;
    line.push('\n')?;
    Ok(line)
}
