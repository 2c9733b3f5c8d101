//! `ticklab lasso`: whether a given prefix and cycle go on for ever, and how that is told.
ghost use Rattle.std.specs.Prelude.{◌≡◌, ◌<◌, ◌||◌, All, IfErr, IfOk, Some, option_map, string_bytes};
ghost use Rattle.tick_kinds.specs.Resolution.{resolved};
ghost use Rattle.ticketc_refusals.specs.Refusals.{SpelledIn};
ghost use Rattle.ticklab_files.specs.Faults.{IsEither, IsOfFileThat, IsUnread};
ghost use Rattle.ticklab_verdicts.specs.Lasso.{IsChecked, IsLassoFound, IsOfThree, IsUnchecked, IsWayChecked, IsWayUnchecked, Lassoes, LassoesBoth, LassoesWay, ShowsLasso};
ghost use Rattle.ticklab_verdicts.specs.Lines.{left_out_line, loop_line};
ghost use Rattle.ticklab_files.specs.Reading.{is_input, reads_input};
ghost use Rattle.ticklab_files.specs.Stops.{IfRefused};
ghost use Rattle.ticklab_files.specs.Ways.{held};

use crate::ends::{asked_in, loop_text, push_processes};
use base::{NoMemory, push_number};
use searches_explore::{LassoAnswer, explore_lasso};
use searches_states::MustStop;
use std::alloc::{AllocError, Global};
use ticketc_refusals::SpelledProgram;
use ticklab_files::{
    Files, LIMIT, LabFault, NO_LOOP, NoAnswer, Response, STUCK, ScheduleTexts, answer, bytes_of,
    is_input, reads_input, schedule_of, settled, spelled_program_of, text_of, texts_of, way_of,
};
use ticklab_json::Loop;

const STOPPED: &str = "it is no loop: after PREFIX no process runs that has to end\n";

const LEADS_ON: &str = "it is no loop: CYCLE leads to another state than PREFIX does\n";

const TOO_LONG: &str = "there are more than 268435455 statements: nothing is said of the loop\n";

/// Whether the cycle after the prefix, both schedules, is a loop that processes of the program go round for ever, one
/// of which the file asks for. Each process that runs then has to make a step of the cycle. Where no cycle is given, that
/// is the last part of the way that is given for the prefix.
pub fn lassoed<F: Files>(
    alloc: Global,
    files: &mut F,
    file: &str,
    prefix: &str,
    cycle: Option<&str>,
) -> Result<Response, LabFault>
    ensures ok { IfOk result (Lassoes F.Reads F.ReadsInput files.old files.new file.now prefix.now (option_map (λ text. text.now) cycle.entry)) }
    ensures err { IfErr result (IsOfFileThat (IsUnread F.Reads F.ReadsInput F.Lists F.Fails) (IsOfThree file.now prefix.now (option_map (λ text. text.now) cycle.entry))) }
{
    match cycle {
        Some(cycle) => both_lassoed(alloc, files, file, prefix, cycle),
        None => way_lassoed(alloc, files, file, prefix),
    }
}

fn way_lassoed<F: Files>(
    alloc: Global,
    files: &mut F,
    file: &str,
    way: &str,
) -> Result<Response, LabFault>
    ensures ok { IfOk result (LassoesWay F.Reads F.ReadsInput files.old files.new file.now way.now) }
    ensures err { IfErr result (IsOfFileThat (IsUnread F.Reads F.ReadsInput F.Lists F.Fails) (IsEither file.now way.now)) }
{
    let input = bytes_of(alloc, files, file)?;
    let (from, given) = texts_of(alloc, files, way, is_input(file))?;
    let answered = way_checked(alloc, file, input.as_slice(), from, &given);
    Ok(settled(alloc, answered)?)
}

// `name` is that of the program's file, `from` says where the texts of the way are from.
fn way_checked(
    alloc: Global,
    name: &str,
    input: &[u8],
    from: &str,
    given: &ScheduleTexts,
) -> Result<Response, NoAnswer>
    ensures ok { IfOk result (IsWayChecked input.now (held given.now)) }
    ensures refused { IfErr result (λ stop. IfRefused stop (IsWayUnchecked name.now input.now from.now (held given.now))) }
{
    let (spelled, questions) = spelled_program_of(alloc, name, input)?;
    let way = way_of(alloc, from, given, spelled.program.processes())?;
    let (prefix, cycle) = way.divided()?;
    let asked = asked_in(questions.ends.fair);
    let (prefix, cycle) = (prefix.as_slice(), cycle.as_slice());
    Ok(lasso_found(alloc, &spelled, input, asked, prefix, cycle)?)
}

fn both_lassoed<F: Files>(
    alloc: Global,
    files: &mut F,
    file: &str,
    prefix: &str,
    cycle: &str,
) -> Result<Response, LabFault>
    ensures ok { IfOk result (LassoesBoth F.Reads F.ReadsInput files.old files.new file.now prefix.now cycle.now) }
    ensures err { IfErr result (IsOfFileThat (IsUnread F.Reads F.ReadsInput F.Lists F.Fails) (IsOfThree file.now prefix.now (Some cycle.now))) }
{
    let input = bytes_of(alloc, files, file)?;
    let (first_from, first) = text_of(alloc, files, prefix, is_input(file))?;
    let is_read = is_input_read(file, prefix);
    let (second_from, second) = text_of(alloc, files, cycle, is_read)?;
    let bytes = input.as_slice();
    let answered = checked(alloc, file, bytes, first_from, &first, second_from, &second);
    Ok(settled(alloc, answered)?)
}

// Whether standard input is read for the file or the prefix.
fn is_input_read(file: &str, prefix: &str) -> bool
    ensures { result ≡ is_input file.now || reads_input prefix.now }
{
    is_input(file) || reads_input(prefix)
}

// `name` is that of the program's file, and the texts of the prefix and the cycle have these.
fn checked(
    alloc: Global,
    name: &str,
    input: &[u8],
    first_from: &str,
    first: &str,
    second_from: &str,
    second: &str,
) -> Result<Response, NoAnswer>
    ensures ok { IfOk result (IsChecked input.now first.now second.now) }
    ensures refused { IfErr result (λ stop. IfRefused stop (IsUnchecked name.now input.now first_from.now first.now second_from.now second.now)) }
{
    let (spelled, questions) = spelled_program_of(alloc, name, input)?;
    let n = spelled.program.processes();
    let prefix = schedule_of(alloc, first_from, first, n)?;
    let cycle = schedule_of(alloc, second_from, second, n)?;
    let prefix = prefix.as_slice();
    let cycle = cycle.as_slice();
    let asked = asked_in(questions.ends.fair);
    Ok(lasso_found(alloc, &spelled, input, asked, prefix, cycle)?)
}

// The answer on the processes that are asked for.
fn lasso_found(
    alloc: Global,
    spelled: &SpelledProgram,
    input: &[u8],
    asked: MustStop,
    prefix: &[u8],
    cycle: &[u8],
) -> Result<Response, NoMemory>
    requires prefix { All (λ p. p < (resolved spelled.now.program).processes) prefix.now }
    requires cycle { All (λ p. p < (resolved spelled.now.program).processes) cycle.now }
    requires program { SpelledIn input.now spelled.now }
    ensures { IfOk result (IsLassoFound input.now spelled.now.program asked prefix.now cycle.now) }
{
    let found = explore_lasso(alloc, &spelled.program, asked, prefix, cycle)?;
    let response = shown(alloc, spelled, input, prefix, cycle, found)?;
    Ok(response)
}

// The answer that tells what was found.
fn shown(
    alloc: Global,
    spelled: &SpelledProgram,
    input: &[u8],
    prefix: &[u8],
    cycle: &[u8],
    found: Option<LassoAnswer>,
) -> Result<Response, NoMemory>
    requires prefix { All (λ p. p < (resolved spelled.now.program).processes) prefix.now }
    requires cycle { All (λ p. p < (resolved spelled.now.program).processes) cycle.now }
    requires program { SpelledIn input.now spelled.now }
    ensures { IfOk result (ShowsLasso input.now spelled.now.program prefix.now cycle.now found) }
{
    match found {
        Some(LassoAnswer::Lasso(running)) => {
            let line = loop_line(alloc, running.as_slice())?;
            let looped = Loop {
                schedule: prefix,
                lead_in: &[],
                cycle,
            };
            let text = loop_text(alloc, spelled, input, &line, looped)?;
            Ok(answer(alloc, STUCK, text))
        }
        Some(LassoAnswer::AllStopped) => {
            let line = String::from_str(alloc, STOPPED)?;
            Ok(answer(alloc, NO_LOOP, line))
        }
        Some(LassoAnswer::LeftOut(process)) => {
            let line = left_out_line(alloc, process)?;
            Ok(answer(alloc, NO_LOOP, line))
        }
        Some(LassoAnswer::Open) => {
            let line = String::from_str(alloc, LEADS_ON)?;
            Ok(answer(alloc, NO_LOOP, line))
        }
        None => {
            let line = String::from_str(alloc, TOO_LONG)?;
            Ok(answer(alloc, LIMIT, line))
        }
    }
}

fn loop_line(alloc: Global, running: &[u8]) -> Result<String, AllocError>
    ensures { IfOk result (λ line. string_bytes line ≡ loop_line running.now) }
{
    let mut line = String::from_str(alloc, "it is a loop of ")?;
    push_processes(&mut line, running)?;
    line.push_str(" that never stops, and it begins after these steps:")?;
    Ok(line)
}

fn left_out_line(alloc: Global, process: u8) -> Result<String, AllocError>
    ensures { IfOk result (λ line. string_bytes line ≡ left_out_line process) }
{
    let mut line = String::from_str(alloc, "it is no loop: process ")?;
    push_number(&mut line, u64::from(process))?;
    line.push_str(" runs after PREFIX and makes no step of CYCLE\n")?;
    Ok(line)
}
