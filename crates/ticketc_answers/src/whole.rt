//! The whole program takes the words that the host gave, a reader and a writer, and returns the exit status.
ghost use Rattle.std.specs.Prelude.{◌≡◌, IfErr, IfOk, Ok};
ghost use Rattle.std.specs.Process.{exit_status};
ghost use Rattle.std.specs.Vec.Iter.{into_iter_items};
ghost use Rattle.ticketc_line.specs.declared.command.Request.TheVariants.{Run};
ghost use Rattle.ticketc_answers.specs.Ended.{EndsOrRuns, EndsServed, IsExitOf};

use crate::exit::exit_code;
use crate::fault::EngineFault;
use crate::heard::Heard;
use crate::serving::{engine, run_engine};
use std::alloc::Global;
use std::env::Args;
use std::io;
use std::process::ExitCode;
use tick_merge::OneRun;
use ticketc_io::{ByteSink, ByteSource};

/// The status of words that the host couldn't give, as where one is no UTF-8.
const NO_WORDS: u8 = 4;

/// Serves the words of the command line, as `std::env::args` gave them. A run on threads isn't made; `run_ended`
/// makes it, with the same reader and writer.
pub fn ended<R: ByteSource, W: ByteSink>(
    alloc: Global,
    given: io::Result<Args>,
    reader: &mut R,
    writer: &mut W,
) -> Heard<ExitCode>
    ensures { EndsOrRuns given R.remaining R.counts W.written W.counts reader.old reader.new writer.old writer.new result }
{
    match given {
        Ok(given) => match words_of(alloc, given) {
            Ok(words) => exits(engine(alloc, words.as_slice(), reader, writer)),
            Err(fault) => exits(Err(fault)),
        },
        Err(_) => Heard::Served(ExitCode::from(NO_WORDS)),
    }
}

/// Serves a run on threads of so many turns, which `one` makes.
pub fn run_ended<O: OneRun, R: ByteSource, W: ByteSink>(
    alloc: Global,
    one: O,
    turns: u64,
    reader: &mut R,
    writer: &mut W,
) -> ExitCode
    ensures { EndsServed (Ok (Run turns)) R.remaining R.counts W.written W.counts reader.old reader.new writer.old writer.new (exit_status result) }
{
    exit_code(run_engine(alloc, one, turns, reader, writer))
}

// The exit status of what came of words.
fn exits(outcome: Result<Heard<u8>, EngineFault>) -> Heard<ExitCode>
    ensures { IsExitOf outcome result }
{
    match outcome {
        Ok(Heard::Run(turns)) => Heard::Run(turns),
        Ok(Heard::Served(status)) => Heard::Served(exit_code(Ok(status))),
        Err(fault) => Heard::Served(exit_code(Err(fault))),
    }
}

/// The words that the host gave, as a list.
pub fn words_of(alloc: Global, given: Args) -> Result<Vec<String>, EngineFault>
    ensures ok { IfOk result (λ words. words.items ≡ into_iter_items given) }
    ensures err { IfErr result (λ fault. fault ≡ EngineFault.Memory) }
{
    let mut words = Vec::new(alloc);
    for word in given {
        words.push(word)?;
    }
    Ok(words)
}
