//! The engine takes the words of a command line, a reader and a writer, and returns a status. It has nothing that starts a
//! thread: where the words ask for a run it says so, and `run_engine` serves that.
ghost use Rattle.std.specs.Prelude.{◌≡◌, IfErr, IfOk, Ok, OnErr, OnOk, map, string_bytes};
ghost use Rattle.std.specs.Io.KnownBytes.{Appends};
ghost use Rattle.ticketc_line.specs.Asked.{Fits, plain_command};
ghost use Rattle.ticketc_line.specs.Line.{asked_in};
ghost use Rattle.ticketc_line.specs.declared.command.Request.TheVariants.{Alone, Run};
ghost use Rattle.ticketc_io.specs.Writing.{CountsWrites, WritesPrefix};
ghost use Rattle.ticketc_answers.specs.Faults.{end_fault_in};
ghost use Rattle.ticketc_answers.specs.Serving.{Serves, ServesOrRuns};

use crate::answer::{response_to, run_response};
use crate::fault::EngineFault;
use crate::heard::Heard;
use crate::response::{StatusText, line_response};
use std::alloc::Global;
use tick_merge::OneRun;
use ticketc_io::{ByteSink, ByteSource, read_input, write_text};
use ticketc_line::{Command, Request, asked};

/// Serves a command line, and answers its status: 0 done, 1 the input was refused, 2 the command line
/// was. The first word is the program's name. The reader is read where the words ask for a command, and
/// the whole answer is made before any of it is written. A run on threads isn't made.
pub fn engine<R: ByteSource, W: ByteSink>(
    alloc: Global,
    words: &[String],
    reader: &mut R,
    writer: &mut W,
) -> Result<Heard<u8>, EngineFault>
    ensures { ServesOrRuns (asked_in (map string_bytes words.now)) R.remaining R.counts W.written W.counts reader.old reader.new writer.old writer.new result }
{
    match asked(alloc, words)? {
        Ok(Request::Alone(command)) => {
            let status = command_engine(alloc, command, reader, writer)?;
            Ok(Heard::Served(status))
        }
        Ok(Request::Run(turns)) => Ok(Heard::Run(turns)),
        Err(fault) => {
            let response = line_response(alloc, fault)?;
            let status = write_response(writer, &response)?;
            Ok(Heard::Served(status))
        }
    }
}

// Serves a command that no thread is started for.
fn command_engine<R: ByteSource, W: ByteSink>(
    alloc: Global,
    command: Command<&str>,
    reader: &mut R,
    writer: &mut W,
) -> Result<u8, EngineFault>
    requires fits { Fits (plain_command command) }
    ensures { Serves (Ok (Alone (plain_command command.entry))) R.remaining R.counts W.written W.counts reader.old reader.new writer.old writer.new result }
{
    let input = read_input(alloc, reader)?;
    let response = response_to(alloc, command, input.as_slice())?;
    write_response(writer, &response)
}

/// Serves a run on threads of so many turns, which `one` makes, and so at most once.
pub fn run_engine<O: OneRun, R: ByteSource, W: ByteSink>(
    alloc: Global,
    one: O,
    turns: u64,
    reader: &mut R,
    writer: &mut W,
) -> Result<u8, EngineFault>
    ensures { Serves (Ok (Run turns)) R.remaining R.counts W.written W.counts reader.old reader.new writer.old writer.new result }
{
    let input = read_input(alloc, reader)?;
    let response = run_response(alloc, one, turns, input.as_slice())?;
    write_response(writer, &response)
}

fn write_response<W: ByteSink>(writer: &mut W, response: &StatusText) -> Result<u8, EngineFault>
    ensures status { IfOk result (λ status. status ≡ response.now.status) }
    ensures ok { OnOk result (Appends (W.written writer.old) (W.written writer.new) (string_bytes response.now.text)) }
    ensures err { OnErr result (WritesPrefix (W.written writer.old) (W.written writer.new) (string_bytes response.now.text)) }
    ensures fault { IfErr result (λ fault. fault ≡ EngineFault.Write) }
    ensures counted { CountsWrites (end_fault_in result) (W.counts writer.old) (W.counts writer.new) }
{
    write_text(writer, response.text.as_bytes())?;
    Ok(response.status)
}
