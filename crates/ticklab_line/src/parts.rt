//! Parts of the command line, as they are described to `clap`: commands, and what is added to one.
ghost use Rattle.std.specs.Prelude.{◌≡◌, IfOk, Ok};
ghost use Rattle.clap.specs.Walk.{Rule};
ghost use Rattle.clap.specs.Simple.{App, with_rule};
ghost use Rattle.ticklab_line.specs.CommandLine.{IsCommand, IsLine, IsWord, with_app};

use clap::{Arg, Command};
use std::alloc::{AllocError, Global};

// The line with one more command.
pub fn with<'a>(
    line: Result<Command<'a>, AllocError>,
    more: Result<Command<'a>, AllocError>,
) -> Result<Command<'a>, AllocError>
    ensures { (above app : App) → IsLine above line.entry → IsCommand app more.entry → IsLine (with_app above app) result }
{
    let (line, more) = both(line, more)?;
    line.subcommand(more)
}

// Both, where both are there. (Whatever may fail where it owns a `Command` takes long to prove: this may, and owns
// none.)
fn both<A: Drop, B: Drop>(
    first: Result<A, AllocError>,
    second: Result<B, AllocError>,
) -> Result<(A, B), AllocError>
    ensures { IfOk result (λ pair. (first ≡ Ok pair.0) × (second ≡ Ok pair.1)) }
{
    Ok((first?, second?))
}

// The command with one more word.
pub fn taking<'a>(
    command: Result<Command<'a>, AllocError>,
    word: Arg<'a>,
) -> Result<Command<'a>, AllocError>
    ensures { (app : App) (rule : Rule) → IsCommand app command.entry → IsWord rule word.entry → IsCommand (with_rule app rule) result }
{
    command?.arg(word)
}
