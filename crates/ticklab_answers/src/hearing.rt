//! What files come to is written as soon as it is known.
ghost use Rattle.std.specs.Prelude.{◌≡◌};
ghost use Rattle.ticklab_answers.specs.Hearing.{IsFaultOf, IsUnwritten, WritesFile};

use crate::host::Host;
use crate::writing::write_shown;
use std::alloc::Global;
use std::io::Write;
use ticklab_check::{CheckFault, Listener, Source, Timed, file_lines};
use ticklab_files::{AnswerFault, LabFault};

impl<F, O: Write, T> Listener for Host<F, O, T> {
    ghost hears = { WritesFile O.contents };

    ghost refuses = { Unit {0} };

    // Standard output keeps nothing back.
    fn hear(&mut self, alloc: Global, source: &Source, timed: &Timed) -> Result<(), CheckFault> {
        let lines = file_lines(alloc, source, timed)?;
        match write_shown(alloc, &mut self.out, self.colours.out, lines.as_slice()) {
            Ok(()) => Ok(()),
            Err(fault) => Err(unheard(fault)),
        }
    }
}

// Why nothing more is heard, where a text can't be written.
fn unheard(fault: LabFault) -> CheckFault
    requires { IsUnwritten (Unit {0}) fault }
{
    match fault {
        LabFault::Unwritten(error) => CheckFault::Unheard(error),
        LabFault::Answer(AnswerFault::NoMemory | AnswerFault::NoThread) => CheckFault::NoMemory,
        LabFault::Words(_) | LabFault::Unread(..) => unreachable!(),
    }
}

/// Why there is no answer, where files aren't checked to the last.
pub fn fault_of(fault: CheckFault) -> LabFault
    ensures { IsFaultOf fault result }
{
    match fault {
        CheckFault::Unheard(error) => LabFault::from(error),
        CheckFault::NoMemory => LabFault::Answer(AnswerFault::NoMemory),
    }
}
