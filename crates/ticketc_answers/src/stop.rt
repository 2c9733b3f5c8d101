//! What stops a command before it has an answer of its own.
ghost use Rattle.std.specs.Prelude.{◌≡◌};
ghost use Rattle.ticketc_answers.specs.Stop.{code_stop, lower_stop, run_stop, schedule_stop, text_stop};
ghost use Rattle.ticketc_answers.specs.declared.stop.Stop.TheVariants.{Memory, Refused};

use base::NoMemory;
use code_core::CodeFault;
use language_schedules::ScheduleFault;
use std::alloc::AllocError;
use tick_lower::LowerFault;
use tick_merge::RunFault;
use tick_syntax::TextFault;
use ticketc_refusals::Refusal;

/// What stops a command: the input is refused, or there is want of memory or of a thread.
#[derive(Clone, Copy)]
pub enum Stop {
    Refused(Refusal),
    /// The code of the program would have more than 65,535 instructions.
    TooLong,
    Memory,
    Thread,
}

/// The text of an answer, or what stops its command.
pub type Reply = Result<String, Stop>;

impl From<Refusal> for Stop {
    ghost from_gives = { λ refusal stop. stop ≡ Refused refusal };

    fn from(refusal: Refusal) -> Stop {
        Stop::Refused(refusal)
    }
}

impl From<TextFault> for Stop {
    ghost from_gives = { λ fault stop. stop ≡ text_stop fault };

    fn from(fault: TextFault) -> Stop {
        match fault {
            TextFault::NoMemory => Stop::Memory,
            fault => Stop::Refused(Refusal::Text(fault)),
        }
    }
}

impl From<CodeFault> for Stop {
    ghost from_gives = { λ fault stop. stop ≡ code_stop fault };

    fn from(fault: CodeFault) -> Stop {
        match fault {
            CodeFault::NoMemory => Stop::Memory,
            fault => Stop::Refused(Refusal::Code(fault)),
        }
    }
}

impl From<ScheduleFault> for Stop {
    ghost from_gives = { λ fault stop. stop ≡ schedule_stop fault };

    fn from(fault: ScheduleFault) -> Stop {
        match fault {
            ScheduleFault::NoMemory => Stop::Memory,
            fault => Stop::Refused(Refusal::Schedule(fault)),
        }
    }
}

impl From<LowerFault> for Stop {
    ghost from_gives = { λ fault stop. stop ≡ lower_stop fault };

    fn from(fault: LowerFault) -> Stop {
        match fault {
            LowerFault::TooLong => Stop::TooLong,
            LowerFault::NoMemory => Stop::Memory,
        }
    }
}

impl From<RunFault> for Stop {
    ghost from_gives = { λ fault stop. stop ≡ run_stop fault };

    fn from(fault: RunFault) -> Stop {
        match fault {
            RunFault::NoMemory => Stop::Memory,
            RunFault::NoThread => Stop::Thread,
        }
    }
}

impl From<NoMemory> for Stop {
    ghost from_gives = { λ _ stop. stop ≡ Memory };

    fn from(_error: NoMemory) -> Stop {
        Stop::Memory
    }
}

impl From<AllocError> for Stop {
    ghost from_gives = { λ _ stop. stop ≡ Memory };

    fn from(_error: AllocError) -> Stop {
        Stop::Memory
    }
}
