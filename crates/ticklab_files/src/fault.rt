//! Why there is no answer: of a command, and of the whole program.
ghost use Rattle.std.specs.Prelude.{◌≡◌, [], Err, String};
ghost use Rattle.std.specs.Global.{Global};
ghost use Rattle.std.specs.declared.vec.IntoIter.{IntoIter};
ghost use Rattle.ticklab_files.specs.Faults.{IsOfOutput, IsOfWords, IsSaid, IsUnreadFor, status_of};
ghost use Rattle.ticklab_files.specs.declared.fault.AnswerFault.TheVariants as answer;
ghost use Rattle.ticklab_files.specs.Stops.{fault_of};

use base::NoMemory;
use std::alloc::{AllocError, AllocFailed, Global};
use std::io;
use std::io::ErrorKind;
use thiserror::Error;
use tick_merge::RunFault;

/// Why a command has no answer.
#[derive(Clone, Copy, PartialEq, Eq, Debug, Error)]
pub enum AnswerFault {
    /// Memory was refused.
    #[error("out of memory")]
    NoMemory,
    /// A thread was refused.
    #[error("no thread")]
    NoThread,
}

impl From<RunFault> for AnswerFault {
    ghost from_gives = { λ run fault. fault ≡ fault_of run };

    fn from(fault: RunFault) -> AnswerFault {
        match fault {
            RunFault::NoMemory => AnswerFault::from(NoMemory),
            RunFault::NoThread => AnswerFault::NoThread,
        }
    }
}

impl From<NoMemory> for AnswerFault {
    ghost from_gives = { λ _ fault. fault ≡ answer.NoMemory };

    fn from(_fault: NoMemory) -> AnswerFault {
        AnswerFault::NoMemory
    }
}

impl From<AllocError> for AnswerFault {
    ghost from_gives = { λ _ fault. fault ≡ answer.NoMemory };

    fn from(_error: AllocError) -> AnswerFault {
        AnswerFault::NoMemory
    }
}

impl<T: Drop> From<AllocFailed<T>> for AnswerFault {
    ghost from_gives = { λ _ fault. fault ≡ answer.NoMemory };

    fn from(_error: AllocFailed<T>) -> AnswerFault {
        AnswerFault::NoMemory
    }
}

/// Why a file or a folder can't be read.
#[derive(Debug, Drop, Error)]
pub enum ReadFault {
    /// The host says this.
    #[error("{0}")]
    Host(io::Error),
    /// It has 64 MiB or more.
    #[error("longer than 64 MiB")]
    TooLong,
    /// A schedule is read from it, and it is no UTF-8.
    #[error("no UTF-8")]
    NoText,
    /// It is standard input, which was read already.
    #[error("standard input was read already")]
    ReadAlready,
    /// It is a folder in which no file has a name that ends in `.tick`.
    #[error("there is no .tick file in this folder")]
    NoTicks,
}

/// Why the program comes to no answer.
#[derive(Debug, Drop, Error)]
pub enum LabFault {
    /// The words of the command line can't be had, as where one is no UTF-8.
    #[error("the command line: {0}")]
    Words(io::Error),
    /// A file or a folder can't be read: its name, and why.
    #[error("{0}: {1}")]
    Unread(String, ReadFault),
    /// The answer can't be written.
    #[error("{0}")]
    Unwritten(io::Error),
    /// Memory or a thread was refused.
    #[error("{0}")]
    Answer(AnswerFault),
}

impl LabFault {
    /// Why there are no words, where the host says this.
    pub fn of_words(error: io::Error) -> LabFault
        ensures { IsOfWords {W = IntoIter (String Global) Global} (Err error) result }
    {
        match LabFault::from(error) {
            LabFault::Unwritten(error) => LabFault::Words(error),
            fault => fault,
        }
    }

    /// Why some of these bytes can't be written, where the host says this.
    pub fn of_output(bytes: &[u8], error: io::Error) -> LabFault
        requires { bytes.now ≡ [] → ⊥ }
        ensures { IsOfOutput bytes.now result }
    {
        LabFault::from(error)
    }

    /// Why what has this name can't be read, where the host says this.
    pub fn of_call(alloc: Global, name: &str, error: io::Error) -> LabFault
        ensures { IsUnreadFor name.now (ReadFault.Host error) result }
    {
        match LabFault::from(error) {
            LabFault::Unwritten(error) => LabFault::of_file(alloc, name, ReadFault::Host(error)),
            fault => fault,
        }
    }

    /// Why what has this name can't be read.
    pub fn of_file(alloc: Global, name: &str, fault: ReadFault) -> LabFault
        ensures { IsUnreadFor name.now fault result }
    {
        match String::from_str(alloc, name) {
            Ok(name) => LabFault::Unread(name, fault),
            Err(error) => LabFault::from(error),
        }
    }

    /// The exit status that tells it.
    pub fn status(&self) -> u8
        ensures { result ≡ status_of self.now }
    {
        match self {
            LabFault::Words(_) => 2,
            LabFault::Unread(..) | LabFault::Unwritten(_) => 3,
            LabFault::Answer(_) => 4,
        }
    }
}

impl From<AnswerFault> for LabFault {
    ghost use Rattle.ticklab_files.specs.declared.fault.LabFault.TheVariants.{Answer};

    ghost from_gives = { λ given fault. fault ≡ Answer given };

    fn from(fault: AnswerFault) -> LabFault {
        LabFault::Answer(fault)
    }
}

impl From<NoMemory> for LabFault {
    ghost use Rattle.ticklab_files.specs.declared.fault.AnswerFault.TheVariants as answer;
    ghost use Rattle.ticklab_files.specs.declared.fault.LabFault.TheVariants.{Answer};

    ghost from_gives = { λ _ fault. fault ≡ Answer answer.NoMemory };

    fn from(_fault: NoMemory) -> LabFault {
        LabFault::Answer(AnswerFault::NoMemory)
    }
}

impl From<AllocError> for LabFault {
    ghost use Rattle.ticklab_files.specs.declared.fault.AnswerFault.TheVariants.{NoMemory};
    ghost use Rattle.ticklab_files.specs.declared.fault.LabFault.TheVariants.{Answer};

    ghost from_gives = { λ _ fault. fault ≡ Answer NoMemory };

    fn from(_error: AllocError) -> LabFault {
        LabFault::Answer(AnswerFault::NoMemory)
    }
}

impl From<io::Error> for LabFault {
    ghost from_gives = { λ error fault. IsSaid error fault };

    fn from(error: io::Error) -> LabFault {
        match error.kind() {
            ErrorKind::OutOfMemory => LabFault::Answer(AnswerFault::NoMemory),
            _ => LabFault::Unwritten(error),
        }
    }
}
