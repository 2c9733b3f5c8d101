ghost use Rattle.std.specs.Prelude.{◌≡◌, ℕ, IfErr, IfOk, max, min};
ghost use Rattle.std.specs.List.{AllZip};
ghost use Rattle.ticklab_check.specs.Checking.{SourceComesTo};
ghost use Rattle.ticklab_check.specs.Listening.{Hears, IsOfListener};

use crate::checked::Timed;
use crate::fault::CheckFault;
use crate::listening::Listener;
use crate::searching::checked_file;
use crate::source::Source;
use base::NoMemory;
use searches_explore::Limits;
use std::alloc::Global;

/// Says what time it is.
pub trait Stopwatch {
    /// Hundredths of a second since some moment.
    fn hundredths(&self) -> u64;
}

/// Checks files. Each stands alone, so it doesn't matter in which order they are searched.
pub trait Checks: Drop + Sized {
    // How many files it searches at once at most.
    ghost most: { Self → ℕ };

    /// The same, that searches at most so many files at once; 0 counts as 1.
    fn with_jobs(&self, jobs: u32) -> Self
        ensures { Self.most result ≡ min (max 1 jobs) (Self.most self.now) };

    /// How many files it searches at once at most.
    fn at_once(&self) -> u32
        ensures { result ≡ Self.most self.now };

    /// What each file comes to, in their order. Each search has these limits for itself. The listener hears of a file as
    /// soon as this file and all before it are searched.
    fn checked<L: Listener>(
        &self,
        alloc: Global,
        sources: &[Source],
        limits: Limits,
        listener: &mut L,
    ) -> Result<Vec<Timed>, CheckFault>
        ensures come { IfOk result (λ files. AllZip (λ source timed. SourceComesTo limits source timed.checked) sources.now files.items) }
        ensures heard { IfOk result (λ files. Hears L.hears listener.old sources.now files.items listener.new) }
        ensures err { IfErr result (IsOfListener L.refuses) };
}

/// Searches one file after the other.
#[derive(Drop)]
pub struct InTurn<'a, T> {
    pub stopwatch: &'a T,
}

impl<'a, T: Stopwatch> Checks for InTurn<'a, T> {
    ghost most = { λ in_turn. 1 };

    fn with_jobs(&self, _jobs: u32) -> InTurn<'a, T> {
        InTurn {
            stopwatch: self.stopwatch,
        }
    }

    fn at_once(&self) -> u32 {
        1
    }

    fn checked<L: Listener>(
        &self,
        alloc: Global,
        sources: &[Source],
        limits: Limits,
        listener: &mut L,
    ) -> Result<Vec<Timed>, CheckFault> {
        let mut files = Vec::new(alloc);
        for source in sources {
            let timed = timed_file(alloc, self.stopwatch, source, limits)?;
            listener.hear(alloc, source, &timed)?;
            files.push(timed)?;
        }
        Ok(files)
    }
}

/// What a file comes to, and how long that takes.
pub fn timed_file<T: Stopwatch>(
    alloc: Global,
    stopwatch: &T,
    source: &Source,
    limits: Limits,
) -> Result<Timed, NoMemory>
    ensures { IfOk result (λ timed. SourceComesTo limits source.now timed.checked) }
{
    let start = stopwatch.hundredths();
    let checked = checked_file(alloc, source, limits)?;
    Ok(Timed {
        checked,
        hundredths: stopwatch.hundredths().saturating_sub(start),
    })
}
