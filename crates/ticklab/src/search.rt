//! The search of one file, on a thread of its own.
ghost use Rattle.std.specs.Prelude.{IfOk};
ghost use Rattle.ticklab_check.specs.Checking.{SourceComesTo};
ghost use Rattle.ticklab.specs.Searching.{IsSearchOf};

use crate::checking::HostStopwatch;
use base::NoMemory;
use searches_explore::Limits;
use std::alloc::Global;
use std::thread::{Promise, PromisedHandle, Scope, Threads};
use ticklab_check::{Source, Timed, timed_file};

/// What a file comes to, or that memory was refused.
pub type Searched = Result<Timed, NoMemory>;

/// That a result is what this file comes to within these limits.
#[derive(Clone, Copy)]
pub struct ComesTo<'s> {
    pub source: &'s Source,
    pub limits: Limits,
}

impl<'s> Promise<Searched> for ComesTo<'s> {
    ghost kept_by = { λ promise searched. IfOk searched (λ timed. SourceComesTo promise.limits promise.source.now timed.checked) };
}

/// What all searches share: threads and the clock.
#[derive(Drop)]
pub struct Ground<'s, R> {
    pub rt: &'s R,
    pub clock: &'s HostRuntime,
}

/// A search that was begun, and the file that it searches.
#[derive(Drop)]
pub struct FileSearch<'s> {
    pub source: &'s Source,
    work: Work<'s>,
}

/// Where a search is made.
#[derive(Drop)]
pub enum Work<'s> {
    /// It goes on, on a thread of its own.
    Begun(PromisedHandle<Searched, ComesTo<'s>>),
    /// No thread could be made, so it was made on this one.
    Done(Searched),
}

impl<'s, R: Threads> Ground<'s, R> {
    /// Begins the search of a file.
    pub fn begin<E>(
        &self,
        scope: &Scope<'s, E>,
        alloc: Global,
        source: &'s Source,
        limits: Limits,
    ) -> FileSearch<'s>
        ensures { IsSearchOf limits source.now result }
    {
        let promise = ComesTo { source, limits };
        let clock = self.clock;
        let work = move || -> Searched
            ensures { IfOk result (λ timed. SourceComesTo limits source.entry.now timed.checked) }
        { searched(clock, alloc, source, limits) };
        let work = match scope.spawn_with(promise, work) {
            Ok(handle) => Work::Begun(handle),
            Err(refused) => Work::Done((refused.value)()),
        };
        FileSearch { source, work }
    }

    /// Waits until a search has ended.
    pub fn end(&self, search: FileSearch<'s>) -> Searched
        ensures { (limits : Limits) (source : Source) → IsSearchOf limits source search.entry → IfOk result (λ timed. SourceComesTo limits source timed.checked) }
    {
        let FileSearch { work, .. } = search;
        match work {
            Work::Begun(handle) => handle.join(self.rt),
            Work::Done(searched) => searched,
        }
    }
}

// Searches a file.
fn searched(clock: &HostRuntime, alloc: Global, source: &Source, limits: Limits) -> Searched
    ensures { IfOk result (λ timed. SourceComesTo limits source.now timed.checked) }
{
    timed_file(alloc, &HostStopwatch::new(clock), source, limits)
}
