//! Files are searched a few at a time. What they come to is told in their order.
ghost use Rattle.std.specs.Prelude.{◌≡◌, IfErr, IfOk, List};
ghost use Rattle.std.specs.List.{AllZip};
ghost use Rattle.ticklab_check.specs.Listening.{IsOfListener};
ghost use Rattle.ticklab.specs.Searching.{AreSearched, IsSearchOf, IsHeardOf, OneMoreBegun};

use crate::at_work::AtWork;
use crate::search::{FileSearch, Ground};
use base::NoMemory;
use searches_explore::Limits;
use std::alloc::Global;
use std::collections::VecDeque;
use std::sync::Wait;
use std::thread;
use std::thread::{Scope, Threads};
use ticklab_check::{CheckFault, Listener, Source, Timed};

/// What each file comes to, within these limits, on so many threads at once, which have ended then; 0 counts as 1. The
/// listener hears of each file as soon as it and all before it are searched.
pub fn side_by_side<R: Threads + Wait, L: Listener>(
    ground: &Ground<'_, R>,
    alloc: Global,
    most: usize,
    sources: &[Source],
    limits: Limits,
    listener: &mut L,
) -> Result<Vec<Timed>, CheckFault>
    ensures ok { IfOk result (λ files. AreSearched limits L.hears listener.old listener.new sources.now files.items) }
    ensures err { IfErr result (IsOfListener L.refuses) }
{
    let (files, _listener) = thread::scope(
        thread::scope_env(),
        ground.rt,
        move |scope| -> (Result<Vec<Timed>, CheckFault>, &mut L)
            ensures same { result.1.ghost_name ≡ listener.entry.ghost_name }
            ensures files { IfOk result.0 (λ files. AreSearched limits L.hears listener.entry.now result.1.now sources.entry.now files.items) }
            ensures err { IfErr result.0 (IsOfListener L.refuses) }
        {
            let files = searched(ground, scope, alloc, most, sources, limits, &mut *listener);
            (files, listener)
        },
    );
    files
}

// The same, on threads of a scope.
fn searched<'s, E, R: Threads, L: Listener>(
    ground: &Ground<'s, R>,
    scope: &Scope<'s, E>,
    alloc: Global,
    most: usize,
    sources: &'s [Source],
    limits: Limits,
    listener: &mut L,
) -> Result<Vec<Timed>, CheckFault>
    ensures ok { IfOk result (λ files. AreSearched limits L.hears listener.old listener.new sources.now files.items) }
    ensures err { IfErr result (IsOfListener L.refuses) }
{
    let (first, mut rest) = sources.split_at(sources.len().min(most.max(1)));
    let mut searches = begun(ground, scope, alloc, first, limits)?;
    let mut files = Vec::new(alloc);
    while let Some(search) = searches.pop_front() {
        let timed = ended(ground, alloc, search, listener)?;
        files.push(timed)?;
        rest = one_more_begun(ground, scope, alloc, &mut searches, rest, limits)?;
    }
    Ok(files)
}

// Begins the searches of these files.
fn begun<'s, E, R: Threads>(
    ground: &Ground<'s, R>,
    scope: &Scope<'s, E>,
    alloc: Global,
    sources: &'s [Source],
    limits: Limits,
) -> Result<VecDeque<FileSearch<'s>>, NoMemory>
    ensures { IfOk result (λ searches. AllZip (IsSearchOf limits) sources.now searches.items) }
{
    let mut searches = VecDeque::new(alloc);
    for source in sources {
        searches.push_back(ground.begin(scope, alloc, source, limits))?;
    }
    Ok(searches)
}

// Begins the search of the first of these files, if there is one. What is left are the others.
fn one_more_begun<'s, E, R: Threads>(
    ground: &Ground<'s, R>,
    scope: &Scope<'s, E>,
    alloc: Global,
    searches: &mut VecDeque<FileSearch<'s>>,
    sources: &'s [Source],
    limits: Limits,
) -> Result<&'s [Source], NoMemory>
    ensures { IfOk result (λ others. OneMoreBegun limits sources.now searches.old.items searches.new.items others.now) }
{
    let Some((source, others)) = sources.split_first() else {
        return Ok(sources);
    };
    searches.push_back(ground.begin(scope, alloc, source, limits))?;
    Ok(others)
}

// Waits for a search. The listener hears what its file comes to.
fn ended<'s, R: Threads, L: Listener>(
    ground: &Ground<'s, R>,
    alloc: Global,
    search: FileSearch<'s>,
    listener: &mut L,
) -> Result<Timed, CheckFault>
    ensures ok { IfOk result (λ timed. IsHeardOf L.hears search.entry timed listener.old listener.new) }
    ensures err { IfErr result (IsOfListener L.refuses) }
{
    let source = search.source;
    let at_work = AtWork::new(ground.clock, source);
    let searched = ground.end(search);
    at_work.clear();
    let timed = searched?;
    listener.hear(alloc, source, &timed)?;
    Ok(timed)
}
