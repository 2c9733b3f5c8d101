//! What searches by merged steps answer of walkers, a plain search answers that knows nothing of them.
ghost use Rattle.std.specs.Prelude.{◌<◌};
ghost use Rattle.searches_states.specs.Answer.{IfNowhere};
ghost use Rattle.searches_states.specs.Graphs.{AreHeld, IsFrom};
ghost use Rattle.searches_states.specs.Merged.{merged_step};

use crate::plainly::{Plain, Told};
use crate::walkers::{Act, Acts};
use searches_fairness::{Liveness, search_fair};
use searches_progress::search_fair_merged;
use searches_states::{
    Graph, Limits, MOST_MERGED, Merged, MustStop, NoMemory, PrivateSteps, Unwatched, Verdict,
};
use searches_wait_free::{OwnSteps, Question, own_steps};
use std::alloc::Global;
use std::test::Fail;
use tests_shared::{holds, is_same};

static ACTS: [Act; 7] = [
    Act::GoOn,
    Act::Again,
    Act::Claim,
    Act::PassOn,
    Act::Await,
    Act::Retry,
    Act::Break,
];

// What is told of walkers: of their liveness, and for each question the first that goes on for ever.
#[derive(Clone, Copy, PartialEq, Eq, Debug)]
struct Answer {
    told: Told,
    not_free: Option<u8>,
    not_alone: Option<u8>,
}

// The same, and how many steps the longest cycle has that is told.
#[derive(Clone, Copy)]
struct Answered {
    answer: Answer,
    longest: usize,
}

// What is told where nothing is found out of the own steps.
fn bare(told: Told) -> Answer {
    Answer {
        told,
        not_free: None,
        not_alone: None,
    }
}

// What is told of their liveness, and how long the cycle is.
fn told_of(known: &Liveness) -> (Told, usize) {
    match known {
        Liveness::Stuck { cycle, .. } => (Told::Stuck, cycle.len()),
        Liveness::Endless { cycle, .. } => (Told::Endless, cycle.len()),
        Liveness::Ends => (Told::Ends, 0),
    }
}

// The walker that goes on for ever, and how long the cycle is.
fn own_of(known: &OwnSteps) -> (Option<u8>, usize) {
    match known {
        OwnSteps::Stop => (None, 0),
        OwnSteps::ForEver { process, cycle, .. } => (Some(*process), cycle.len()),
    }
}

// What a search came to, and what its graph shows. It sees all states.
fn answer_of<M: PrivateSteps>(
    alloc: Global,
    merged: &Merged<'_, M>,
    asked: MustStop,
    start: &[u32],
    found: Verdict<Vec<u8>, Liveness>,
    graph: &Graph,
) -> Result<Option<Answered>, NoMemory>
    requires fits { M.fits merged.now.machine.now start.now }
    requires held { IfNowhere found (λ _. AreHeld (M.processes merged.now.machine.now) (M.fits merged.now.machine.now) graph.now.states.states graph.now.edges) }
    requires values { IfNowhere found (λ _. IsFrom (M.processes merged.now.machine.now) (merged_step (M.next merged.now.machine.now) (M.private merged.now.machine.now) merged.now.most)
        (M.view merged.now.machine.now) (M.view merged.now.machine.now start.now) graph.now.states.states graph.now.edges) }
{
    match found {
        Verdict::Limit { .. } => Ok(None),
        Verdict::Found { .. } => Ok(Some(Answered {
            answer: bare(Told::Bad),
            longest: 0,
        })),
        Verdict::Nowhere { known, .. } => {
            let free = own_steps(alloc, merged, Question::WaitFree, asked, start, graph)?;
            let alone = own_steps(alloc, merged, Question::Alone, asked, start, graph)?;
            Ok(Some(together(told_of(&known), own_of(&free), own_of(&alone))))
        }
    }
}

fn together(
    told: (Told, usize),
    free: (Option<u8>, usize),
    alone: (Option<u8>, usize),
) -> Answered {
    Answered {
        answer: Answer {
            told: told.0,
            not_free: free.0,
            not_alone: alone.0,
        },
        longest: told.1.max(free.1).max(alone.1),
    }
}

fn marks(asked: [bool; 2]) -> MustStop {
    MustStop::Each([asked[0], asked[1], false, false, false, false])
}

// By merged steps.
fn by_merged_steps(
    alloc: Global,
    acts: &Acts,
    asked: [bool; 2],
) -> Result<Option<Answered>, NoMemory> {
    let (limits, asked) = (Limits::of_states(99), marks(asked));
    let start = [0, 0, 0];
    let (found, graph) = search_fair_merged(alloc, acts, asked, &start, limits, &mut Unwatched)?;
    let merged = Merged {
        machine: acts,
        most: MOST_MERGED,
    };
    answer_of(alloc, &merged, asked, &start, found, &graph)
}

// By merged steps that take no private one with them.
fn by_single_steps(
    alloc: Global,
    acts: &Acts,
    asked: [bool; 2],
) -> Result<Option<Answered>, NoMemory> {
    let (limits, asked) = (Limits::of_states(99), marks(asked));
    let start = [0, 0, 0];
    let singly = Merged {
        machine: acts,
        most: 0,
    };
    let (found, graph) = search_fair(alloc, &singly, asked, &start, limits, &mut Unwatched)?;
    answer_of(alloc, &singly, asked, &start, found, &graph)
}

// The first of those that are asked for of which it isn't so.
fn first_not(asked: [bool; 2], first: bool, second: bool) -> Option<u8> {
    if asked[0] && !first {
        return Some(0);
    }
    if asked[1] && !second {
        return Some(1);
    }
    None
}

// By the plain search.
fn plain_answer(plain: &Plain, asked: [bool; 2]) -> Answer {
    let told = plain.told(asked);
    if told == Told::Bad {
        return bare(told);
    }
    Answer {
        told,
        not_free: first_not(asked, plain.is_free(0), plain.is_free(1)),
        not_alone: first_not(asked, plain.stops_alone(0), plain.stops_alone(1)),
    }
}

// How often each answer was given: bad, stuck, endless, ends, and for each question that all stop, or not.
type Tally = [u32; 8];

fn add(tally: &mut Tally, kind: usize)
    requires { kind < 8 }
{
    tally[kind] = tally[kind].saturating_add(1);
}

fn count(tally: &mut Tally, answer: Answer) {
    let kind = match answer.told {
        Told::Bad => return add(tally, 0),
        Told::Stuck => 1,
        Told::Endless => 2,
        Told::Ends => 3,
    };
    add(tally, kind);
    add(tally, if answer.not_free.is_some() { 5 } else { 4 });
    add(tally, if answer.not_alone.is_some() { 7 } else { 6 });
}

// This is answered, in at most so many steps of a cycle: a walker that goes round by itself does so in three steps, though a
// merged step of it makes a thousand and one.
fn is_answer(found: Option<Answered>, wanted: Answer) -> Result<(), Fail> {
    let Some(found) = found else {
        return Err("a limit was met")?;
    };
    is_same(&found.answer, &wanted)?;
    holds(found.longest <= 60, found.longest)
}

// What both searches answer. Where memory was refused they are asked once more.
fn both(alloc: Global, acts: &Acts, asked: [bool; 2]) -> Result<[Option<Answered>; 2], NoMemory> {
    let merged = match by_merged_steps(alloc, acts, asked) {
        Err(NoMemory) => by_merged_steps(alloc, acts, asked)?,
        Ok(found) => found,
    };
    let single = match by_single_steps(alloc, acts, asked) {
        Err(NoMemory) => by_single_steps(alloc, acts, asked)?,
        Ok(found) => found,
    };
    Ok([merged, single])
}

// Whichever of them are asked for, both searches answer what the plain one does.
fn are_answers(alloc: Global, acts: Acts, tally: &mut Tally) -> Result<(), Fail> {
    let plain = Plain::new(acts);
    for asked in [[true, true], [true, false], [false, true]] {
        let wanted = plain_answer(&plain, asked);
        for found in both(alloc, &acts, asked)? {
            is_answer(found, wanted)?;
        }
        count(tally, wanted);
    }
    Ok(())
}

// All walkers that there are answer so, and each answer is seen.
#[test]
fn all_walkers(rt: HostRuntime) -> Result<(), Fail> {
    let mut tally = [0; 8];
    for first in ACTS {
        for second in ACTS {
            for third in ACTS {
                let acts = Acts {
                    first,
                    second,
                    third,
                };
                are_answers(rt.alloc(), acts, &mut tally)?;
            }
        }
    }
    for often in tally {
        holds(often >= 20, tally)?;
    }
    Ok(())
}
