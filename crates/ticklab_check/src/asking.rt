ghost use Rattle.std.specs.Prelude.{◌≡◌};
ghost use Rattle.ticklab_check.specs.Checking.{asked_for, named_by, names_some};

use language_questions::{Ends, EndsLines};
use searches_explore::{Conditions, MustStop};

/// Who is asked for, under each condition, where the lines `#! ends` of a file name somebody.
pub fn asked_for(lines: EndsLines) -> Option<Conditions>
    ensures { result ≡ asked_for lines }
{
    let EndsLines {
        fair,
        wait_free,
        alone,
    } = lines;
    if names_some(fair) || names_some(wait_free) || names_some(alone) {
        return Some(Conditions {
            fair: named_by(fair),
            wait_free: named_by(wait_free),
            alone: named_by(alone),
        });
    }
    None
}

/// Whom a line names, where there is one.
pub fn named_by(line: Option<Ends>) -> MustStop
    ensures { result ≡ named_by line }
{
    match line {
        None | Some(Ends::Nobody) => MustStop::Each([false; 6]),
        Some(Ends::All) => MustStop::All,
        Some(Ends::Each(marks)) => MustStop::Each(marks),
    }
}

fn names_some(line: Option<Ends>) -> bool
    ensures { result ≡ names_some line }
{
    match line {
        None | Some(Ends::Nobody) => false,
        Some(Ends::All | Ends::Each(_)) => true,
    }
}
