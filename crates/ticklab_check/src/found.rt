ghost use Rattle.std.specs.Prelude.{◌≡◌};
ghost use Rattle.ticklab_check.specs.Words.{found_word, states_of};

/// What a search of a program finds.
#[derive(Clone, Copy, PartialEq, Eq, Debug)]
pub enum Found {
    /// No process traps and no line `#! never` breaks, and nobody is asked whether it ends. There are so many merged
    /// states, as in what follows.
    Safe { states: u32 },
    /// The same, and those asked for end, each under its condition.
    Ends { states: u32 },
    /// A process traps.
    Trap,
    /// A line `#! never` breaks.
    Never,
    /// No process traps and no line breaks, but after some schedule those asked for can't all end.
    Stuck { states: u32 },
    /// The same, and they always can; but under some endless schedule, in which each process that runs steps again and
    /// again, they don't.
    Endless { states: u32 },
    /// The same, and they do. But where others stop somewhere, one that is asked for doesn't end by its own steps.
    NotWaitFree { states: u32 },
    /// The same, and none does that. But one that is asked for doesn't end once it steps alone.
    NotAlone { states: u32 },
    /// A limit is met: there are more states than this.
    Limit { states: u32 },
}

/// The word for it.
pub fn found_word(found: Found) -> &'static str
    ensures { result.now ≡ found_word found }
{
    match found {
        Found::Safe { .. } | Found::Ends { .. } => "safe",
        Found::Trap => "trap",
        Found::Never => "never",
        Found::Stuck { .. } => "stuck",
        Found::Endless { .. } => "endless",
        Found::NotWaitFree { .. } => "not_wait_free",
        Found::NotAlone { .. } => "not_alone",
        Found::Limit { .. } => "limit",
    }
}

/// How many merged states there are, where that is known.
pub fn states_of(found: Found) -> Option<u32>
    ensures { result ≡ states_of found }
{
    match found {
        Found::Trap | Found::Never => None,
        Found::Safe { states }
        | Found::Ends { states }
        | Found::Stuck { states }
        | Found::Endless { states }
        | Found::NotWaitFree { states }
        | Found::NotAlone { states }
        | Found::Limit { states } => Some(states),
    }
}
