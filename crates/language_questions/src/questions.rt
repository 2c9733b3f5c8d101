ghost use Rattle.std.specs.Prelude.{◌≡◌};

use base::span::Span;
use language_properties::Property;

/// Which processes a line asks whether they end.
#[derive(Clone, Copy)]
pub enum Ends {
    /// Each process.
    All,
    Nobody,
    /// Those at whose number there is a `true`.
    Each([bool; 6]),
}

/// Under which schedules processes are asked whether they end.
#[derive(Clone, Copy, PartialEq, Eq, Debug)]
pub enum Condition {
    /// Under each in which each process that runs steps again and again.
    Fair,
    /// Under each in which they step again and again themselves, though others stop anywhere.
    WaitFree,
    /// Once they step alone, from wherever.
    Alone,
}

/// A line `#! ends`.
#[derive(Clone, Copy)]
pub struct EndsLine {
    pub asked: Ends,
    pub condition: Condition,
}

/// Who is asked by the lines `#! ends` of a file: of each condition there is at most one.
#[derive(Clone, Copy)]
pub struct EndsLines {
    pub fair: Option<Ends>,
    pub wait_free: Option<Ends>,
    pub alone: Option<Ends>,
}

impl EndsLines {
    ghost use Rattle.language_questions.specs.Ends.{with_line};

    /// The same with this line, if there is none of its condition yet.
    pub fn with(self, line: EndsLine) -> Option<EndsLines>
        ensures { result ≡ with_line self line }
    {
        let asked = Some(line.asked);
        match line.condition {
            Condition::Fair if self.fair.is_none() => Some(EndsLines {
                fair: asked,
                ..self
            }),
            Condition::WaitFree if self.wait_free.is_none() => Some(EndsLines {
                wait_free: asked,
                ..self
            }),
            Condition::Alone if self.alone.is_none() => Some(EndsLines {
                alone: asked,
                ..self
            }),
            _ => None,
        }
    }
}

/// What an author says of a program.
#[derive(Clone, Copy, PartialEq, Eq)]
pub enum Expected {
    /// None of the others.
    Safe,
    /// A process traps.
    Trap,
    /// A line `#! never` breaks.
    Never,
    /// Those asked for don't end.
    Stuck,
    /// One that is asked for doesn't end by its own steps, where others stop somewhere.
    NotWaitFree,
    /// One that is asked for doesn't end once it steps alone.
    NotAlone,
}

/// A line `#! never`.
#[derive(Drop)]
pub struct NeverLine {
    pub property: Property,
    /// Where the text of the property stands.
    pub span: Span,
}

/// What the lines of a file ask.
#[derive(Drop)]
pub struct Questions {
    /// The lines `#! never`, in order.
    pub never: Vec<NeverLine>,
    /// The lines `#! ends`.
    pub ends: EndsLines,
    /// The line `#! expect`, if there is one.
    pub expected: Option<Expected>,
}
