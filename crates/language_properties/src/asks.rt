ghost use Rattle.std.specs.Prelude.{◌≡◌};
ghost use Rattle.language_properties.specs.Asking.{asks, is_of, is_order};
ghost use Rattle.language_properties.specs.Properties.{formula_of};

use crate::property::{Property, Question};

/// A part of what all can see of a state.
#[derive(Clone, Copy)]
pub enum Part {
    /// Who has ended or trapped.
    Statuses,
    /// Who holds a ticket, and which of two is older.
    Tickets,
    /// The registers of this row.
    Row(usize),
}

impl Part {
    // Whether this is asked of it.
    fn has(self, question: Question) -> bool
        ensures { result ≡ is_of self question }
    {
        match (self, question) {
            (Part::Row(row), Question::Row(r)) => r == row,
            (Part::Tickets, Question::Held) => true,
            (Part::Statuses, Question::Ended | Question::Trapped) => true,
            _ => false,
        }
    }

    // Whether the order of tickets belongs to it.
    fn has_order(self) -> bool
        ensures { result ≡ is_order self }
    {
        matches!(self, Part::Tickets)
    }
}

impl Property {
    /// Whether it asks for this part.
    pub fn asks(&self, part: Part) -> bool
        ensures { result ≡ asks part (formula_of self.now) }
    {
        match self {
            Property::Number(_) | Property::Count | Property::Bound(_) => false,
            Property::Of(question, process) => part.has(*question) || process.asks(part),
            Property::Older(left, right) => {
                part.has_order() || left.asks(part) || right.asks(part)
            }
            Property::Binary(left, _, right) | Property::Joined(left, _, right) => {
                left.asks(part) || right.asks(part)
            }
            Property::Not(body) | Property::Over(_, _, body) => body.asks(part),
        }
    }
}
