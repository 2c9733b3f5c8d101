use base::Op;

/// What is asked of one process.
#[derive(Clone, Copy)]
pub enum Question {
    /// The value of its register in this row, counted from 0.
    Row(usize),
    /// Whether it holds a ticket.
    Held,
    /// Whether it has ended.
    Ended,
    /// Whether it has trapped.
    Trapped,
}

/// How two properties are joined. The second is looked at only where the first doesn't decide.
#[derive(Clone, Copy)]
pub enum Junction {
    And,
    Or,
}

/// What is made of the values that a property has for each process, in order.
#[derive(Clone, Copy)]
pub enum Quantifier {
    /// Whether one isn't 0.
    Some,
    /// Whether none is 0.
    All,
    /// Their sum.
    Sum,
}

/// A property of a state. Its value is a number; as an answer 0 is no, and any other is yes.
#[derive(Drop)]
pub enum Property {
    Number(u32),
    /// `n`, how many processes there are.
    Count,
    /// The process that a quantifier of this number goes through, of 8 numbers from 0.
    Bound(usize),
    /// What is asked of the process of this number.
    Of(Question, Box<Property>),
    /// Whether the ticket of the first process is older than that of the second.
    Older(Box<Property>, Box<Property>),
    Binary(Box<Property>, Op, Box<Property>),
    Joined(Box<Property>, Junction, Box<Property>),
    Not(Box<Property>),
    /// A quantifier, its number, and the property that it is of.
    Over(Quantifier, usize, Box<Property>),
}
