/// What a process does with its ticket.
#[derive(Clone, Copy, PartialEq, Eq, Debug)]
pub enum Move {
    /// This process takes the ticket one above the greatest.
    Stamp(u8),
    /// This process gives its ticket up.
    Clear(u8),
}
