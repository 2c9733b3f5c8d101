// What the items of a schedule may be, or those of stamps and clears.

/// What items may stand in a text.
#[derive(Clone, Copy)]
pub struct Items {
    /// How many processes there are.
    pub processes: u8,
    /// An item that begins with `c` takes tickets away.
    pub clears: bool,
}
