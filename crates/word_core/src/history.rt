// Steps of threads on the shared label word and registers, one after the other.

/// One step on shared words: whose it is, and what it did and found.
#[derive(Clone, Copy, PartialEq, Eq, Debug)]
pub struct Shared {
    pub process: u8,
    pub act: SharedAct,
}

/// What a step did and found. Words are as `LabelWord::bits` gives them.
#[derive(Clone, Copy, PartialEq, Eq, Debug)]
pub enum SharedAct {
    /// The word was read: the word found.
    Load(u64),
    /// The word was exchanged: the word found, and the one that took its place.
    Won(u64, u64),
    /// The word was not exchanged, since it was another: the word looked for, and the one found.
    Lost(u64, u64),
    /// A register was read: its row, whose it is, and the value found.
    Read(u8, u8, u32),
    /// The process wrote its register of this row: the row and the value.
    Write(u8, u32),
    /// The process gave its label up: the word found.
    Clear(u64),
}
