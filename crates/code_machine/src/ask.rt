use base::Event;
use word_core::LabelWord;

/// What a process wants of the words that all processes share.
#[derive(Clone, Copy, PartialEq, Eq, Debug)]
pub enum Ask {
    /// The labels, for its scratch.
    LoadWord,
    /// The labels, for a scan.
    Scan,
    /// Where the shared labels are the first, they become the second.
    Exchange(LabelWord, LabelWord),
    /// The value in a register row of a process.
    Get(u8, u8),
    /// A value goes into its own register of a row.
    Put(u8, u32),
    /// Its own label is taken from the labels.
    Clear,
}

/// What the shared words answered.
#[derive(Clone, Copy, PartialEq, Eq, Debug)]
pub enum Reply {
    /// The labels that were there.
    Word(LabelWord),
    /// The labels were the first, and became the second.
    Won,
    /// These labels were there, other than the first, and stayed.
    Lost(LabelWord),
    /// The value of the register.
    Value(u32),
    /// The value was written.
    Written,
    /// The label is gone.
    Cleared,
}

/// What became of the next instruction of a process.
#[derive(Clone, Copy, PartialEq, Eq, Debug)]
pub enum Advance {
    /// It was made, and nobody sees it.
    Silent,
    /// It was made, and this is what others see.
    Did(Event),
    /// It waits for the answer to this.
    Ask(Ask),
    /// The process has stopped.
    Stopped,
}
