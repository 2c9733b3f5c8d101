/// What came of one call of an end.
#[derive(Clone, Copy, Debug, PartialEq, Eq)]
pub enum Transfer {
    /// So many bytes were moved. None, where there was room for some, is the end of an input.
    Moved(usize),
    /// Nothing was moved, and the call may be made again.
    Interrupted,
    /// Nothing was moved.
    Failed,
}
