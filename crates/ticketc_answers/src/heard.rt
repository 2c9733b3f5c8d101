/// What came of words: an outcome, or the turns of the run on threads that they ask for. Nothing was read for that run,
/// nor written.
#[derive(Clone, Copy, Debug, PartialEq, Eq)]
pub enum Heard<T> {
    Served(T),
    /// So many turns, at most 1,000,000,000.
    Run(u64),
}
