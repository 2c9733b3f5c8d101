/// How the steps of a schedule are drawn.
#[derive(Clone, Copy, PartialEq, Eq, Debug)]
pub enum Mode {
    /// A process makes 1 to 16 steps in a row, each number as likely as the others; then the next process
    /// is drawn, which may be the same.
    Bursts,
    /// For each step a process is drawn.
    Uniform,
}

/// Which schedules are tried: so many, each of so many steps. Two that differ in the seed or in their
/// number have words of the generator of their own.
#[derive(Clone, Copy, PartialEq, Eq, Debug)]
pub struct Plan {
    pub seed: u64,
    pub runs: u32,
    pub steps: u32,
    pub mode: Mode,
}
