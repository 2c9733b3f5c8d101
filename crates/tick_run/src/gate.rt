use code_machine::Ask;

/// What a worker calls on its own thread, once before each instruction that touches what all
/// processes share.
pub trait Gate: Drop {
    /// Process `p` is about to make this step.
    fn before(&mut self, p: u8, ask: Ask);
}
