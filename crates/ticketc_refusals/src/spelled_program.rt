use tick_kinds::Program;
use tick_syntax::token::Token;

/// An accepted program, with the tokens of its text in their order.
#[derive(Drop)]
pub struct SpelledProgram {
    pub program: Program,
    pub tokens: Vec<Token>,
}
