use base::tree::Op;

/// An expression with its variables by number.
#[derive(Drop)]
pub enum Expression {
    Number(u32),
    Variable(u8),
    /// The number of the process.
    Me,
    /// How many processes there are.
    Count,
    Binary(Box<Expression>, Op, Box<Expression>),
}

/// A statement with its names by number: variables, scans and register rows each count from 0 in the
/// order in which they are declared.
#[derive(Drop)]
pub enum Statement {
    /// A variable and its new value.
    Assign(u8, Expression),
    /// A variable, the register row that is read, and the process whose register it is.
    Get(u8, u8, Expression),
    /// A register row and the new value.
    Put(u8, Expression),
    Stamp,
    Clear,
    /// The scan that the tickets are read into.
    Scan(u8),
    /// The scan that is written, and the one that is read.
    Copy(u8, u8),
    /// A variable, a scan, and the two processes whose tickets are compared.
    Older(u8, u8, Expression, Expression),
    /// A variable, a scan, and the process whose ticket is looked for.
    Held(u8, u8, Expression),
    Out(Expression),
    If(Expression, Vec<Statement>, Vec<Statement>),
    While(Expression, Vec<Statement>),
}
