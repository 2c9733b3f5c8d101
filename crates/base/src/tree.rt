pub use crate::Op;
use crate::span::Span;

/// A name as it stands in a text: its letters, and where they are.
#[derive(PartialEq, Eq, Debug, Drop)]
pub struct Named {
    pub name: String,
    pub span: Span,
}

/// An expression.
#[derive(Drop)]
pub enum Expr {
    Num(u32),
    Name(Named),
    /// `me`, the number of the process.
    Me,
    /// `n`, how many processes there are.
    Count,
    Bin(Box<Expr>, Op, Box<Expr>),
}

/// A statement.
#[derive(Drop)]
pub enum Stmt {
    /// `target = expression;`
    Assign(Named, Expr),
    /// `target = get register process;`
    Get(Named, Named, Expr),
    /// `put register expression;`
    Put(Named, Expr),
    /// `stamp;`
    Stamp,
    /// `clear;`
    Clear,
    /// `target = scan;`
    Scan(Named),
    /// `target = copy source;`
    Copy(Named, Named),
    /// `target = older scan process process;`
    Older(Named, Named, Expr, Expr),
    /// `target = held scan process;`
    Held(Named, Named, Expr),
    /// `out expression;`
    Out(Expr),
    /// `if expression { .. } else { .. }`
    If(Expr, Vec<Stmt>, Vec<Stmt>),
    /// `while expression { .. }`
    While(Expr, Vec<Stmt>),
}

/// A program as it was written. Whether its names are declared, and fit where
/// they stand, it does not say.
#[derive(Drop)]
pub struct Tree {
    /// The number after `processes`, of any size.
    pub processes: u32,
    pub processes_span: Span,
    pub variables: Vec<Named>,
    pub scans: Vec<Named>,
    pub registers: Vec<Named>,
    pub body: Vec<Stmt>,
}
