// The printed form of a tree: its tokens in order, each with the byte that
// follows it, all written to the end of one buffer.
ghost use Rattle.std.specs.Prelude.{◌≡◌, ℕ, List, ◌++◌, ◌∷◌, [], map, OnOk, IfOk, IfErr, string_bytes};
ghost use Rattle.tick_syntax.specs.Lexeme.{a_name, a_number, a_terminal};
ghost use Rattle.base.specs.Plain.{copy, older, name_of, expression_of, statement_of, block_of, tree_of};
ghost use Rattle.tick_syntax.specs.Grammar.{expression_tokens, in_braces, statement_tokens, block_tokens, section_tokens};
ghost use Rattle.tick_syntax.specs.Printed.{after_terminal, printed_token, printed_tokens, printed};
ghost use Rattle.tick_syntax.specs.prover.Printing.{more_names, declaration_tokens};
ghost use Rattle.tick_syntax.specs.RoundTrip.{IsTextOf, ReadsAs};

use crate::fault::TextFault;
use crate::terminals::Terminal;
use base::tree::{Expr, Named, Stmt, Tree};
use std::alloc::{AllocError, Global};

fn after(terminal: Terminal) -> &'static str
    ensures { result.now ≡ after_terminal terminal ∷ [] }
{
    match terminal {
        Terminal::Semicolon
        | Terminal::OpenBrace
        | Terminal::CloseBrace
        | Terminal::Begin
        | Terminal::End => "\n",
        _ => " ",
    }
}

fn push_terminal(out: &mut String, terminal: Terminal) -> Result<(), AllocError>
    ensures { OnOk result (string_bytes out.new ≡ string_bytes out.old ++ printed_token (a_terminal terminal)) }
{
    out.push_str(terminal.text())?;
    out.push_str(after(terminal))
}

fn push_name(out: &mut String, name: &Named) -> Result<(), AllocError>
    ensures { OnOk result (string_bytes out.new ≡ string_bytes out.old ++ printed_token (a_name (name_of name.now))) }
{
    out.push_str(&name.name)?;
    out.push_str(" ")
}

fn push_number(out: &mut String, value: u32) -> Result<(), AllocError>
    ensures { OnOk result (string_bytes out.new ≡ string_bytes out.old ++ printed_token (a_number value)) }
{
    write!(out, "{value} ")
}

fn push_expression(out: &mut String, expression: &Expr) -> Result<(), AllocError>
    ensures { OnOk result (string_bytes out.new ≡ string_bytes out.old ++ printed_tokens (expression_tokens (expression_of expression.now))) }
{
    match expression {
        Expr::Num(value) => push_number(out, *value),
        Expr::Name(name) => push_name(out, name),
        Expr::Me => push_terminal(out, Terminal::Me),
        Expr::Count => push_terminal(out, Terminal::Count),
        Expr::Bin(left, op, right) => {
            push_terminal(out, Terminal::Open)?;
            push_expression(out, left)?;
            push_terminal(out, Terminal::Operator(*op))?;
            push_expression(out, right)?;
            push_terminal(out, Terminal::Close)
        }
    }
}

/// An expression and the `;` after it.
fn push_last(out: &mut String, expression: &Expr) -> Result<(), AllocError>
    ensures { OnOk result (string_bytes out.new ≡ string_bytes out.old ++ printed_tokens (expression_tokens (expression_of expression.now) ++ a_terminal Terminal.Semicolon ∷ [])) }
{
    push_expression(out, expression)?;
    push_terminal(out, Terminal::Semicolon)
}

/// The name that takes a value, and `=`.
fn push_target(out: &mut String, name: &Named) -> Result<(), AllocError>
    ensures { OnOk result (string_bytes out.new ≡ string_bytes out.old ++ printed_tokens (a_name (name_of name.now) ∷ a_terminal Terminal.Becomes ∷ [])) }
{
    push_name(out, name)?;
    push_terminal(out, Terminal::Becomes)
}

/// A keyword that is a statement, or the end of one, and the `;` after it.
fn push_ended(out: &mut String, keyword: Terminal) -> Result<(), AllocError>
    ensures { OnOk result (string_bytes out.new ≡ string_bytes out.old ++ printed_tokens (a_terminal keyword ∷ a_terminal Terminal.Semicolon ∷ [])) }
{
    push_terminal(out, keyword)?;
    push_terminal(out, Terminal::Semicolon)
}

/// `x = get r e;` or `x = held s e;`, by its keyword.
fn push_asked(
    out: &mut String,
    target: &Named,
    keyword: Terminal,
    asked: &Named,
    process: &Expr,
) -> Result<(), AllocError>
    ensures { OnOk result (string_bytes out.new ≡ string_bytes out.old ++ printed_tokens (a_name (name_of target.now) ∷ a_terminal Terminal.Becomes ∷ a_terminal keyword ∷ a_name (name_of asked.now) ∷ (expression_tokens (expression_of process.now) ++ a_terminal Terminal.Semicolon ∷ []))) }
{
    push_target(out, target)?;
    push_terminal(out, keyword)?;
    push_name(out, asked)?;
    push_last(out, process)
}

/// `t = copy s;`.
fn push_copy(out: &mut String, target: &Named, source: &Named) -> Result<(), AllocError>
    ensures { OnOk result (string_bytes out.new ≡ string_bytes out.old ++ printed_tokens (statement_tokens (copy (name_of target.now) (name_of source.now)))) }
{
    push_target(out, target)?;
    push_terminal(out, Terminal::Copy)?;
    push_name(out, source)?;
    push_terminal(out, Terminal::Semicolon)
}

/// `x = older s e f;`.
fn push_older(
    out: &mut String,
    target: &Named,
    scan: &Named,
    first: &Expr,
    second: &Expr,
) -> Result<(), AllocError>
    ensures { OnOk result (string_bytes out.new ≡ string_bytes out.old ++ printed_tokens (statement_tokens (older (name_of target.now) (name_of scan.now) (expression_of first.now) (expression_of second.now)))) }
{
    push_target(out, target)?;
    push_terminal(out, Terminal::Older)?;
    push_name(out, scan)?;
    push_expression(out, first)?;
    push_last(out, second)
}

#[cycle(statement)]
fn push_statement(out: &mut String, statement: &Stmt) -> Result<(), AllocError>
    ensures { OnOk result (string_bytes out.new ≡ string_bytes out.old ++ printed_tokens (statement_tokens (statement_of statement.now))) }
{
    match statement {
        Stmt::Assign(target, value) => {
            push_target(out, target)?;
            push_last(out, value)
        }
        Stmt::Get(target, row, process) => push_asked(out, target, Terminal::Get, row, process),
        Stmt::Put(register, value) => {
            push_terminal(out, Terminal::Put)?;
            push_name(out, register)?;
            push_last(out, value)
        }
        Stmt::Stamp => push_ended(out, Terminal::Stamp),
        Stmt::Clear => push_ended(out, Terminal::Clear),
        Stmt::Scan(target) => {
            push_target(out, target)?;
            push_ended(out, Terminal::Scan)
        }
        Stmt::Copy(target, source) => push_copy(out, target, source),
        Stmt::Older(target, scan, first, second) => { push_older(out, target, scan, first, second) }
        Stmt::Held(target, scan, process) => push_asked(out, target, Terminal::Held, scan, process),
        Stmt::Out(value) => {
            push_terminal(out, Terminal::Out)?;
            push_last(out, value)
        }
        Stmt::If(condition, then, otherwise) => {
            push_terminal(out, Terminal::If)?;
            push_expression(out, condition)?;
            push_braces(out, then)?;
            push_terminal(out, Terminal::Else)?;
            push_braces(out, otherwise)
        }
        Stmt::While(condition, body) => {
            push_terminal(out, Terminal::While)?;
            push_expression(out, condition)?;
            push_braces(out, body)
        }
    }
}

/// A block in its braces.
#[cycle(statement)]
fn push_braces(out: &mut String, block: &Vec<Stmt>) -> Result<(), AllocError>
    ensures { OnOk result (string_bytes out.new ≡ string_bytes out.old ++ printed_tokens (in_braces (block_tokens (block_of block.now.items)))) }
{
    push_terminal(out, Terminal::OpenBrace)?;
    push_block(out, block)?;
    push_terminal(out, Terminal::CloseBrace)
}

#[cycle(statement)]
fn push_block(out: &mut String, block: &Vec<Stmt>) -> Result<(), AllocError>
    ensures { OnOk result (string_bytes out.new ≡ string_bytes out.old ++ printed_tokens (block_tokens (block_of block.now.items))) }
{
    for statement in block {
        push_statement(out, statement)?;
    }
    Ok(())
}

/// Names, each with a comma before it.
fn push_more_names(out: &mut String, names: &[Named]) -> Result<(), AllocError>
    ensures { OnOk result (string_bytes out.new ≡ string_bytes out.old ++ printed_tokens (more_names (map name_of names.now))) }
{
    for name in names {
        push_terminal(out, Terminal::Comma)?;
        push_name(out, name)?;
    }
    Ok(())
}

/// A section of declarations, or nothing where it has no names.
fn push_section(out: &mut String, section: Terminal, names: &[Named]) -> Result<(), AllocError>
    ensures { OnOk result (string_bytes out.new ≡ string_bytes out.old ++ printed_tokens (section_tokens section (map name_of names.now))) }
{
    let [first, others @ ..] = names else {
        return Ok(());
    };
    push_terminal(out, section)?;
    push_name(out, first)?;
    push_more_names(out, others)?;
    push_terminal(out, Terminal::Semicolon)
}

/// The number of processes.
fn push_head(out: &mut String, processes: u32) -> Result<(), AllocError>
    ensures { OnOk result (string_bytes out.new ≡ string_bytes out.old ++ printed_tokens (a_terminal Terminal.Processes ∷ a_number processes ∷ a_terminal Terminal.Semicolon ∷ [])) }
{
    push_terminal(out, Terminal::Processes)?;
    push_number(out, processes)?;
    push_terminal(out, Terminal::Semicolon)
}

/// The three sections of declarations.
fn push_declarations(out: &mut String, tree: &Tree) -> Result<(), AllocError>
    ensures { OnOk result (string_bytes out.new ≡ string_bytes out.old ++ printed_tokens (declaration_tokens (tree_of tree.now))) }
{
    push_section(out, Terminal::Var, &tree.variables)?;
    push_section(out, Terminal::Scan, &tree.scans)?;
    push_section(out, Terminal::Reg, &tree.registers)
}

/// The statements of the program between `begin` and `end`.
fn push_body(out: &mut String, body: &Vec<Stmt>) -> Result<(), AllocError>
    ensures { OnOk result (string_bytes out.new ≡ string_bytes out.old ++ printed_tokens (a_terminal Terminal.Begin ∷ (block_tokens (block_of body.now.items) ++ a_terminal Terminal.End ∷ []))) }
{
    push_terminal(out, Terminal::Begin)?;
    push_block(out, body)?;
    push_terminal(out, Terminal::End)
}

/// The tree as a text: its tokens in order, numbers in decimal without leading
/// zeros, a section without names left out. A line feed follows each `;`, `{`,
/// `}`, `begin` and `end`, and a space each other token.
///
/// The text of a tree that some text gave reads back as that tree, places
/// aside, and as no other.
///
/// The only error is `NoMemory`. The call goes as deep as the tree's brackets:
/// at most 64 for a tree that a text gave, while a tree that was built by hand
/// is as deep as its builder made it.
pub fn print(alloc: Global, tree: &Tree) -> Result<String, TextFault>
    ensures ok { IfOk result (λ text. string_bytes text ≡ printed (tree_of tree.now)) }
    ensures err { IfErr result (λ fault. fault ≡ TextFault.NoMemory) }
    ensures reads_back { (origin : List ℕ) → IsTextOf origin (tree_of tree.now) → IfOk result (λ text. ReadsAs (string_bytes text) (tree_of tree.now)) }
{
    let mut out = String::new(alloc);
    push_head(&mut out, tree.processes)?;
    push_declarations(&mut out, tree)?;
    push_body(&mut out, &tree.body)?;
    Ok(out)
}
