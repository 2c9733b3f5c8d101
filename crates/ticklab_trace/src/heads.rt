//! The tokens that the statements of a program begin with.

ghost use Rattle.std.specs.Prelude.{◌≡◌, ◌++◌, ◌*◌, ◌+◌, IfOk, OnOk, drop, length};
ghost use Rattle.tick_syntax.specs.Grammar.{block_tokens, expression_tokens, statement_tokens};
ghost use Rattle.base.specs.View.{block_of, expression_of, statement_of};
ghost use Rattle.ticklab_trace.specs.Places.{extent, head_tokens, heads, opening_tokens, statement_heads};
ghost use Rattle.ticklab_trace.specs.prover.Heads.{names_count, whole_heads};

use base::span::Span;
use base::tree::{Expr, Stmt};
use std::alloc::{AllocError, Global};
use tick_kinds::Program;
use tick_syntax::token::Token;

/// Where the head of each statement stands, in the order of the text, whose tokens these are: what it has
/// up to its block or its end.
pub fn heads(alloc: Global, program: &Program, tokens: &[Token]) -> Result<Vec<Span>, AllocError>
    ensures { IfOk result (λ spans. spans.items ≡ statement_heads tokens.now program.now) }
{
    let mut spans = Vec::new(alloc);
    add_block(
        &mut spans,
        &program.tree().body,
        past_opening(tokens, program),
    )?;
    Ok(spans)
}

// Adds those of a block, whose tokens are the first of these, and answers the tokens after it.
#[cycle(adding)]
fn add_block<'a>(
    spans: &mut Vec<Span>,
    block: &[Stmt],
    tokens: &'a [Token],
) -> Result<&'a [Token], AllocError>
    ensures after { IfOk result (λ rest. rest.now ≡ drop (length (block_tokens (block_of block.now))) tokens.now) }
    ensures spans { OnOk result (spans.new.items ≡ spans.old.items ++ heads tokens.now (block_of block.now)) }
{
    let mut rest = tokens;
    for statement in block {
        rest = add(spans, statement, rest)?;
    }
    Ok(rest)
}

// The same of a statement, with those of its blocks.
#[cycle(adding)]
fn add<'a>(
    spans: &mut Vec<Span>,
    statement: &Stmt,
    tokens: &'a [Token],
) -> Result<&'a [Token], AllocError>
    ensures after { IfOk result (λ rest. rest.now ≡ drop (length (statement_tokens (statement_of statement.now))) tokens.now) }
    ensures spans { OnOk result (spans.new.items ≡ spans.old.items ++ whole_heads tokens.now (statement_of statement.now)) }
{
    let rest = past_head(tokens, statement);
    spans.push(extent(&tokens[..tokens.len() - rest.len()]))?;
    match statement {
        Stmt::If(_, then, otherwise) => {
            let between = add_block(spans, then, past(rest, 1))?;
            let end = add_block(spans, otherwise, past_else(between))?;
            Ok(past(end, 1))
        }
        Stmt::While(_, body) => {
            let end = add_block(spans, body, past(rest, 1))?;
            Ok(past(end, 1))
        }
        Stmt::Assign(_, _)
        | Stmt::Get(_, _, _)
        | Stmt::Put(_, _)
        | Stmt::Stamp
        | Stmt::Clear
        | Stmt::Scan(_)
        | Stmt::Copy(_, _)
        | Stmt::Older(_, _, _, _)
        | Stmt::Held(_, _, _)
        | Stmt::Out(_) => Ok(rest),
    }
}

// From the first of some tokens to the last.
fn extent(tokens: &[Token]) -> Span
    ensures { result ≡ extent tokens.now }
{
    match (tokens.first(), tokens.last()) {
        (Some(first), Some(last)) => Span {
            start: first.span.start,
            end: last.span.end,
        },
        _ => Span { start: 0, end: 0 },
    }
}

// What follows the tokens of a program before its body.
fn past_opening<'a>(tokens: &'a [Token], program: &Program) -> &'a [Token]
    ensures { result.now ≡ drop (length (opening_tokens program.now)) tokens.now }
{
    let rest = past_names(past(tokens, 3), program.variables());
    let rest = past_names(rest, program.scans());
    past(past_names(rest, program.registers()), 1)
}

// What follows a section of so many names.
fn past_names(tokens: &[Token], count: u8) -> &[Token]
    ensures { result.now ≡ drop (names_count count) tokens.now }
{
    if count == 0 {
        tokens
    } else {
        past(tokens, 2 * usize::from(count) + 1)
    }
}

// What follows the head of a statement.
fn past_head<'a>(tokens: &'a [Token], statement: &Stmt) -> &'a [Token]
    ensures { result.now ≡ drop (length (head_tokens (statement_of statement.now))) tokens.now }
{
    match statement {
        Stmt::Assign(_, e) | Stmt::Put(_, e) => past_last(past(tokens, 2), e),
        Stmt::Get(_, _, e) | Stmt::Held(_, _, e) => past_last(past(tokens, 4), e),
        Stmt::Stamp | Stmt::Clear => past(tokens, 2),
        Stmt::Scan(_) => past(tokens, 4),
        Stmt::Copy(_, _) => past(tokens, 5),
        Stmt::Older(_, _, first, second) => past_last(
            past_expression(past(tokens, 4), first),
            second,
        ),
        Stmt::Out(e) => past_last(past(tokens, 1), e),
        Stmt::If(e, _, _) | Stmt::While(e, _) => past_expression(past(tokens, 1), e),
    }
}

// What follows an expression and its `;`.
fn past_last<'a>(tokens: &'a [Token], e: &Expr) -> &'a [Token]
    ensures { result.now ≡ drop (length (expression_tokens (expression_of e.now)) + 1) tokens.now }
{
    past(past_expression(tokens, e), 1)
}

// What follows an expression.
fn past_expression<'a>(tokens: &'a [Token], e: &Expr) -> &'a [Token]
    ensures { result.now ≡ drop (length (expression_tokens (expression_of e.now))) tokens.now }
{
    match e {
        Expr::Bin(left, _, right) => {
            let between = past_expression(past(tokens, 1), left);
            past(past_expression(past(between, 1), right), 1)
        }
        _ => past(tokens, 1),
    }
}

// What follows the end of a block, `else` and the begin of the next block.
fn past_else(between: &[Token]) -> &[Token]
    ensures { result.now ≡ drop 3 between.now }
{
    past(between, 3)
}

// What follows so many tokens.
fn past(tokens: &[Token], count: usize) -> &[Token]
    ensures { result.now ≡ drop count tokens.now }
{
    &tokens[count.min(tokens.len())..]
}
