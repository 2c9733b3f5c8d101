ghost use Rattle.std.specs.Prelude.{◌≡◌, IfOk, OnOk, min, slice_get};
ghost use Rattle.tick_kinds.specs.Resolved.{resolved_block, resolved_statement};
ghost use Rattle.tick_source.specs.Values.{value};
ghost use Rattle.ticklab_trace.specs.Numbers.{size, size_of};
ghost use Rattle.ticklab_trace.specs.prover.Links.{Adds, AddsOne, Begins, IsTable, is_past, is_zero, went};
ghost use Rattle.ticklab_trace.specs.StatementSteps.{taken_by, target};

use crate::steps::Scanned;
use base::{NoMemory, Trap};
use std::alloc::{AllocError, Global};
use tick_kinds::resolved::{Expression, Statement};
use tick_source::value_of;

/// A statement, and the numbers of what may come after it.
#[derive(Clone, Copy)]
pub struct Link<'a> {
    pub statement: &'a Statement,
    /// Where its test is 0.
    pub past: usize,
    /// Else, and where it has no test.
    pub next: usize,
}

/// A link for each statement, in the order of the text. The number past the last is that of the end.
pub fn links<'a>(alloc: Global, body: &'a [Statement]) -> Result<Vec<Link<'a>>, NoMemory>
    ensures { IfOk result (λ links. IsTable (resolved_block body.now) links.items) }
{
    let mut links = Vec::new(alloc);
    add_block(&mut links, body, size(body))?;
    Ok(links)
}

// Links for the statements of a block, after which a process goes on at `after`.
#[cycle(adding)]
fn add_block<'a>(
    links: &mut Vec<Link<'a>>,
    block: &'a [Statement],
    after: usize,
) -> Result<(), AllocError>
    ensures { OnOk result (Adds (resolved_block block.now) after links.old.items links.new.items) }
{
    let mut left = block.len();
    for statement in block {
        left -= 1;
        let end = links.len().saturating_add(size_of(statement));
        let next = if left == 0 { after } else { end };
        add(links, statement, next)?;
    }
    Ok(())
}

// The link of a statement, after which a process goes on at `after`, and those of its blocks.
#[cycle(adding)]
fn add<'a>(
    links: &mut Vec<Link<'a>>,
    statement: &'a Statement,
    after: usize,
) -> Result<(), AllocError>
    ensures { OnOk result (AddsOne (resolved_statement statement.now) after links.old.items links.new.items) }
{
    let here = links.len();
    let first = here.saturating_add(1);
    match statement {
        Statement::If(_, then_block, else_block) => {
            let second = first.saturating_add(size(then_block));
            links.push(Link {
                statement,
                next: begin(then_block, first, after),
                past: begin(else_block, second, after),
            })?;
            add_block(links, then_block, after)?;
            add_block(links, else_block, after)?;
        }
        Statement::While(_, block) => {
            links.push(Link {
                statement,
                next: begin(block, first, here),
                past: after,
            })?;
            add_block(links, block, here)?;
        }
        _ => {
            links.push(Link {
                statement,
                next: after,
                past: after,
            })?;
        }
    }
    Ok(())
}

// Where a block begins: at its first statement, or past it.
fn begin(block: &[Statement], first: usize, after: usize) -> usize
    ensures { Begins (resolved_block block.now) first after result }
{
    if block.is_empty() { after } else { first }
}

// How many statements a block has, with those inside, counted up to the greatest number that fits.
#[cycle(sizes)]
fn size(block: &[Statement]) -> usize
    ensures { result ≡ min (size (resolved_block block.now)) 18446744073709551615 }
{
    let mut count = 0_usize;
    for statement in block {
        count = count.saturating_add(size_of(statement));
    }
    count
}

#[cycle(sizes)]
fn size_of(statement: &Statement) -> usize
    ensures { result ≡ min (size_of (resolved_statement statement.now)) 18446744073709551615 }
{
    match statement {
        Statement::If(_, then_block, else_block) => size(then_block)
            .saturating_add(size(else_block))
            .saturating_add(1),
        Statement::While(_, block) => size(block).saturating_add(1),
        _ => 1,
    }
}

/// The number that comes after this one in process `p` of `n` with these variables.
pub fn following(links: &[Link<'_>], number: usize, n: u8, p: u8, variables: &[u32]) -> usize
    ensures { result ≡ went n p variables.now number (slice_get links.now number) }
{
    match links.get(number) {
        None => number,
        Some(link) => {
            if is_past(link.statement, n, p, variables) {
                link.past
            } else {
                link.next
            }
        }
    }
}

// Whether the test of a statement is 0.
fn is_past(statement: &Statement, n: u8, p: u8, variables: &[u32]) -> bool
    ensures { result ≡ is_past n p variables.now (resolved_statement statement.now) }
{
    match statement {
        Statement::If(test, _, _) => is_zero(value_of(n, p, variables, test)),
        Statement::While(test, _) => is_zero(value_of(n, p, variables, test)),
        _ => false,
    }
}

fn is_zero(value: Result<u32, Trap>) -> bool
    ensures { result ≡ is_zero value }
{
    match value {
        Ok(value) => value == 0,
        Err(_) => false,
    }
}

/// The variable that a statement writes.
pub fn target(statement: &Statement) -> Option<u8>
    ensures { result ≡ target (resolved_statement statement.now) }
{
    match statement {
        Statement::Assign(x, _) => Some(*x),
        Statement::Get(x, _, _) => Some(*x),
        Statement::Older(x, _, _, _) => Some(*x),
        Statement::Held(x, _, _) => Some(*x),
        _ => None,
    }
}

/// The scan that a statement takes or copies.
pub fn taken_by(statement: &Statement) -> Option<Scanned>
    ensures { result ≡ taken_by (resolved_statement statement.now) }
{
    match statement {
        Statement::Scan(scan) => Some(Scanned {
            scan: *scan,
            of: None,
        }),
        Statement::Copy(scan, of) => Some(Scanned {
            scan: *scan,
            of: Some(*of),
        }),
        _ => None,
    }
}
