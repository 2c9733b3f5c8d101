//! Where the statements of a program stand in its text.

ghost use Rattle.std.specs.Prelude.{◌≡◌, ◌<◌, ◌≤◌, IfOk, length, slice_range};
ghost use Rattle.tick_syntax.specs.Spelling.{Spells};
ghost use Rattle.ticklab_trace.specs.Places.{Stand, first_line, next_place};
ghost use Rattle.ticklab_trace.specs.prover.Heads.{HasPassed, IsCut};

use crate::heads::heads;
use base::NoMemory;
use base::span::Span;
use std::alloc::Global;
use tick_kinds::Program;
use tick_syntax::token::Token;

/// A statement as it stands in a text.
#[derive(Clone, Copy)]
pub struct StatementPlace<'a> {
    /// Its line, from 1.
    pub line: usize,
    /// The character of its line that it begins with, from 1.
    pub column: usize,
    /// How it reads up to its block or its end, as far as it stands in that line.
    pub words: &'a str,
}

/// The statements of a program in its text, in their order. The tokens are those of the text.
pub fn places<'a>(
    alloc: Global,
    program: &Program,
    text: &'a str,
    tokens: &[Token],
) -> Result<Vec<StatementPlace<'a>>, NoMemory>
    requires { Spells text.now tokens.now }
    ensures { IfOk result (λ spots. Stand text.now program.now spots.items) }
{
    let heads = heads(alloc, program, tokens)?;
    let mut spots = Vec::with_capacity(alloc, heads.len())?;
    let mut passed = NOTHING;
    for head in &heads {
        passed = passed_to(text.as_bytes(), passed, head.start);
        spots.push(spot_at(text, passed.place, *head))?;
    }
    Ok(spots)
}

// A line, and a column in it.
#[derive(Clone, Copy)]
struct LineColumn {
    line: usize,
    column: usize,
}

// How many bytes of a text were passed, and the place after them.
#[derive(Clone, Copy)]
struct Passed {
    at: usize,
    place: LineColumn,
}

const NOTHING: Passed = Passed {
    at: 0,
    place: LineColumn { line: 1, column: 1 },
};

// Passes what stands before a byte. A place further back is sought from the first byte on.
fn passed_to(bytes: &[u8], passed: Passed, start: usize) -> Passed
    requires within { start ≤ length bytes.now }
    requires passed { HasPassed bytes.now passed }
    ensures at { result.at ≡ start }
    ensures passed { HasPassed bytes.now result }
{
    if start < passed.at {
        passed_on(bytes, NOTHING, start)
    } else {
        passed_on(bytes, passed, start)
    }
}

fn passed_on(bytes: &[u8], passed: Passed, start: usize) -> Passed
    requires order { passed.at ≤ start }
    requires within { start ≤ length bytes.now }
    requires passed { HasPassed bytes.now passed }
    ensures at { result.at ≡ start }
    ensures passed { HasPassed bytes.now result }
{
    let mut place = passed.place;
    for byte in &bytes[passed.at..start] {
        place = next_place(place, *byte);
    }
    Passed { at: start, place }
}

// The place after a byte.
fn next_place(place: LineColumn, byte: u8) -> LineColumn
    requires line { place.line < 18446744073709551615 }
    requires column { place.column < 18446744073709551615 }
    ensures { result ≡ next_place place byte }
{
    let LineColumn { line, column } = place;
    if byte == b'\n' {
        LineColumn {
            line: line + 1,
            column: 1,
        }
    } else if byte < 128 || byte >= 192 {
        LineColumn {
            line,
            column: column + 1,
        }
    } else {
        place
    }
}

// A statement whose head stands there.
fn spot_at(text: &str, place: LineColumn, head: Span) -> StatementPlace<'_>
    requires { IsCut text.now head }
    ensures line { result.line ≡ place.line }
    ensures column { result.column ≡ place.column }
    ensures words { result.words.now ≡ first_line (slice_range text.now head.start head.end) }
{
    StatementPlace {
        line: place.line,
        column: place.column,
        words: first_line(part(text, head)),
    }
}

fn part(text: &str, span: Span) -> &str
    requires { IsCut text.now span }
    ensures { result.now ≡ slice_range text.now span.start span.end }
{
    text.get(span.start..span.end).unwrap_or("")
}

// A text up to its first line feed, without the blanks at its end.
fn first_line(text: &str) -> &str
    ensures { result.now ≡ first_line text.now }
{
    match text.split_once('\n') {
        Some((line, _)) => line.trim_end(),
        None => text.trim_end(),
    }
}
