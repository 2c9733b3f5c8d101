// A line of a text with a caret under a part of it.
ghost use Rattle.std.specs.Prelude.{◌≡◌, ◌++◌, ℕ, List, OnOk};
ghost use Rattle.std.specs.List.{flat_map};
ghost use Rattle.ticklab_explain.specs.Pictures.{IsPicture, caret_of, cut, margin, picture, shown, shown_byte, source_line};

use crate::place::{characters, line_end, line_start};
use crate::writing::{Added, push, push_decimal, push_often};
use base::span::Span;
use itoa::Buffer;
use std::alloc::Global;

// Behind the number of a line, and for a tab.
const BAR: &str = " | ";

const TAB: &str = "    ";

const BEFORE_LIMIT: usize = 120;

const AFTER_LIMIT: usize = 240;

// A line by its number, as it is shown before a part, in it and after it.
#[derive(Clone, Copy)]
struct SourceLine<'a> {
    number: usize,
    before: &'a [u8],
    part: &'a [u8],
    after: &'a [u8],
}

/// Adds the line where a span begins, under its number, with a caret under the span.
pub fn push_picture(
    alloc: Global,
    out: &mut Vec<u8>,
    text: &[u8],
    span: Span,
    number: usize,
) -> Added
    ensures { OnOk result ((drawn : List ℕ) × IsPicture text.now span number drawn × (out.new.items ≡ out.old.items ++ drawn)) }
{
    let at = span.start.min(text.len());
    let start = line_start(text, at);
    let stop = line_end(text, at);
    let from = start.max(at.saturating_sub(BEFORE_LIMIT));
    let to = at + (stop - at).min(AFTER_LIMIT);
    let end = at.max(span.end.min(to));
    let mut before = Vec::new(alloc);
    push_cut(&mut before, from - start)?;
    push_shown(alloc, &mut before, &text[from..at])?;
    let mut part = Vec::new(alloc);
    push_shown(alloc, &mut part, &text[at..end])?;
    let mut after = Vec::new(alloc);
    push_shown(alloc, &mut after, &text[end..to])?;
    push_cut(&mut after, stop - to)?;
    let line = SourceLine {
        number,
        before: &before,
        part: &part,
        after: &after,
    };
    push_lines(out, line)
}

fn push_cut(out: &mut Vec<u8>, rest: usize) -> Added
    ensures { OnOk result (out.new.items ≡ out.old.items ++ cut rest) }
{
    if rest == 0 { Ok(()) } else { push(out, "..") }
}

fn push_lines(out: &mut Vec<u8>, line: SourceLine<'_>) -> Added
    ensures { OnOk result (out.new.items ≡ out.old.items ++ picture line.entry.number line.entry.before.now line.entry.part.now line.entry.after.now) }
{
    push_margin(out, line.number)?;
    push(out, "\n")?;
    push_source(out, line)?;
    push_caret(
        out,
        line.number,
        characters(line.before),
        characters(line.part),
    )
}

fn push_source(out: &mut Vec<u8>, line: SourceLine<'_>) -> Added
    ensures { OnOk result (out.new.items ≡ out.old.items ++ source_line line.entry.number line.entry.before.now line.entry.part.now line.entry.after.now) }
{
    push_decimal(out, line.number)?;
    push(out, BAR)?;
    out.extend_from_slice(line.before)?;
    out.extend_from_slice(line.part)?;
    out.extend_from_slice(line.after)?;
    push(out, "\n")
}

// The caret's line, for so many columns before the caret and so many under which it stands.
fn push_caret(out: &mut Vec<u8>, number: usize, before: usize, part: usize) -> Added
    ensures { OnOk result (out.new.items ≡ out.old.items ++ caret_of number before part) }
{
    push_margin(out, number)?;
    push(out, " ")?;
    push_often(out, b' ', before)?;
    push_often(out, b'^', part.max(1))?;
    push(out, "\n")
}

fn push_margin(out: &mut Vec<u8>, number: usize) -> Added
    ensures { OnOk result (out.new.items ≡ out.old.items ++ margin number) }
{
    push_often(out, b' ', Buffer::new().format(number).len())?;
    push(out, " |")
}

// Bytes as they are shown, with a sign for each that is no UTF-8.
fn push_shown(alloc: Global, out: &mut Vec<u8>, bytes: &[u8]) -> Added
    ensures { OnOk result (out.new.items ≡ out.old.items ++ shown bytes.now) }
{
    let text = String::from_utf8_lossy(alloc, bytes)?;
    push_plain(out, text.as_bytes())
}

fn push_plain(out: &mut Vec<u8>, bytes: &[u8]) -> Added
    ensures { OnOk result (out.new.items ≡ out.old.items ++ flat_map shown_byte bytes.now) }
{
    for byte in bytes {
        push_byte(out, *byte)?;
    }
    Ok(())
}

// A byte as it is shown.
fn push_byte(out: &mut Vec<u8>, byte: u8) -> Added
    ensures { OnOk result (out.new.items ≡ out.old.items ++ shown_byte byte) }
{
    match byte {
        b'\t' => push(out, TAB),
        b'\r' => Ok(()),
        0..=31 => push(out, "?"),
        _ => out.extend_from_slice(&[byte]),
    }
}
