// The columns of marks, each as wide as its sign and all its texts.
ghost use Rattle.std.specs.Prelude.{◌≡◌, ◌<◌, ◌≤◌, ◌+◌, ◌-◌, ◌^◌, IfOk};
ghost use Rattle.ticklab_draw.specs.Columns.{below_letters, column_of, columns, foot_letters, half_of, read_letters, seen_letters, shape_half, sign_half};
ghost use Rattle.ticklab_draw.specs.Words.{names};

use crate::beside::beside;
use crate::layout::{EDGE, band_end, field_half, flag_width, letters_half, next_column};
use crate::look::{Look, is_chosen};
use crate::mark::{Mark, Sight};
use crate::shapes::{Shape, shape_of};
use crate::words::Cast;
use crate::writing::digits;
use base::Act;
use std::alloc::{AllocError, Global};
use ticklab_trace::{Part, Parts, part_at};

/// Where a band of columns stands: how many bands stand above it, and how many heads of parts.
#[derive(Clone, Copy)]
pub struct Band {
    pub number: usize,
    pub heads: usize,
}

/// Where the column of a mark stands: in which band, its middle, and how far it reaches on each side. Its mark is of this
/// process and part.
#[derive(Clone, Copy)]
pub struct Column {
    pub band: Band,
    pub x: u16,
    pub half: u16,
    pub process: u8,
    pub part: Part,
}

/// A column for each mark.
pub fn columns(
    alloc: Global,
    look: Look,
    cast: Cast<'_>,
    parts: Option<Parts>,
    marks: &[Mark],
) -> Result<Vec<Column>, AllocError>
    ensures { IfOk result (λ found. found.items ≡ columns look cast.entry.processes (names cast.entry.registers.now) parts marks.now) }
{
    let mut found = Vec::new(alloc);
    let mut last = EDGE;
    for mark in marks {
        last = column_of(alloc, look, cast, parts, last, mark)?;
        found.push(last)?;
    }
    Ok(found)
}

// The column of a mark behind the last one. One that isn't shown has none of its own.
fn column_of(
    alloc: Global,
    look: Look,
    cast: Cast<'_>,
    parts: Option<Parts>,
    last: Column,
    mark: &Mark,
) -> Result<Column, AllocError>
    requires right { last.x + last.half ≤ 20000 }
    requires few { last.band.number < 2 ^ 64 - 1 }
    requires headed { last.band.heads < 2 ^ 64 - 1 }
    ensures column { IfOk result (λ column. column ≡ column_of look cast.entry.processes (names cast.entry.registers.now) parts last mark.now) }
    ensures right { IfOk result (λ column. column.x + column.half ≤ 20000) }
    ensures few { IfOk result (λ column. column.band.number ≤ last.band.number + 1) }
    ensures headed { IfOk result (λ column. column.band.heads ≤ last.band.heads + 1) }
{
    if is_chosen(look, mark) {
        let half = half_of(alloc, cast, mark)?;
        let part = part_at(parts, mark.step.saturating_sub(1));
        Ok(next_column(band_end(look.width), mark.process, part, last, half))
    } else {
        Ok(last)
    }
}

// Half the width of all that stands in the column of a mark: so small that a band has room for it.
#[tactic(auto, unfolding(crate::specs::Columns::half_of))]
fn half_of(alloc: Global, cast: Cast<'_>, mark: &Mark) -> Result<u16, AllocError>
    ensures half { IfOk result (λ half. half ≡ half_of cast.entry.processes (names cast.entry.registers.now) mark.now) }
    ensures low { IfOk result (λ half. half ≤ 380) }
{
    let sign = sign_half(alloc, cast, mark)?;
    let told = digits(mark.step as u64);
    let foot = letters_half(foot_letters(cast.processes, told, mark.sight));
    Ok(sign.max(foot).min(380) as u16)
}

// Half the width of its sign and the words beside it.
fn sign_half(alloc: Global, cast: Cast<'_>, mark: &Mark) -> Result<u128, AllocError>
    ensures { IfOk result (λ half. half ≡ sign_half cast.entry.processes (names cast.entry.registers.now) mark.now) }
{
    let words = beside(alloc, cast, mark)?;
    let letters = seen_letters(mark.sight, words.len());
    Ok(shape_half(shape_of(mark.sight), letters))
}

// How many of the letters beside a mark are seen: `&lt;` in a question is one.
fn seen_letters(sight: Sight, letters: usize) -> usize
    ensures { result ≡ seen_letters sight letters }
{
    match sight {
        Sight::Act(Act::Older(..)) => letters.saturating_sub(3),
        _ => letters,
    }
}

fn shape_half(shape: Shape, letters: usize) -> u128
    ensures { result ≡ shape_half shape letters }
{
    match shape {
        Shape::Stamp => field_half(letters),
        Shape::Out => flag_width(letters),
        _ => letters_half(letters as u128).max(12),
    }
}

// The most letters that stand below a mark whose step has so many digits.
fn foot_letters(n: u8, told: usize, sight: Sight) -> u128
    ensures letters { result ≡ foot_letters n told sight }
    ensures low { result < 2 ^ 90 }
{
    below_letters(n, told, sight).max(told as u128)
}

fn below_letters(n: u8, told: usize, sight: Sight) -> u128
    ensures letters { result ≡ below_letters n told sight }
    ensures low { result < 2 ^ 90 }
{
    match sight {
        Sight::Get(_, _, _, put) => read_letters(told, put),
        Sight::Stamp(_) | Sight::Clear(_) => (2 * u128::from(n)).max(4),
        _ => 0,
    }
}

// The letters of `from step` with a number.
fn read_letters(told: usize, put: Option<usize>) -> u128
    ensures letters { result ≡ read_letters told put }
    ensures low { result < 2 ^ 90 }
{
    match put {
        Some(_) => 10 + told as u128,
        None => 0,
    }
}
