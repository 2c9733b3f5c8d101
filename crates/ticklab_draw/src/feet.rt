// What stands below the lanes for each mark: the number of its step, the new order of tickets if it changed,
// and an arrow to a get.
ghost use Rattle.std.specs.Prelude.{◌≡◌, ◌++◌, OnOk};
ghost use Rattle.ticklab_draw.specs.Feet.{change_text, feet_text, foot_text, order_at, order_text, when_line};

use crate::arrows::{push_arrow, push_step, read_from};
use crate::bands::Lanes;
use crate::colours::{push_colour, push_stroke};
use crate::columns::Column;
use crate::layout::{band_foot, band_top, column_at, order_y, step_y};
use crate::look::{Look, is_chosen};
use crate::mark::{Holdings, Mark, Sight};
use crate::orders::{holders, push_order_words};
use crate::pieces::{AND_COLOUR, AND_Y, PATH_END, PATH_FROM, TEXT_END};
use crate::writing::{Added, push, push_one, push_two};
use std::alloc::Global;

const CHANGED: &str = "<path class=\"when\"";

const ORDER_AT: &str = "<text class=\"order\" x=\"";

/// Adds what stands below the lanes for each of these marks that is shown, which have these columns.
pub fn push_feet(
    alloc: Global,
    out: &mut Vec<u8>,
    look: Look,
    bands: &[Lanes],
    columns: &[Column],
    marks: &[Mark],
) -> Added
    ensures { OnOk result (out.new.items ≡ out.old.items ++ feet_text look bands.now columns.now marks.now 0 marks.now) }
{
    for (at, mark) in marks.iter().enumerate() {
        let column = column_at(columns, at);
        push_foot(alloc, out, look, bands, columns, column, mark, marks)?;
    }
    Ok(())
}

#[tactic(auto, unfolding(crate::specs::Feet::foot_text))]
fn push_foot(
    alloc: Global,
    out: &mut Vec<u8>,
    look: Look,
    bands: &[Lanes],
    columns: &[Column],
    column: Column,
    mark: &Mark,
    marks: &[Mark],
) -> Added
    ensures { OnOk result (out.new.items ≡ out.old.items ++ foot_text look bands.now columns.now column mark.now marks.now) }
{
    if !is_chosen(look, mark) {
        return Ok(());
    }
    let (x, y) = (u64::from(column.x), step_y(bands, column.band));
    push_step(out, x, y, "", mark.step)?;
    push_change(alloc, out, bands, column, mark.process, mark.sight)?;
    let place = read_from(mark.sight);
    push_arrow(out, look, bands, columns, column, marks, place)
}

fn push_change(
    alloc: Global,
    out: &mut Vec<u8>,
    bands: &[Lanes],
    column: Column,
    p: u8,
    sight: Sight,
) -> Added
    ensures { OnOk result (out.new.items ≡ out.old.items ++ change_text bands.now column p sight) }
{
    match sight {
        Sight::Stamp(held) => push_order(alloc, out, bands, column, p, held),
        Sight::Clear(held) => push_order(alloc, out, bands, column, p, held),
        _ => Ok(()),
    }
}

#[tactic(auto, unfolding(crate::specs::Feet::order_text))]
fn push_order(
    alloc: Global,
    out: &mut Vec<u8>,
    bands: &[Lanes],
    column: Column,
    p: u8,
    held: Holdings,
) -> Added
    ensures { OnOk result (out.new.items ≡ out.old.items ++ order_text bands.now column p held) }
{
    let found = holders(alloc, &held)?;
    let (x, band) = (u64::from(column.x), column.band);
    push_when(out, x, band_top(bands, band), band_foot(bands, band), p)?;
    push_order_at(out, x, order_y(bands, band), p, &found)
}

// The line through all lanes where an order changed.
#[tactic(auto, unfolding(crate::specs::Feet::when_line))]
fn push_when(out: &mut Vec<u8>, x: u64, top: u128, foot: u128, p: u8) -> Added
    ensures { OnOk result (out.new.items ≡ out.old.items ++ when_line x top foot p) }
{
    push_stroke(out, CHANGED, p)?;
    push_two(out, PATH_FROM, x, " ", top, "V")?;
    push_one(out, "", foot, PATH_END)
}

#[tactic(auto, unfolding(crate::specs::Feet::order_at))]
fn push_order_at(out: &mut Vec<u8>, x: u64, y: u128, p: u8, processes: &[u8]) -> Added
    ensures { OnOk result (out.new.items ≡ out.old.items ++ order_at x y p processes.now) }
{
    push_two(out, ORDER_AT, x, AND_Y, y, AND_COLOUR)?;
    push_colour(out, p)?;
    push(out, "\">")?;
    push_order_words(out, processes)?;
    push(out, TEXT_END)
}
