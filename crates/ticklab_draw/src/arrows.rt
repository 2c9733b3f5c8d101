// Arrows from puts to the gets that read them.
ghost use Rattle.std.specs.Prelude.{◌≡◌, ◌++◌, ◌<◌, ◌^◌, OnOk};
ghost use Rattle.ticklab_draw.specs.Arrows.{arrow_by, arrow_from, arrow_of, from_text, read_from, route_text, turn};
ghost use Rattle.ticklab_draw.specs.Steps.{step_text};

use crate::bands::Lanes;
use crate::columns::Column;
use crate::layout::{
    ARROW_BEHIND, column_at, from_y, in_x, leave_x, leave_y, reach_x, right_x, sign_y, way_y,
};
use crate::look::{Look, is_chosen};
use crate::mark::{Mark, Sight};
use crate::pieces::{AND_Y, STEP_AT, TEXT_END};
use crate::writing::{Added, push_one, push_two};

const FROM_STEP: &str = "from step ";

// An arrow, and the corners on its way.
const ARROW: &str = "<path class=\"arrow\" d=\"M";

const RIGHT_TO_DOWN: &str = "q4 0 4 4V";

const DOWN_TO_RIGHT: &str = "q0 4 4 4";

const RIGHT_TO_UP: &str = "q4 0 4 -4V";

const UP_TO_RIGHT: &str = "q0 -4 4 -4";

const ARROW_END: &str = "\"/>\n";

/// The put that is read, by its place among the marks.
pub fn read_from(sight: Sight) -> Option<usize>
    ensures { result ≡ read_from sight }
{
    match sight {
        Sight::Get(_, _, _, put) => put,
        _ => None,
    }
}

/// Adds the arrow to a get in its column from the put of this place, where one is read.
pub fn push_arrow(
    out: &mut Vec<u8>,
    look: Look,
    bands: &[Lanes],
    columns: &[Column],
    column: Column,
    marks: &[Mark],
    place: Option<usize>,
) -> Added
    ensures { OnOk result (out.new.items ≡ out.old.items ++ arrow_by look bands.now columns.now column marks.now place) }
{
    match place {
        Some(from) => push_arrow_of(
            out,
            look,
            bands,
            columns,
            column,
            from,
            marks.get(from).copied(),
        ),
        None => Ok(()),
    }
}

fn push_arrow_of(
    out: &mut Vec<u8>,
    look: Look,
    bands: &[Lanes],
    columns: &[Column],
    column: Column,
    from: usize,
    found: Option<Mark>,
) -> Added
    ensures { OnOk result (out.new.items ≡ out.old.items ++ arrow_of look bands.now columns.now column from found) }
{
    match found {
        Some(put) if is_chosen(look, &put) => {
            push_arrow_from(out, bands, from, column_at(columns, from), column, put.step)
        }
        Some(put) => push_from(out, bands, column, put.step),
        None => Ok(()),
    }
}

// To the get in its column from the put of a step, in that of another place.
#[tactic(auto, unfolding(crate::specs::Arrows::arrow_from))]
fn push_arrow_from(
    out: &mut Vec<u8>,
    bands: &[Lanes],
    from: usize,
    start: Column,
    column: Column,
    step: usize,
) -> Added
    ensures { OnOk result (out.new.items ≡ out.old.items ++ arrow_from bands.now from start column step) }
{
    if start.band.number == column.band.number {
        push_route(out, bands, from, start, column)
    } else {
        push_from(out, bands, column, step)
    }
}

// What stands for it at a get whose put is of an earlier band, or isn't shown.
#[tactic(auto, unfolding(crate::specs::Arrows::from_text))]
fn push_from(out: &mut Vec<u8>, bands: &[Lanes], column: Column, step: usize) -> Added
    ensures { OnOk result (out.new.items ≡ out.old.items ++ from_text bands.now column step) }
{
    let y = from_y(bands, column);
    push_step(out, u64::from(column.x), y, FROM_STEP, step)
}

// Within a band: out of the sign into the gutter behind its column, there to the height of the way, along it to
// the gutter before the get, there to the lane, and to the sign.
#[tactic(auto, unfolding(crate::specs::Arrows::route_text))]
fn push_route(
    out: &mut Vec<u8>,
    bands: &[Lanes],
    from: usize,
    start: Column,
    column: Column,
) -> Added
    ensures { OnOk result (out.new.items ≡ out.old.items ++ route_text bands.now from start column) }
{
    let (lane, end) = (sign_y(bands, start), sign_y(bands, column));
    let way = way_y(bands, from, start, column);
    let y = leave_y(lane, way);
    push_two(out, ARROW, leave_x(start), " ", y, "")?;
    push_turn(out, right_x(start) + ARROW_BEHIND, y, way)?;
    push_turn(out, in_x(column), way, end)?;
    push_one(out, "H", u128::from(reach_x(column)), ARROW_END)
}

// On the way to the right, from one height to another at this place, round both corners.
#[tactic(auto, unfolding(crate::specs::Arrows::turn))]
fn push_turn(out: &mut Vec<u8>, x: u64, y: u128, to: u128) -> Added
    requires { to < 2 ^ 90 }
    ensures { OnOk result (out.new.items ≡ out.old.items ++ turn x y to) }
{
    let left = x.saturating_sub(4);
    if y == to {
        Ok(())
    } else if y < to {
        let down = to.saturating_sub(4);
        push_two(out, "H", left, RIGHT_TO_DOWN, down, DOWN_TO_RIGHT)
    } else {
        push_two(out, "H", left, RIGHT_TO_UP, to + 4, UP_TO_RIGHT)
    }
}

/// Adds the number of a step after these words.
#[tactic(auto, unfolding(crate::specs::Steps::step_text))]
pub fn push_step(out: &mut Vec<u8>, x: u64, y: u128, words: &str, step: usize) -> Added
    ensures { OnOk result (out.new.items ≡ out.old.items ++ step_text x y words.now step) }
{
    push_two(out, STEP_AT, x, AND_Y, y, "\">")?;
    push_one(out, words, step as u128, TEXT_END)
}
