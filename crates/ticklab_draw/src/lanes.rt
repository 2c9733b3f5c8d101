// The lanes of all bands, and how each process ended.
ghost use Rattle.std.specs.Prelude.{◌≡◌, ◌==◌, ◌++◌, ◌+◌, ◌<◌, ◌^◌, [], OnOk, if◌then◌else◌};
ghost use Rattle.ticklab_draw.specs.Lanes.{band_text, bands_text, caption, end_beside, end_of, end_style, end_text, end_words, ended, ended_by, ends_text, lane_end, lane_line, lane_name, lane_of_process, lane_text, lanes_text, last_lane};

use crate::bands::{Lanes, is_lane, lane_of, lanes_at};
use crate::colours::{push_colour, push_stroke};
use crate::columns::Column;
use crate::layout::{EDGE, LANES_BEHIND, WORDS_BEHIND, lane_y, order_y, right_x, step_y};
use crate::mark::{Mark, Sight};
use crate::pieces::{AND_COLOUR, AND_Y, PATH_END, TEXT_END};
use crate::writing::{Added, push, push_one, push_two};
use base::{Act, Status};
use tick_play::trap_name;

const LANE: &str = "<path class=\"lane\"";

const FROM_EDGE: &str = " d=\"M50 ";

// Words at the left edge.
const NAME_AT: &str = "<text class=\"name\" x=\"16\" y=\"";

const PROCESS: &str = "\">P";

const CAPTION_AT: &str = "<text class=\"left\" x=\"16\" y=\"";

const ORDER: &str = "order";

const STEP: &str = "step";

// How a process stands.
const STATUS: &str = "<text class=\"left\"";

const TRAP_STATUS: &str = "<text class=\"left trap\"";

const AT_X: &str = " x=\"";

const RUNNING: &str = "running";

const ENDED: &str = "ended";

const TRAP: &str = "trap ";

/// Adds the bands of these columns, in which `n` processes may have lanes.
pub fn push_bands(out: &mut Vec<u8>, bands: &[Lanes], n: u8, columns: &[Column]) -> Added
    ensures { OnOk result (out.new.items ≡ out.old.items ++ bands_text bands.now n columns.now) }
{
    let mut last = EDGE;
    for &column in columns {
        push_ended_band(out, bands, n, last, column)?;
        last = column;
    }
    push_band(out, bands, n, last)
}

// The band that ends with a column, where the next one is of another.
fn push_ended_band(out: &mut Vec<u8>, bands: &[Lanes], n: u8, last: Column, next: Column) -> Added
    ensures { OnOk result (out.new.items ≡ out.old.items ++ (if last.band.number == next.band.number then [] else band_text bands.now n last)) }
{
    if last.band.number == next.band.number {
        Ok(())
    } else {
        push_band(out, bands, n, last)
    }
}

#[tactic(auto, unfolding(crate::specs::Lanes::band_text))]
fn push_band(out: &mut Vec<u8>, bands: &[Lanes], n: u8, last: Column) -> Added
    ensures { OnOk result (out.new.items ≡ out.old.items ++ band_text bands.now n last) }
{
    push_lanes(out, bands, n, last)?;
    push_caption(out, order_y(bands, last.band), ORDER)?;
    push_caption(out, step_y(bands, last.band), STEP)
}

fn push_lanes(out: &mut Vec<u8>, bands: &[Lanes], n: u8, last: Column) -> Added
    ensures { OnOk result (out.new.items ≡ out.old.items ++ lanes_text bands.now last n) }
{
    for p in 0..n {
        push_lane_of(out, bands, last, p)?;
    }
    Ok(())
}

// The lane of a process in the band that ends with a column, where it has one.
#[tactic(auto, unfolding(crate::specs::Lanes::lane_of_process))]
fn push_lane_of(out: &mut Vec<u8>, bands: &[Lanes], last: Column, p: u8) -> Added
    ensures { OnOk result (out.new.items ≡ out.old.items ++ lane_of_process bands.now last p) }
{
    let has = lanes_at(bands, last.band).has;
    if is_lane(&has, p) {
        let y = lane_y(bands, last.band, lane_of(&has, p));
        push_lane(out, y, right_x(last) + LANES_BEHIND, p)
    } else {
        Ok(())
    }
}

#[tactic(auto, unfolding(crate::specs::Lanes::lane_text))]
fn push_lane(out: &mut Vec<u8>, y: u128, end: u64, p: u8) -> Added
    requires { y < 2 ^ 90 }
    ensures { OnOk result (out.new.items ≡ out.old.items ++ lane_text y end p) }
{
    push_lane_line(out, y, end, p)?;
    push_lane_name(out, y + 5, p)
}

#[tactic(auto, unfolding(crate::specs::Lanes::lane_line))]
fn push_lane_line(out: &mut Vec<u8>, y: u128, end: u64, p: u8) -> Added
    ensures { OnOk result (out.new.items ≡ out.old.items ++ lane_line y end p) }
{
    push_stroke(out, LANE, p)?;
    push_one(out, FROM_EDGE, y, "H")?;
    push_one(out, "", u128::from(end), PATH_END)
}

#[tactic(auto, unfolding(crate::specs::Lanes::lane_name))]
fn push_lane_name(out: &mut Vec<u8>, y: u128, p: u8) -> Added
    ensures { OnOk result (out.new.items ≡ out.old.items ++ lane_name y p) }
{
    push_one(out, NAME_AT, y, AND_COLOUR)?;
    push_colour(out, p)?;
    push_one(out, PROCESS, u128::from(p), TEXT_END)
}

/// Adds words at the left edge.
#[tactic(auto, unfolding(crate::specs::Lanes::caption))]
pub fn push_caption(out: &mut Vec<u8>, y: u128, words: &str) -> Added
    ensures { OnOk result (out.new.items ≡ out.old.items ++ caption y words.now) }
{
    push_one(out, CAPTION_AT, y, "\">")?;
    push(out, words)?;
    push(out, TEXT_END)
}

/// Adds how each process stands after these marks, beside the last of its lanes.
pub fn push_ends(
    out: &mut Vec<u8>,
    bands: &[Lanes],
    n: u8,
    columns: &[Column],
    marks: &[Mark],
) -> Added
    ensures { OnOk result (out.new.items ≡ out.old.items ++ ends_text bands.now columns.now marks.now n) }
{
    for p in 0..n {
        push_end_beside(out, bands, p, marks, last_lane(bands, p, columns))?;
    }
    Ok(())
}

// How a process stands, beside its lane that ends with this column.
#[tactic(auto, unfolding(crate::specs::Lanes::end_beside))]
fn push_end_beside(
    out: &mut Vec<u8>,
    bands: &[Lanes],
    p: u8,
    marks: &[Mark],
    last: Option<Column>,
) -> Added
    ensures { OnOk result (out.new.items ≡ out.old.items ++ end_beside bands.now p marks.now last) }
{
    match last {
        Some(last) => {
            let lane = lane_of(&lanes_at(bands, last.band).has, p);
            let y = lane_y(bands, last.band, lane) + 4;
            push_end(out, right_x(last) + WORDS_BEHIND, y, end_of(p, marks))
        }
        None => Ok(()),
    }
}

// The column with which the last lane of a process ends.
#[tactic(auto, unfolding(crate::specs::Lanes::last_lane))]
fn last_lane(bands: &[Lanes], p: u8, columns: &[Column]) -> Option<Column>
    ensures { result ≡ last_lane bands.now p columns.now }
{
    let mut found = lane_end(bands, p, None, EDGE);
    for &column in columns {
        found = lane_end(bands, p, found, column);
    }
    found
}

fn lane_end(bands: &[Lanes], p: u8, found: Option<Column>, column: Column) -> Option<Column>
    ensures { result ≡ lane_end bands.now p found column }
{
    if is_lane(&lanes_at(bands, column.band).has, p) {
        Some(column)
    } else {
        found
    }
}

fn end_of(p: u8, marks: &[Mark]) -> Status
    ensures { result ≡ end_of p marks.now }
{
    let mut status = Status::Running;
    for mark in marks {
        if mark.process == p {
            status = ended(status, mark.sight);
        }
    }
    status
}

fn ended(status: Status, sight: Sight) -> Status
    ensures { result ≡ ended status sight }
{
    match sight {
        Sight::Act(act) => ended_by(status, act),
        _ => status,
    }
}

fn ended_by(status: Status, act: Act) -> Status
    ensures { result ≡ ended_by status act }
{
    match act {
        Act::End => Status::Ended,
        Act::Trap(trap) => Status::Trapped(trap),
        _ => status,
    }
}

#[tactic(auto, unfolding(crate::specs::Lanes::end_text))]
fn push_end(out: &mut Vec<u8>, x: u64, y: u128, status: Status) -> Added
    ensures { OnOk result (out.new.items ≡ out.old.items ++ end_text x y status) }
{
    push(out, end_style(status))?;
    push_two(out, AT_X, x, AND_Y, y, "\">")?;
    push_end_words(out, status)?;
    push(out, TEXT_END)
}

fn end_style(status: Status) -> &'static str
    ensures { result.now ≡ end_style status }
{
    match status {
        Status::Trapped(_) => TRAP_STATUS,
        _ => STATUS,
    }
}

fn push_end_words(out: &mut Vec<u8>, status: Status) -> Added
    ensures { OnOk result (out.new.items ≡ out.old.items ++ end_words status) }
{
    match status {
        Status::Running => push(out, RUNNING),
        Status::Ended => push(out, ENDED),
        Status::Trapped(trap) => {
            push(out, TRAP)?;
            push(out, trap_name(trap))
        }
    }
}
