// Where things stand on the page. Bands of columns stand one below the other, each with lanes of its own.
ghost use Rattle.std.specs.Prelude.{◌≡◌, ◌*◌, ◌+◌, ◌-◌, ◌<◌, ◌≤◌, ◌^◌};
ghost use Rattle.ticklab_draw.specs.Layout.{above_y, band_below, band_end, band_foot, band_top, column_at, column_behind, field_half, first_band, first_column, first_edge, flag_middle, flag_width, from_y, head_y, headed, in_x, is_narrow, lane_in, lane_y, last_column, last_of, leave_x, leave_y, left_x, legend_height, letters_half, next_column, order_y, page_height, page_least, page_width, reach_x, right_x, sign_y, step_y, strip_y, track_lane, track_y, way_y};

use crate::bands::{Lanes, lane_count, lane_of, lanes_at};
use crate::columns::{Band, Column};
use ticklab_trace::Part;

/// Where the lanes of the first band begin: a column that has no width.
pub const EDGE: Column = Column {
    band: Band {
        number: 0,
        heads: 0,
    },
    x: 50,
    half: 0,
    process: 0,
    part: Part::Schedule,
};

// How wide a gutter between two columns is.
const GUTTER: u16 = 14;

/// How far behind a column, which ends with its words, an arrow stands that leaves it.
pub const ARROW_BEHIND: u64 = 4;

/// How far behind a column a line stands.
pub const LINE_BEHIND: u64 = 7;

/// How far behind the last column of a band its lanes end.
pub const LANES_BEHIND: u64 = 14;

/// How far behind it words beside those lanes stand.
pub const WORDS_BEHIND: u64 = 21;

// How much of a page stands beside its bands.
const BESIDE: u32 = 120;

// A page is so wide at least that is to have this width.
fn page_least(width: u32) -> u32
    ensures least { result ≡ page_least width }
    ensures low { 300 ≤ result }
    ensures high { result ≤ 20000 }
{
    width.max(300).min(20_000)
}

/// How far the bands of a page reach that is to have this width.
pub fn band_end(width: u32) -> u16
    ensures end { result ≡ band_end width }
    ensures high { result ≤ 19880 }
{
    (page_least(width) - BESIDE) as u16
}

/// How wide the page with these columns is that is to have this width.
pub fn page_width(width: u32, columns: &[Column]) -> u64
    ensures { result ≡ page_width width columns.now }
{
    let mut wide = u64::from(page_least(width));
    for &column in columns {
        wide = wide.max(right_x(column) + u64::from(BESIDE));
    }
    wide
}

/// The column behind another, of a mark of this process and part, so wide on each side: in the same band where it is of the
/// same part, and ends there, or where that has none yet.
pub fn next_column(end: u16, p: u8, part: Part, column: Column, half: u16) -> Column
    requires end { end ≤ 19880 }
    requires right { column.x + column.half ≤ 20000 }
    requires wide { half ≤ 380 }
    requires few { column.band.number < 2 ^ 64 - 1 }
    requires headed { column.band.heads < 2 ^ 64 - 1 }
    ensures next { result ≡ next_column end p part column half }
    ensures right { result.x + result.half ≤ 20000 }
    ensures few { result.band.number ≤ column.band.number + 1 }
    ensures headed { result.band.heads ≤ column.band.heads + 1 }
{
    if !part.is_same(column.part) {
        return first_column(headed(band_below(column)), p, part, half);
    }
    let right = column.x + column.half;
    let left = right + GUTTER;
    if EDGE.x < right && end < left + 2 * half {
        first_column(band_below(column), p, part, half)
    } else {
        Column {
            band: column.band,
            x: left + half,
            half,
            process: p,
            part,
        }
    }
}

// The first column of a band.
fn first_column(band: Band, p: u8, part: Part, half: u16) -> Column
    requires { half ≤ 380 }
    ensures { result ≡ first_column band p part half }
{
    Column {
        band,
        x: EDGE.x + GUTTER + half,
        half,
        process: p,
        part,
    }
}

// The band below that of a column; where this has no column yet, it is that band itself.
fn band_below(column: Column) -> Band
    requires right { column.x + column.half ≤ 20000 }
    requires few { column.band.number < 2 ^ 64 - 1 }
    ensures below { result ≡ band_below column }
    ensures few { result.number ≤ column.band.number + 1 }
    ensures heads { result.heads ≡ column.band.heads }
{
    if EDGE.x < column.x + column.half {
        Band {
            number: column.band.number + 1,
            heads: column.band.heads,
        }
    } else {
        column.band
    }
}

// A band with the head of a part above it.
fn headed(band: Band) -> Band
    requires { band.heads < 2 ^ 64 - 1 }
    ensures { result ≡ headed band }
{
    Band {
        number: band.number,
        heads: band.heads + 1,
    }
}

/// The column of the mark of this place.
pub fn column_at(columns: &[Column], at: usize) -> Column
    ensures { result ≡ column_at columns.now at }
{
    match columns.get(at) {
        Some(column) => *column,
        None => EDGE,
    }
}

/// The last of all columns.
pub fn last_column(columns: &[Column]) -> Column
    ensures { result ≡ last_column columns.now }
{
    column_at(columns, columns.len().saturating_sub(1))
}

/// The column of the last of so many marks; where no mark has one yet, the edge of the first band.
pub fn column_behind(columns: &[Column], count: usize) -> Column
    ensures { result ≡ column_behind columns.now count }
{
    let last = last_of(columns, count);
    if u64::from(EDGE.x) < right_x(last) {
        last
    } else {
        first_edge(columns)
    }
}

fn first_edge(columns: &[Column]) -> Column
    ensures { result ≡ first_edge columns.now }
{
    Column {
        band: first_band(columns),
        x: EDGE.x,
        half: 0,
        process: 0,
        part: Part::Schedule,
    }
}

// The band of the first column that has a width.
fn first_band(columns: &[Column]) -> Band
    ensures { result ≡ first_band columns.now }
{
    for &column in columns {
        if u64::from(EDGE.x) < right_x(column) {
            return column.band;
        }
    }
    EDGE.band
}

fn last_of(columns: &[Column], count: usize) -> Column
    ensures { result ≡ last_of columns.now count }
{
    if count == 0 {
        EDGE
    } else {
        column_at(columns, count - 1)
    }
}

/// How far from the left a column ends.
pub fn right_x(column: Column) -> u64
    ensures right { result ≡ right_x column }
    ensures low { result < 2 ^ 20 }
{
    u64::from(column.x) + u64::from(column.half)
}

/// How far from the left an arrow stands that comes to a column.
pub fn in_x(column: Column) -> u64
    ensures { result ≡ in_x column }
{
    left_x(column).saturating_sub(4)
}

fn left_x(column: Column) -> u64
    ensures { result ≡ left_x column }
{
    u64::from(column.x).saturating_sub(u64::from(column.half))
}

/// Where an arrow leaves the sign in a column.
pub fn leave_x(column: Column) -> u64
    ensures { result ≡ leave_x column }
{
    u64::from(column.x) + 7
}

/// How high it leaves it, beside the lane of this height, on the side of the way to which it goes.
pub fn leave_y(lane: u128, way: u128) -> u128
    requires { lane < 2 ^ 90 }
    ensures { result ≡ leave_y lane way }
{
    if way == lane {
        lane
    } else if way < lane {
        lane.saturating_sub(5)
    } else {
        lane + 5
    }
}

/// Where an arrow comes to it.
pub fn reach_x(column: Column) -> u64
    ensures { result ≡ reach_x column }
{
    u64::from(column.x).saturating_sub(9)
}

/// How far from the top a lane of a band stands, by how many of the band stand above it.
pub fn lane_y(bands: &[Lanes], band: Band, lane: u8) -> u128
    ensures place { result ≡ lane_y bands.now band lane }
    ensures high { 90 < result }
    ensures low { result < 2 ^ 90 }
{
    lane_from(bands, band, u128::from(lane))
}

// The same of a lane that may be the one below the last.
fn lane_from(bands: &[Lanes], band: Band, lane: u128) -> u128
    requires { lane < 2 ^ 16 }
    ensures place { result ≡ lane_y bands.now band lane }
    ensures high { 90 < result }
    ensures low { result < 2 ^ 90 }
{
    band_top(bands, band) + 52 + 92 * lane
}

/// How far from the top the lane of a column stands.
pub fn sign_y(bands: &[Lanes], column: Column) -> u128
    ensures place { result ≡ sign_y bands.now column }
    ensures high { 90 < result }
    ensures low { result < 2 ^ 90 }
{
    lane_y(bands, column.band, lane_in(bands, column))
}

// How many lanes of its band stand above it.
fn lane_in(bands: &[Lanes], column: Column) -> u8
    ensures { result ≡ lane_in bands.now column }
{
    lane_of(&lanes_at(bands, column.band).has, column.process)
}

/// How far from the top a band begins.
pub fn band_top(bands: &[Lanes], band: Band) -> u128
    ensures place { result ≡ band_top bands.now band }
    ensures high { 44 ≤ result }
    ensures low { result < 2 ^ 85 }
{
    let above = u128::from(lanes_at(bands, band).above);
    44 + 52 * band.number as u128 + 92 * above + 30 * band.heads as u128
}

/// How far from the top the lanes of a band end.
pub fn band_foot(bands: &[Lanes], band: Band) -> u128
    ensures place { result ≡ band_foot bands.now band }
    ensures low { result < 2 ^ 89 }
{
    let count = lane_count(&lanes_at(bands, band).has);
    band_top(bands, band) + 92 * count as u128
}

/// How far from the top the order of tickets stands in a band.
pub fn order_y(bands: &[Lanes], band: Band) -> u128
    ensures { result ≡ order_y bands.now band }
{
    band_foot(bands, band) + 10
}

/// How far from the top the numbers of steps stand in a band.
pub fn step_y(bands: &[Lanes], band: Band) -> u128
    ensures { result ≡ step_y bands.now band }
{
    band_foot(bands, band) + 28
}

/// How far from the top words above the lanes of a band stand.
pub fn above_y(bands: &[Lanes], band: Band) -> u128
    ensures { result ≡ above_y bands.now band }
{
    band_top(bands, band) - 3
}

/// How far from the top the strip of a head begins that stands above a band.
pub fn strip_y(bands: &[Lanes], band: Band) -> u128
    ensures { result ≡ strip_y bands.now band }
{
    band_top(bands, band) - 36
}

/// How far from the top its words stand.
pub fn head_y(bands: &[Lanes], band: Band) -> u128
    ensures { result ≡ head_y bands.now band }
{
    band_top(bands, band) - 22
}

/// How far from the top it stands of which step the value is that is read in a column.
pub fn from_y(bands: &[Lanes], column: Column) -> u128
    ensures { result ≡ from_y bands.now column }
{
    sign_y(bands, column) + 33
}

/// How far from the top an arrow goes that leads from a put, at its place and column, to a get in another column.
pub fn way_y(bands: &[Lanes], from: usize, start: Column, column: Column) -> u128
    ensures way { result ≡ way_y bands.now from start column }
    ensures low { result < 2 ^ 90 }
{
    if left_x(column) == right_x(start) + LANES_BEHIND {
        sign_y(bands, column)
    } else {
        let (q, p) = (lane_in(bands, start), lane_in(bands, column));
        track_y(bands, start.band, q, p, from)
    }
}

fn track_y(bands: &[Lanes], band: Band, q: u8, p: u8, from: usize) -> u128
    ensures track { result ≡ track_y bands.now band (track_lane q p) from }
    ensures low { result < 2 ^ 90 }
{
    lane_from(bands, band, track_lane(q, p)) - (32 + 3 * (from % 6) as u128)
}

// The lane above which it goes.
fn track_lane(q: u8, p: u8) -> u128
    ensures lane { result ≡ track_lane q p }
    ensures low { result < 2 ^ 16 }
{
    if p < q {
        u128::from(p) + 1
    } else {
        u128::from(p)
    }
}

/// Half the width of so many letters.
pub fn letters_half(letters: u128) -> u128
    requires { letters < 2 ^ 90 }
    ensures { result ≡ letters_half letters }
{
    (7 * letters + 1) / 2
}

/// Half the width of a stamp's field, in which so many letters stand.
pub fn field_half(letters: usize) -> u128
    ensures half { result ≡ field_half letters }
    ensures low { result < 2 ^ 90 }
{
    5 + 4 * (letters as u128).max(2)
}

/// How wide the flag of so many letters is.
pub fn flag_width(letters: usize) -> u128
    ensures { result ≡ flag_width letters }
{
    14 + 7 * letters as u128
}

/// The middle of that flag.
pub fn flag_middle(letters: usize) -> u128
    ensures { result ≡ flag_middle letters }
{
    5 + 7 * letters as u128 / 2
}

/// Whether a page of this width has the legend in more lines.
pub fn is_narrow(width: u64) -> bool
    ensures { result ≡ is_narrow width }
{
    width < 1000
}

fn legend_height(width: u64) -> u128
    ensures height { result ≡ legend_height width }
    ensures low { result ≤ 168 }
{
    if is_narrow(width) { 168 } else { 68 }
}

/// As high as all bands up to the last, and the legend below them.
pub fn page_height(bands: &[Lanes], last: Band, width: u64) -> u128
    ensures height { result ≡ page_height bands.now last width }
    ensures low { result < 2 ^ 90 }
{
    band_foot(bands, last) + 52 + legend_height(width)
}
