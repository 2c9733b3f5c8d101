// Where things stand, in pixels, by the number of processes.
ghost use Rattle.std.specs.Prelude.{◌≡◌, ◌≤◌, ◌<◌};
ghost use Rattle.ticklab_draw.specs.labels.Layout.{below, cell_left, frame_height, frame_left, frame_top, frame_width, is_nested, left_most, page_height, page_width, reach, right, row_frames, row_top, seat, top_most};

/// Whether labels are drawn in nested cycles: six processes would have 243 places in them.
pub fn is_nested(n: u8) -> bool
    ensures { result ≡ is_nested n }
{
    n < 5
}

/// The sizes of frames, and where the places of the cycles begin in one.
#[derive(Clone, Copy)]
pub struct Frames {
    /// How many stand in a row.
    pub in_row: u64,
    pub width: u64,
    pub height: u64,
    /// The left end of the cycles' places, from the frame's own.
    pub left: u64,
    /// The upper end of the cycles' places, from the frame's own.
    pub top: u64,
}

/// The frames of so many processes.
pub fn frames_of(n: u8) -> Frames
    ensures in_row { result.in_row ≡ row_frames n }
    ensures some { 1 ≤ result.in_row }
    ensures few { result.in_row ≤ 6 }
    ensures width { result.width ≡ frame_width n }
    ensures wide { 160 ≤ result.width }
    ensures narrow { result.width ≤ 336 }
    ensures height { result.height ≡ frame_height n }
    ensures high { 128 ≤ result.height }
    ensures low { result.height ≤ 428 }
    ensures left { result.left ≡ left_most n }
    ensures top { result.top ≡ top_most n }
{
    match n {
        0..=1 => sized(5, 192, 128, 96, 56),
        2 => sized(5, 192, 212, 56, 46),
        3 => sized(4, 240, 328, 37, 62),
        4 => sized(3, 336, 428, 44, 64),
        _ => sized(6, 160, 220, 44, 64),
    }
}

fn sized(in_row: u64, width: u64, height: u64, left: u64, top: u64) -> Frames
    ensures { result ≡ record { in_row = in_row; width = width; height = height; left = left; top = top } }
{
    Frames {
        in_row,
        width,
        height,
        left,
        top,
    }
}

/// The left end of the frame at this place of the list, on the page.
pub fn frame_left(n: u8, at: u64) -> u64
    ensures { result ≡ frame_left n at }
{
    let frames = frames_of(n);
    frames.width * (at % frames.in_row)
}

/// The upper end of the frame at this place of the list, on the page.
pub fn frame_top(n: u8, at: u64) -> u64
    requires { at ≤ 400 }
    ensures { result ≡ frame_top n at }
{
    let frames = frames_of(n);
    40 + frames.height * (at / frames.in_row)
}

pub fn page_width(n: u8) -> u64
    ensures { result ≡ page_width n }
{
    let frames = frames_of(n);
    frames.width * frames.in_row
}

/// The height of a page of so many frames.
pub fn page_height(n: u8, count: u64) -> u64
    requires { count ≤ 401 }
    ensures { result ≡ page_height n count }
{
    let frames = frames_of(n);
    40 + frames.height * count.div_ceil(frames.in_row)
}

// Of a cycle of this level: how far its upper place lies to the right of the left one, and the right place to
// the right of the upper one; and how far its upper place lies above the two others. Level 0 is the outermost.
fn reach(n: u8, level: usize) -> (u64, u64)
    ensures reach { result ≡ reach n level }
    ensures narrow { result.0 ≤ 80 }
    ensures low { result.1 ≤ 138 }
{
    match (n, level) {
        (2, _) => (40, 69),
        (3, 0) => (60, 104),
        (3, _) => (23, 40),
        (_, 0) => (80, 138),
        (_, 1) => (32, 55),
        _ => (12, 21),
    }
}

/// How far the place of a digit lies to the right of the left place of its cycle: 0 is above, 1 at the
/// right, and 2 at the left.
pub fn right(n: u8, level: usize, digit: u8) -> u64
    requires { digit < 3 }
    ensures { result ≡ right n level digit }
{
    let (across, _down) = reach(n, level);
    across * u64::from((digit + 1) % 3)
}

/// How far the place of a digit lies below the upper place of its cycle.
pub fn below(n: u8, level: usize, digit: u8) -> u64
    requires { digit < 3 }
    ensures { result ≡ below n level digit }
{
    let (_across, down) = reach(n, level);
    down * u64::from(digit.min(1))
}

/// Where process `p` of `n` stands above the cycles where it has no label, the last at the right.
pub fn seat(n: u8, p: u8) -> u64
    requires few { n ≤ 6 }
    requires in_range { p < n }
    ensures { result ≡ seat n p }
{
    frames_of(n).width + 26 * u64::from(p) + 10 - 26 * u64::from(n)
}

/// The upper end of a process's row of the table.
pub fn row_top(p: u8) -> u64
    ensures { result ≡ row_top p }
{
    30 + 24 * u64::from(p)
}

/// The left end of the digit at this place of a row.
pub fn cell_left(place: usize) -> u64
    requires { place < 5 }
    ensures { result ≡ cell_left place }
{
    18 + 18 * place as u64
}
