// What the picture's signs mean, below all bands.
ghost use Rattle.std.specs.Prelude.{◌≡◌, ◌++◌, ◌<◌, ◌^◌, OnOk};
ghost use Rattle.ticklab_draw.specs.Legend.{legend_text, narrow_line, narrow_lines, wide_legend};

use crate::bands::Lanes;
use crate::columns::Band;
use crate::lanes::push_caption;
use crate::layout::{is_narrow, page_height};
use crate::pieces::PICTURE_END;
use crate::writing::{Added, push};

// The lines of a wide page.
const FIRST_LEGEND: &str =
    "■ put · □ get, and an arrow from the put that it reads · ● stamp, with its ticket · ▽ clear · order: who holds a ticket, smallest first";

const SECOND_LEGEND: &str =
    "○ scan, with ranks · ◆ yes, ◇ no to a question · flag: a value given out · ✕ trap · ▌ end";

const THIRD_LEGEND: &str = "dashed: a lost exchange · step: its number in the schedule";

// Those of a narrow one, each of at most 40 letters.
const PUT_AND_STAMP: &str = "■ put · ● stamp, with its ticket";

const GET_AND_ARROW: &str = "□ get: arrow from the put that it reads";

const CLEAR_AND_SCAN: &str = "▽ clear · ○ scan, with ranks";

const ORDER_BELOW: &str = "order: who holds a ticket, oldest first";

const YES_AND_NO: &str = "◆ yes, ◇ no to a question";

const OUT_AND_TRAP: &str = "flag: a value given out · ✕ trap";

const END_AND_LOST: &str = "▌ end · dashed: a lost exchange";

const STEP_BELOW: &str = "step: its number in the schedule";

/// Adds the legend of the page of this width with this last band, and the end of the picture.
#[tactic(auto, unfolding(crate::specs::Legend::legend_text))]
pub fn push_legend(out: &mut Vec<u8>, bands: &[Lanes], last: Band, width: u64) -> Added
    ensures { OnOk result (out.new.items ≡ out.old.items ++ legend_text bands.now last width) }
{
    let foot = page_height(bands, last, width);
    if is_narrow(width) {
        push_narrow(out, foot.saturating_sub(162))?;
    } else {
        push_wide(out, foot)?;
    }
    push(out, PICTURE_END)
}

// At the foot of a page so high.
#[tactic(auto, unfolding(crate::specs::Legend::wide_legend))]
fn push_wide(out: &mut Vec<u8>, foot: u128) -> Added
    ensures { OnOk result (out.new.items ≡ out.old.items ++ wide_legend foot) }
{
    push_caption(out, foot.saturating_sub(62), FIRST_LEGEND)?;
    push_caption(out, foot.saturating_sub(42), SECOND_LEGEND)?;
    push_caption(out, foot.saturating_sub(22), THIRD_LEGEND)
}

// The lines for a narrow page, from this height on.
fn push_narrow(out: &mut Vec<u8>, top: u128) -> Added
    requires { top < 2 ^ 90 }
    ensures { OnOk result (out.new.items ≡ out.old.items ++ narrow_lines top 8) }
{
    for at in 0..8 {
        push_caption(out, top + 20 * u128::from(at), narrow_line(at))?;
    }
    Ok(())
}

#[tactic(auto, unfolding(crate::specs::Legend::narrow_line))]
fn narrow_line(at: u8) -> &'static str
    ensures { result.now ≡ narrow_line at }
{
    match at {
        0 => PUT_AND_STAMP,
        1 => GET_AND_ARROW,
        2 => CLEAR_AND_SCAN,
        3 => ORDER_BELOW,
        4 => YES_AND_NO,
        5 => OUT_AND_TRAP,
        6 => END_AND_LOST,
        _ => STEP_BELOW,
    }
}
