// The heads of the parts of a run that goes on for ever.
ghost use Rattle.std.specs.Prelude.{◌≡◌, ◌==◌, ◌++◌, [], OnOk, if◌then◌else◌};
ghost use Rattle.ticklab_draw.specs.Heads.{head_text, heads_text};

use crate::bands::Lanes;
use crate::columns::Column;
use crate::lanes::push_caption;
use crate::layout::{EDGE, head_y, strip_y};
use crate::pieces::AND_Y;
use crate::writing::{Added, push_two};

// A light strip across the page.
const STRIP: &str = "<rect fill=\"#e4e4de\" width=\"";

const STRIP_END: &str = "\" height=\"20\"/>\n";

/// Adds a head above the first band of each part, on a page so wide.
pub fn push_heads(out: &mut Vec<u8>, width: u64, bands: &[Lanes], columns: &[Column]) -> Added
    ensures { OnOk result (out.new.items ≡ out.old.items ++ heads_text width bands.now columns.now) }
{
    let mut last = EDGE;
    for &column in columns {
        push_begun_head(out, width, bands, last, column)?;
        last = column;
    }
    Ok(())
}

// The head above the band of a column, where there is one that isn't above the band of the last.
fn push_begun_head(
    out: &mut Vec<u8>,
    width: u64,
    bands: &[Lanes],
    last: Column,
    next: Column,
) -> Added
    ensures { OnOk result (out.new.items ≡ out.old.items ++ (if last.band.heads == next.band.heads then [] else head_text width bands.now next)) }
{
    if last.band.heads == next.band.heads {
        Ok(())
    } else {
        push_head(out, width, bands, next)
    }
}

#[tactic(auto, unfolding(crate::specs::Heads::head_text))]
fn push_head(out: &mut Vec<u8>, width: u64, bands: &[Lanes], column: Column) -> Added
    ensures { OnOk result (out.new.items ≡ out.old.items ++ head_text width bands.now column) }
{
    let strip = strip_y(bands, column.band);
    push_two(out, STRIP, width, AND_Y, strip, STRIP_END)?;
    push_caption(out, head_y(bands, column.band), column.part.name())
}
