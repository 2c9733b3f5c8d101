// The picture of a list of marks.
ghost use Rattle.std.specs.Prelude.{◌≡◌, ◌++◌, IfOk, OnOk, option_map};
ghost use Rattle.ticklab_draw.specs.Never.{broken_of};
ghost use Rattle.ticklab_draw.specs.Words.{names};
ghost use Rattle.ticklab_draw.specs.Pictures.{file_name, group_head, group_text, groups_text, heading, page_head, page_size, picture, picture_in, titled, under_text};

use crate::bands::{Lanes, bands};
use crate::colours::push_colour;
use crate::columns::{Column, columns};
use crate::feet::push_feet;
use crate::heads::push_heads;
use crate::lanes::{push_bands, push_ends};
use crate::layout::{column_at, last_column, page_height, page_width, sign_y};
use crate::legend::push_legend;
use crate::look::{Look, chosen_count, is_chosen};
use crate::mark::Mark;
use crate::never::{NeverMark, push_never};
use crate::pieces::{AND_COLOUR, GROUP_END, TEXT_END, TITLE_END};
use crate::shapes::push_drawn;
use crate::style::{BACKDROP, SHEET};
use crate::words::{Cast, push_sentence};
use crate::writing::{Added, push, push_escaped_bytes, push_one, push_two};
use base::NoMemory;
use base::tree::Named;
use std::alloc::Global;
use ticklab_trace::Parts;

const PAGE: &str =
    "<svg xmlns=\"http://www.w3.org/2000/svg\" role=\"img\" aria-labelledby=\"title about\" width=\"";

const AND_HEIGHT: &str = "\" height=\"";

const VIEW: &str = " viewBox=\"0 0 ";

const VIEW_END: &str = "\">\n";

const TITLE: &str = "<title id=\"title\">";

const PAGE_TITLE_END: &str = "</title>\n";

const ABOUT: &str = "<desc id=\"about\">";

const MARKS_OF_PROCESSES: &str = " marks of a run; processes: ";

const ABOUT_END: &str = "</desc>\n";

const SEEN_TITLE: &str = "<text class=\"title\" x=\"16\" y=\"26\">";

// A mark.
const MARK: &str = "<g id=\"mark-";

const MARK_AT: &str = "\" transform=\"translate(";

const MARK_TITLE: &str = ")\"><title>";

/// Those of the marks of a run of `processes` processes that are shown, as SVG. Rows of registers have these names, and
/// `r` with its number where there is none. A part of the run has a head above its first band. What must never hold has a
/// mark where it does.
#[tactic(auto, unfolding(crate::specs::Pictures::picture))]
pub fn picture(
    alloc: Global,
    title: &[u8],
    look: Look,
    processes: u8,
    registers: &[Named],
    parts: Option<Parts>,
    marks: &[Mark],
    never: Option<NeverMark<'_>>,
) -> Result<Vec<u8>, NoMemory>
    ensures { IfOk result (λ text. text.items ≡ picture title.now look processes (names registers.now) parts marks.now (option_map broken_of never.entry)) }
{
    let cast = Cast {
        processes,
        registers,
    };
    let columns = columns(alloc, look, cast, parts, marks)?;
    let bands = bands(alloc, look, processes, &columns, marks)?;
    let mut out = Vec::new(alloc);
    push_picture(
        alloc, &mut out, &bands, &columns, title, look, cast, marks, never,
    )?;
    Ok(out)
}

// The picture in these bands and columns.
#[tactic(auto, unfolding(crate::specs::Pictures::picture_in))]
fn push_picture(
    alloc: Global,
    out: &mut Vec<u8>,
    bands: &[Lanes],
    columns: &[Column],
    title: &[u8],
    look: Look,
    cast: Cast<'_>,
    marks: &[Mark],
    never: Option<NeverMark<'_>>,
) -> Added
    ensures { OnOk result (out.new.items ≡ out.old.items ++ picture_in bands.now columns.now title.now look cast.entry.processes (names cast.entry.registers.now) marks.now (option_map broken_of never.entry)) }
{
    let (n, last) = (cast.processes, last_column(columns).band);
    let width = page_width(look.width, columns);
    let height = page_height(bands, last, width);
    push_page(out, title, width, height, n, chosen_count(look, marks))?;
    push_heading(out, title)?;
    push_heads(out, width, bands, columns)?;
    push_never(out, bands, columns, marks, never)?;
    push_under(alloc, out, look, bands, n, columns, marks)?;
    push_groups(alloc, out, look, bands, cast, columns, marks)?;
    push_legend(out, bands, last, width)
}

// The page, its title and what it is of, for who sees it and for who has it read out.
#[tactic(auto, unfolding(crate::specs::Pictures::page_head))]
fn push_page(
    out: &mut Vec<u8>,
    title: &[u8],
    width: u64,
    height: u128,
    n: u8,
    count: usize,
) -> Added
    ensures { OnOk result (out.new.items ≡ out.old.items ++ page_head title.now width height n count) }
{
    let (count, n) = (count as u64, u128::from(n));
    push_size(out, width, height)?;
    push_titled(out, TITLE, title, PAGE_TITLE_END)?;
    push_two(out, ABOUT, count, MARKS_OF_PROCESSES, n, ABOUT_END)
}

#[tactic(auto, unfolding(crate::specs::Pictures::page_size))]
fn push_size(out: &mut Vec<u8>, width: u64, height: u128) -> Added
    ensures { OnOk result (out.new.items ≡ out.old.items ++ page_size width height) }
{
    push_two(out, PAGE, width, AND_HEIGHT, height, "\"")?;
    push_two(out, VIEW, width, " ", height, VIEW_END)
}

// The title between pieces of markup.
#[tactic(auto, unfolding(crate::specs::Pictures::titled))]
fn push_titled(out: &mut Vec<u8>, before: &str, title: &[u8], after: &str) -> Added
    ensures { OnOk result (out.new.items ≡ out.old.items ++ titled before.now title.now after.now) }
{
    push(out, before)?;
    push_escaped_bytes(out, title)?;
    push(out, after)
}

// The style; and the title, which is seen.
#[tactic(auto, unfolding(crate::specs::Pictures::heading))]
fn push_heading(out: &mut Vec<u8>, title: &[u8]) -> Added
    ensures { OnOk result (out.new.items ≡ out.old.items ++ heading title.now) }
{
    push(out, SHEET)?;
    push(out, BACKDROP)?;
    push_titled(out, SEEN_TITLE, title, TEXT_END)
}

/// The last part of a path, the name of its file.
#[tactic(auto, unfolding(crate::specs::Pictures::file_name))]
pub fn file_name(path: &[u8]) -> &[u8]
    ensures { result.now ≡ file_name path.now }
{
    let mut start = 0;
    for (at, byte) in path.iter().enumerate() {
        if *byte == b'/' {
            start = at + 1;
        }
    }
    &path[start..]
}

// What stands under the marks: lanes, how each process ended, and steps, orders and arrows.
#[tactic(auto, unfolding(crate::specs::Pictures::under_text))]
fn push_under(
    alloc: Global,
    out: &mut Vec<u8>,
    look: Look,
    bands: &[Lanes],
    n: u8,
    columns: &[Column],
    marks: &[Mark],
) -> Added
    ensures { OnOk result (out.new.items ≡ out.old.items ++ under_text look bands.now n columns.now marks.now) }
{
    push_bands(out, bands, n, columns)?;
    push_ends(out, bands, n, columns, marks)?;
    push_feet(alloc, out, look, bands, columns, marks)
}

// A group for each mark that is shown, in order.
fn push_groups(
    alloc: Global,
    out: &mut Vec<u8>,
    look: Look,
    bands: &[Lanes],
    cast: Cast<'_>,
    columns: &[Column],
    marks: &[Mark],
) -> Added
    ensures { OnOk result (out.new.items ≡ out.old.items ++ groups_text look bands.now cast.entry.processes (names cast.entry.registers.now) columns.now 0 marks.now) }
{
    for (at, mark) in marks.iter().enumerate() {
        let column = column_at(columns, at);
        push_group(alloc, out, look, bands, cast, column, at, mark)?;
    }
    Ok(())
}

// A mark that is shown: where it stands, what it shows in words, and what is drawn of it.
#[tactic(auto, unfolding(crate::specs::Pictures::group_text))]
fn push_group(
    alloc: Global,
    out: &mut Vec<u8>,
    look: Look,
    bands: &[Lanes],
    cast: Cast<'_>,
    column: Column,
    at: usize,
    mark: &Mark,
) -> Added
    ensures { OnOk result (out.new.items ≡ out.old.items ++ group_text look bands.now cast.entry.processes (names cast.entry.registers.now) column at mark.now) }
{
    if !is_chosen(look, mark) {
        return Ok(());
    }
    push_group_head(out, bands, column, at, mark.process)?;
    push_sentence(out, cast, mark)?;
    push(out, TITLE_END)?;
    push_drawn(alloc, out, cast, mark)?;
    push(out, GROUP_END)
}

#[tactic(auto, unfolding(crate::specs::Pictures::group_head))]
fn push_group_head(out: &mut Vec<u8>, bands: &[Lanes], column: Column, at: usize, p: u8) -> Added
    ensures { OnOk result (out.new.items ≡ out.old.items ++ group_head bands.now column at p) }
{
    push_one(out, MARK, at as u128 + 1, AND_COLOUR)?;
    push_colour(out, p)?;
    let y = sign_y(bands, column);
    push_two(out, MARK_AT, u64::from(column.x), " ", y, MARK_TITLE)
}
