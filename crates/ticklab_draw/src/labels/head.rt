// What stands before the frames: the page, its title and what is drawn once.
ghost use Rattle.std.specs.Prelude.{◌≡◌, ◌++◌, ◌≤◌, OnOk};
ghost use Rattle.ticklab_draw.specs.labels.Pictures.{head_text, page_size};

use crate::labels::layout::{page_height, page_width};
use crate::labels::shapes::push_shapes;
use crate::writing::{Added, push_two};

const PAGE: &str =
    "<svg xmlns='http://www.w3.org/2000/svg' role='img' aria-labelledby='title about' width='";

const AND_HEIGHT: &str = "' height='";

const VIEW: &str = " viewBox='0 0 ";

const VIEW_END: &str = "'>\n";

const TITLE: &str = "<title id='title'>Bounded labels (processes: ";

const AND_MOVES: &str = ", moves: ";

const PAGE_TITLE_END: &str = ")</title>\n";

/// Adds the head of a picture of `count` frames of `n` processes.
#[tactic(auto, unfolding(crate::specs::labels::Pictures::head_text))]
pub fn push_head(out: &mut Vec<u8>, n: u8, count: u64) -> Added
    requires { count ≤ 401 }
    ensures { OnOk result (out.new.items ≡ out.old.items ++ head_text n count) }
{
    push_size(out, page_width(n), page_height(n, count))?;
    let (processes, moves) = (u64::from(n), u128::from(count.saturating_sub(1)));
    push_two(out, TITLE, processes, AND_MOVES, moves, PAGE_TITLE_END)?;
    push_shapes(out, n)
}

#[tactic(auto, unfolding(crate::specs::labels::Pictures::page_size))]
fn push_size(out: &mut Vec<u8>, width: u64, height: u64) -> Added
    ensures { OnOk result (out.new.items ≡ out.old.items ++ page_size width height) }
{
    push_two(out, PAGE, width, AND_HEIGHT, u128::from(height), "'")?;
    push_two(out, VIEW, width, " ", u128::from(height), VIEW_END)
}
