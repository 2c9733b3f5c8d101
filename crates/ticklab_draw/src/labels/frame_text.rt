// What a frame shows: the move, where each process has its label, the labels, and the order.
ghost use Rattle.std.specs.Prelude.{◌≡◌, ◌++◌, ◌≤◌, ◌<◌, OnOk, length};
ghost use Rattle.ticklab_draw.specs.labels.Captions.{heading_text};
ghost use Rattle.ticklab_draw.specs.labels.Figures.{figure_text, figures_text, nest_text};
ghost use Rattle.ticklab_draw.specs.labels.Pictures.{begin_text, frame_text};
ghost use Rattle.word_core.specs.Stamps.{label_at};

use crate::labels::caption::{push_labels_line, push_order_line};
use crate::labels::cycles::push_process;
use crate::labels::layout::{frame_left, frame_top, is_nested};
use crate::labels::run::Frame;
use crate::labels::table::push_row;
use crate::pieces::{GROUP_END, TEXT_END};
use crate::writing::{Added, push, push_one, push_two};
use ticket_core::Move;
use word_core::LabelWord;

const FRAME: &str = "<g id='frame-";

const FRAME_AT: &str = " transform='translate(";

const FRAME_AT_END: &str = ")'>\n";

const START: &str = "<text class='move' x='8' y='18'>start</text>\n";

const MOVE: &str = "<text class='move' x='8' y='18'>";

const STAMPED: &str = ": stamp ";

const CLEARED: &str = ": clear ";

const NEST: &str = "<use href='#nest'/>\n";

/// Adds a frame, which stands at this place of the list.
pub fn push_frame(out: &mut Vec<u8>, at: usize, frame: &Frame) -> Added
    requires { at ≤ 400 }
    ensures { OnOk result (out.new.items ≡ out.old.items ++ frame_text at frame.now) }
{
    let n = frame.labels.n();
    push_begin(out, n, at as u64)?;
    push_heading(out, at as u64, frame.made)?;
    push_nest(out, n)?;
    push_figures(out, frame.made, &frame.labels)?;
    push_labels_line(out, &frame.labels)?;
    push_order_line(out, &frame.labels)?;
    push(out, GROUP_END)
}

// The name of the frame, and its place on the page.
#[tactic(auto, unfolding(crate::specs::labels::Pictures::begin_text))]
fn push_begin(out: &mut Vec<u8>, n: u8, at: u64) -> Added
    requires { at ≤ 400 }
    ensures { OnOk result (out.new.items ≡ out.old.items ++ begin_text n at) }
{
    push_one(out, FRAME, u128::from(at), "'")?;
    let (left, top) = (frame_left(n, at), u128::from(frame_top(n, at)));
    push_two(out, FRAME_AT, left, " ", top, FRAME_AT_END)
}

#[tactic(auto, unfolding(crate::specs::labels::Captions::heading_text))]
fn push_heading(out: &mut Vec<u8>, at: u64, made: Option<Move>) -> Added
    ensures { OnOk result (out.new.items ≡ out.old.items ++ heading_text at made) }
{
    match made {
        None => push(out, START),
        Some(Move::Stamp(p)) => push_two(out, MOVE, at, STAMPED, u128::from(p), TEXT_END),
        Some(Move::Clear(p)) => push_two(out, MOVE, at, CLEARED, u128::from(p), TEXT_END),
    }
}

#[tactic(auto, unfolding(crate::specs::labels::Figures::nest_text))]
fn push_nest(out: &mut Vec<u8>, n: u8) -> Added
    ensures { OnOk result (out.new.items ≡ out.old.items ++ nest_text n) }
{
    if is_nested(n) {
        push(out, NEST)
    } else {
        Ok(())
    }
}

// Where each process has its label.
fn push_figures(out: &mut Vec<u8>, made: Option<Move>, labels: &LabelWord) -> Added
    ensures { OnOk result (out.new.items ≡ out.old.items ++ figures_text (length labels.now) made 0 labels.now) }
{
    for process in 0..labels.n() {
        push_figure(out, made, labels, process)?;
    }
    Ok(())
}

fn push_figure(out: &mut Vec<u8>, made: Option<Move>, labels: &LabelWord, process: u8) -> Added
    requires { process < length labels.now }
    ensures { OnOk result (out.new.items ≡ out.old.items ++ figure_text (length labels.now) made process (label_at labels.now process)) }
{
    let n = labels.n();
    let label = labels.label(process);
    if is_nested(n) {
        push_process(out, n, made, process, &label)
    } else {
        push_row(out, made, process, &label)
    }
}
