// What stands under a frame: the labels, and the processes from the oldest on.
ghost use Rattle.std.specs.Prelude.{◌≡◌, ◌++◌, ◌≤◌, OnOk, length, true};
ghost use Rattle.ticklab_draw.specs.labels.Captions.{labels_line, labels_told, line_begin, mark_before, order_line, order_of, order_text, ranked_text};

use crate::labels::layout::{frames_of, is_nested};
use crate::pieces::TEXT_END;
use crate::words::push_labels;
use crate::writing::{Added, LESS_THAN, push, push_one};
use word_core::LabelWord;

const TOLD_AT: &str = "<text class='told' x='8' y='";

const LABELS: &str = "'>labels";

const ORDER: &str = "'>order ";

/// Adds the labels, as `ticketc order` writes them. A table has them above.
pub fn push_labels_line(out: &mut Vec<u8>, labels: &LabelWord) -> Added
    ensures { OnOk result (out.new.items ≡ out.old.items ++ labels_line labels.now) }
{
    if is_nested(labels.n()) {
        push_labels_told(out, labels)
    } else {
        Ok(())
    }
}

#[tactic(auto, unfolding(crate::specs::labels::Captions::labels_told))]
fn push_labels_told(out: &mut Vec<u8>, labels: &LabelWord) -> Added
    ensures { OnOk result (out.new.items ≡ out.old.items ++ labels_told labels.now) }
{
    push_begin(out, labels.n(), 38, LABELS)?;
    push_labels(out, labels)?;
    push(out, TEXT_END)
}

// Adds the beginning of a line of words, so far above the lower end of the frame.
fn push_begin(out: &mut Vec<u8>, n: u8, above: u64, words: &str) -> Added
    requires { above ≤ 38 }
    ensures { OnOk result (out.new.items ≡ out.old.items ++ line_begin n above words.now) }
{
    let height = u128::from(frames_of(n).height - above);
    push_one(out, TOLD_AT, height, words)
}

/// Adds the processes from the oldest on.
#[tactic(auto, unfolding(crate::specs::labels::Captions::order_line))]
pub fn push_order_line(out: &mut Vec<u8>, labels: &LabelWord) -> Added
    ensures { OnOk result (out.new.items ≡ out.old.items ++ order_line labels.now) }
{
    push_begin(out, labels.n(), 20, ORDER)?;
    push_order_of(out, labels)?;
    push(out, TEXT_END)
}

#[tactic(auto, using(crate::proofs::labels::RankLemmas::order_of_row))]
fn push_order_of(out: &mut Vec<u8>, labels: &LabelWord) -> Added
    ensures { OnOk result (out.new.items ≡ out.old.items ++ order_of labels.now) }
{
    let n = labels.n() as usize;
    push_order(out, &labels.ranks()[..n])
}

fn push_order(out: &mut Vec<u8>, ranks: &[u8]) -> Added
    requires { length ranks.now ≤ 6 }
    ensures { OnOk result (out.new.items ≡ out.old.items ++ order_text ranks.now (length ranks.now)) }
{
    for rank in 0..ranks.len() {
        push_ranked(out, ranks, rank as u8)?;
    }
    Ok(())
}

// The processes of this rank: those without a label have one in common.
fn push_ranked(out: &mut Vec<u8>, ranks: &[u8], rank: u8) -> Added
    ensures { OnOk result (out.new.items ≡ out.old.items ++ ranked_text rank true 0 ranks.now) }
{
    let mut first = true;
    for (process, &other) in ranks.iter().enumerate() {
        if other == rank {
            push_one(out, mark_before(rank, first), process as u128, "")?;
            first = false;
        }
    }
    Ok(())
}

fn mark_before(rank: u8, first: bool) -> &'static str
    ensures { result.now ≡ mark_before rank first }
{
    match (rank, first) {
        (_, false) => ",",
        (0, true) => "",
        _ => LESS_THAN,
    }
}
