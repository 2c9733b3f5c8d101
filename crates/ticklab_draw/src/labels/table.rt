// A process in the table: a row of digits.
ghost use Rattle.std.specs.Prelude.{◌≡◌, ◌++◌, ◌<◌, OnOk};
ghost use Rattle.ticklab_draw.specs.labels.Figures.{cell_text, cells_text, digits_text, row_text};

use crate::labels::cycles::{USE_END, push_mark};
use crate::labels::layout::{cell_left, row_top};
use crate::pieces::WORDS_END;
use crate::writing::{Added, push, push_two};
use label_core::Label;
use ticket_core::Move;

const ROW_AT: &str = "<g transform='translate(8 ";

const ROW_NAME: &str = ")'><text y='15'>";

const DIGIT: &str = "<use href='#digit-";

const AND_X: &str = "' x='";

const NO_LABEL: &str = "<use href='#absent'/>";

/// Adds the row of a process.
pub fn push_row(out: &mut Vec<u8>, made: Option<Move>, process: u8, label: &Option<Label>) -> Added
    ensures { OnOk result (out.new.items ≡ out.old.items ++ row_text made process label.now) }
{
    let (y, name) = (row_top(process), u128::from(process));
    push_two(out, ROW_AT, y, ROW_NAME, name, WORDS_END)?;
    push_cells(out, label)?;
    push_mark(out, made, process)
}

fn push_cells(out: &mut Vec<u8>, label: &Option<Label>) -> Added
    ensures { OnOk result (out.new.items ≡ out.old.items ++ cells_text label.now) }
{
    match label {
        Some(label) => push_digits(out, label),
        None => push(out, NO_LABEL),
    }
}

fn push_digits(out: &mut Vec<u8>, label: &Label) -> Added
    ensures { OnOk result (out.new.items ≡ out.old.items ++ digits_text 0 label.now) }
{
    for place in 0..label.len() {
        push_cell(out, place, label.digit(place))?;
    }
    Ok(())
}

#[tactic(auto, unfolding(crate::specs::labels::Figures::cell_text))]
fn push_cell(out: &mut Vec<u8>, place: usize, digit: u8) -> Added
    requires { place < 5 }
    ensures { OnOk result (out.new.items ≡ out.old.items ++ cell_text place digit) }
{
    let (digit, x) = (u64::from(digit), u128::from(cell_left(place)));
    push_two(out, DIGIT, digit, AND_X, x, USE_END)
}
