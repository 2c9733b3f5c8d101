// A process in the nested cycles: one translation for each digit of its label.
ghost use Rattle.std.specs.Prelude.{◌≡◌, ◌++◌, ◌<◌, ◌≤◌, OnOk};
ghost use Rattle.ticklab_draw.specs.labels.Figures.{absent_text, is_mover, mark_text, place_text, process_text, spot_text, step_text};

use crate::labels::layout::{below, frames_of, right, seat};
use crate::pieces::GROUP_END;
use crate::writing::{Added, push, push_one, push_two};
use label_core::Label;
use ticket_core::Move;

const GROUP_AT: &str = "<g transform='translate(";

const STEP: &str = " translate(";

const PRESENT: &str = "'><use href='#process-";

const ABSENT: &str = " 14)'><use href='#absent-";

const MOVED: &str = "<use href='#moved'/></g>\n";

/// The end of a use of what is drawn once.
pub const USE_END: &str = "'/>";

/// Adds process `process` of `n` at the place of its label, or beside the cycles where it has none.
pub fn push_process(
    out: &mut Vec<u8>,
    n: u8,
    made: Option<Move>,
    process: u8,
    label: &Option<Label>,
) -> Added
    requires few { n ≤ 6 }
    requires in_range { process < n }
    ensures { OnOk result (out.new.items ≡ out.old.items ++ process_text n made process label.now) }
{
    match label {
        Some(label) => push_present(out, n, process, label)?,
        None => push_absent(out, n, process)?,
    }
    push_mark(out, made, process)
}

fn push_present(out: &mut Vec<u8>, n: u8, process: u8, label: &Label) -> Added
    ensures { OnOk result (out.new.items ≡ out.old.items ++ spot_text n process (Some label.now)) }
{
    let frames = frames_of(n);
    push_two(out, GROUP_AT, frames.left, " ", u128::from(frames.top), ")")?;
    push_steps(out, n, label)?;
    push_one(out, PRESENT, u128::from(process), USE_END)
}

fn push_steps(out: &mut Vec<u8>, n: u8, label: &Label) -> Added
    ensures { OnOk result (out.new.items ≡ out.old.items ++ place_text n 0 label.now) }
{
    for level in 0..label.len() {
        push_step(out, n, level, label.digit(level))?;
    }
    Ok(())
}

#[tactic(auto, unfolding(crate::specs::labels::Figures::step_text))]
fn push_step(out: &mut Vec<u8>, n: u8, level: usize, digit: u8) -> Added
    requires { digit < 3 }
    ensures { OnOk result (out.new.items ≡ out.old.items ++ step_text n level digit) }
{
    let (right, below) = (right(n, level, digit), below(n, level, digit));
    push_two(out, STEP, right, " ", u128::from(below), ")")
}

#[tactic(auto, unfolding(crate::specs::labels::Figures::absent_text))]
fn push_absent(out: &mut Vec<u8>, n: u8, process: u8) -> Added
    requires few { n ≤ 6 }
    requires in_range { process < n }
    ensures { OnOk result (out.new.items ≡ out.old.items ++ absent_text n process) }
{
    let (x, name) = (seat(n, process), u128::from(process));
    push_two(out, GROUP_AT, x, ABSENT, name, USE_END)
}

/// Adds the mark of the process that moved, and ends its group.
#[tactic(auto, unfolding(crate::specs::labels::Figures::mark_text))]
pub fn push_mark(out: &mut Vec<u8>, made: Option<Move>, process: u8) -> Added
    ensures { OnOk result (out.new.items ≡ out.old.items ++ mark_text made process) }
{
    if is_mover(made, process) {
        push(out, MOVED)
    } else {
        push(out, GROUP_END)
    }
}

fn is_mover(made: Option<Move>, process: u8) -> bool
    ensures { result ≡ is_mover made process }
{
    match made {
        None => false,
        Some(Move::Stamp(mover)) => mover == process,
        Some(Move::Clear(mover)) => mover == process,
    }
}
