//! What a history is merged to.

use code_machine::Code;
use code_text::read_code;
use std::alloc::{AllocError, Global};
use std::test::Fail;
use tick_merge::{MergeFault, Shared, SharedAct, merge};

/// A step of a history: its process, and its act.
pub type Step = (u8, SharedAct);

fn history_of(alloc: Global, steps: &[Step]) -> Result<Vec<Shared>, AllocError> {
    let mut history = Vec::with_capacity(alloc, steps.len())?;
    for &(process, act) in steps {
        history.push(Shared { process, act })?;
    }
    Ok(history)
}

// Whether the history of the code comes to this. Where memory is refused it is asked once more.
fn is_merged(
    alloc: Global,
    code: &Code,
    history: &[Shared],
    turns: &[u64],
    wanted: Result<&[u8], MergeFault>,
) -> bool {
    if turns.len() != usize::from(code.sizes().processes()) {
        return false;
    }
    let answer = match merge(alloc, code, history, turns) {
        Err(MergeFault::NoMemory) => merge(alloc, code, history, turns),
        answer => answer,
    };
    match answer {
        Ok(schedule) => wanted == Ok(schedule.as_slice()),
        Err(fault) => wanted == Err(fault),
    }
}

/// Whether the history of the code that the text is comes to this.
pub fn comes_to(
    alloc: Global,
    text: &str,
    steps: &[Step],
    turns: &[u64],
    wanted: Result<&[u8], MergeFault>,
) -> Result<bool, Fail> {
    let history = history_of(alloc, steps)?;
    let code = read_code(alloc, text)?;
    Ok(is_merged(alloc, &code, &history, turns, wanted))
}
