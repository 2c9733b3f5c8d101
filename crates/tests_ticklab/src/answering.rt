//! `explored` on an input, made once more where memory was refused; and whole answers.
use crate::reading::OneFile;
use searches_explore::Limits;
use std::alloc::Global;
use std::str;
use std::test::Fail;
use tests_shared::is_same;
use ticklab_files::AnswerFault::NoMemory;
use ticklab_files::LabFault::Answer;
use ticklab_files::{LabFault, Response};
use ticklab_line::{Output, Steps};
use ticklab_verdicts::{Progress, explored};

pub type Answered = Result<Response, LabFault>;

// The name of the file of each input.
static NAME: &str = "a.tick";

pub fn explored_by<W: Progress>(
    alloc: Global,
    input: &[u8],
    limits: Limits,
    steps: Steps,
    watch: &mut W,
) -> Answered {
    let mut files = OneFile {
        name: NAME,
        bytes: input,
    };
    let text = Output::Text;
    match explored(alloc, &mut files, watch, NAME, &[], limits, steps, text) {
        Err(Answer(NoMemory)) => explored(alloc, &mut files, watch, NAME, &[], limits, steps, text),
        answered => answered,
    }
}

/// That this is the whole answer: its status, what goes out and what is told.
pub fn is_answer(answered: Answered, status: u8, out: &str, told: &str) -> Result<(), Fail> {
    let response = answered?;
    let found = (
        response.status,
        str::from_utf8(&response.out),
        str::from_utf8(&response.told),
    );
    is_same(&found, &(status, Ok(out), Ok(told)))
}
