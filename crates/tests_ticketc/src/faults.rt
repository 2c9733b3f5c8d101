//! Tests of the texts of faults: no clause says them, and callers of a library show them to people.
//!
//! First stand the faults of texts, kinds, questions and schedules, then those of codes and histories, then those of
//! reading, writing, threads and memory. Of some faults `{:?}` makes the same words.
use base::NoMemory;
use base::span::Span;
use code_core::CodeFault;
use language_questions::{Missing, QuestionFault};
use stamp_table::OpenFault;
use std::alloc::Global;
use std::fmt::{Debug, Display};
use std::test::Fail;
use tests_shared::holds;
use tick_kinds::{Kind, KindFault};
use tick_lower::LowerFault;
use tick_merge::MergeFault;
use tick_play::ScheduleFault;
use tick_run::RunFault;
use tick_syntax::TextFault;
use ticketc_answers::EngineFault;
use ticketc_io::EndFault;

// That these are the texts of faults of a kind.
fn tell<F: Display>(alloc: Global, kind: &str, faults: &[(F, &str)]) -> Result<(), Fail> {
    for (fault, text) in faults {
        let told = format!(in alloc; "{fault}")?;
        holds(told.as_str() == *text, (kind, *text))?;
    }
    Ok(())
}

// The same, and `{:?}` makes them too.
fn say<F: Display + Debug + Copy>(
    alloc: Global,
    kind: &str,
    faults: &[(F, &str)],
) -> Result<(), Fail> {
    tell(alloc, kind, faults)?;
    for (fault, text) in faults {
        let told = format!(in alloc; "{fault:?}")?;
        holds(told.as_str() == *text, (kind, *text))?;
    }
    Ok(())
}

const SPAN: Span = Span { start: 7, end: 12 };

static TEXT_FAULTS: [(TextFault, &str); 7] = [
    (
        TextFault::TextTooLong,
        "the text has more than 1000000 bytes",
    ),
    (TextFault::BadCharacter(3), "no token begins at byte 3"),
    (
        TextFault::NumberTooBig(SPAN),
        "the number at bytes 7..12 is above 4294967295",
    ),
    (
        TextFault::NameTooLong(SPAN),
        "the name at bytes 7..12 has more than 64 bytes",
    ),
    (
        TextFault::Unexpected(SPAN),
        "no program goes on with bytes 7..12",
    ),
    (
        TextFault::TooDeep(SPAN),
        "the bracket at bytes 7..12 is the 65th open at once",
    ),
    (TextFault::NoMemory, "out of memory"),
];

static KIND_FAULTS: [(KindFault, &str); 8] = [
    (
        KindFault::Processes(SPAN),
        "the number of processes at bytes 7..12 is not 1 to 6",
    ),
    (
        KindFault::Twice(SPAN),
        "the name at bytes 7..12 was declared before",
    ),
    (
        KindFault::Unknown(SPAN),
        "the name at bytes 7..12 is not declared",
    ),
    (
        KindFault::WrongKind {
            span: SPAN,
            wanted: Kind::Variable,
            found: Kind::Scan,
        },
        "the name at bytes 7..12 is declared as scan, and a variable stands here",
    ),
    (
        KindFault::WrongKind {
            span: SPAN,
            wanted: Kind::Scan,
            found: Kind::Register,
        },
        "the name at bytes 7..12 is declared as register, and a scan stands here",
    ),
    (
        KindFault::WrongKind {
            span: SPAN,
            wanted: Kind::Register,
            found: Kind::Variable,
        },
        "the name at bytes 7..12 is declared as variable, and a register stands here",
    ),
    (
        KindFault::TooMany(SPAN),
        "the name at bytes 7..12 is one too many of its kind",
    ),
    (KindFault::NoMemory, "out of memory"),
];

static QUESTION_FAULTS: [(QuestionFault, &str); 15] = [
    (
        QuestionFault::BadCharacter(SPAN),
        "no token begins with the character at bytes 7..12",
    ),
    (
        QuestionFault::NumberTooBig(SPAN),
        "the number at bytes 7..12 is above 4294967295",
    ),
    (
        QuestionFault::Unexpected(Missing::End, SPAN),
        "no question goes on with bytes 7..12",
    ),
    (
        QuestionFault::TooDeep(SPAN),
        "the question is nested too deeply at bytes 7..12",
    ),
    (
        QuestionFault::Unknown(SPAN),
        "nothing has the name at bytes 7..12",
    ),
    (
        QuestionFault::NotShared(SPAN),
        "no other process sees what the name at bytes 7..12 names",
    ),
    (
        QuestionFault::Twice(SPAN),
        "the name at bytes 7..12 is in use",
    ),
    (
        QuestionFault::TwoMeanings(SPAN),
        "the word at bytes 7..12 names a register row too",
    ),
    (
        QuestionFault::NoSuchProcess(SPAN),
        "there is no process of the number at bytes 7..12",
    ),
    (
        QuestionFault::NoSuchWord(SPAN),
        "no question begins with the word at bytes 7..12",
    ),
    (
        QuestionFault::NotAsked(SPAN),
        "no question is asked by the comment with the word at bytes 7..12",
    ),
    (
        QuestionFault::EndsTwice(SPAN),
        "a line before bytes 7..12 says what has to end",
    ),
    (
        QuestionFault::NotExpected(SPAN),
        "nothing is expected by the word at bytes 7..12",
    ),
    (
        QuestionFault::ExpectTwice(SPAN),
        "a line before bytes 7..12 says what is expected",
    ),
    (QuestionFault::NoMemory, "out of memory"),
];

static SCHEDULE_FAULTS: [(ScheduleFault, &str); 4] = [
    (ScheduleFault::BadItem(5), "bad item at 5"),
    (ScheduleFault::NoSuchProcess(6), "no such process at 6"),
    (ScheduleFault::TooLong, "too many steps"),
    (ScheduleFault::NoMemory, "out of memory"),
];

static CODE_FAULTS: [(CodeFault, &str); 10] = [
    (CodeFault::Empty, "the code is empty"),
    (CodeFault::TooLong, "the code is too long"),
    (CodeFault::BadJump(4), "instruction 4 jumps past the end"),
    (
        CodeFault::StackShort(4),
        "instruction 4 takes more values than there are",
    ),
    (
        CodeFault::HeightsDiffer(4),
        "instruction 4 is reached, or jumps, with another height of the stack",
    ),
    (
        CodeFault::BadSlot(4),
        "instruction 4 names a slot that there is not",
    ),
    (
        CodeFault::FallsOff(4),
        "the code goes on past instruction 4, its last",
    ),
    (CodeFault::BadStamp(4), "instruction 4 breaks a stamp"),
    (CodeFault::BadLine(9), "line 9 is no line of a code"),
    (CodeFault::NoMemory, "out of memory"),
];

static LOWER_FAULTS: [(LowerFault, &str); 2] = [
    (LowerFault::TooLong, "the code is too long"),
    (LowerFault::NoMemory, "out of memory"),
];

static MERGE_FAULTS: [(MergeFault, &str); 3] = [
    (MergeFault::NotLegal(4), "step 4 can't come next"),
    (
        MergeFault::NotThisCode(1, 4),
        "process 1 doesn't go so at step 4",
    ),
    (MergeFault::NoMemory, "out of memory"),
];

static END_FAULTS: [(EndFault, &str); 3] = [
    (EndFault::Read, "reading failed"),
    (EndFault::Write, "writing failed"),
    (EndFault::Memory, "out of memory"),
];

static ENGINE_FAULTS: [(EngineFault, &str); 4] = [
    (EngineFault::Read, "reading failed"),
    (EngineFault::Write, "writing failed"),
    (EngineFault::Memory, "out of memory"),
    (EngineFault::Thread, "no thread could be started"),
];

static RUN_FAULTS: [(RunFault, &str); 2] = [
    (RunFault::NoMemory, "out of memory"),
    (RunFault::NoThread, "no thread"),
];

static OPEN_FAULTS: [(OpenFault, &str); 1] = [(OpenFault::NoMemory, "out of memory")];

#[test]
fn each_fault(rt: HostRuntime) -> Result<(), Fail> {
    let alloc = rt.alloc();
    say(alloc, "TextFault", &TEXT_FAULTS)?;
    say(alloc, "KindFault", &KIND_FAULTS)?;
    say(alloc, "QuestionFault", &QUESTION_FAULTS)?;
    tell(alloc, "ScheduleFault", &SCHEDULE_FAULTS)?;
    say(alloc, "CodeFault", &CODE_FAULTS)?;
    tell(alloc, "LowerFault", &LOWER_FAULTS)?;
    tell(alloc, "MergeFault", &MERGE_FAULTS)?;
    tell(alloc, "EndFault", &END_FAULTS)?;
    tell(alloc, "EngineFault", &ENGINE_FAULTS)?;
    tell(alloc, "RunFault", &RUN_FAULTS)?;
    tell(alloc, "OpenFault", &OPEN_FAULTS)?;
    tell(alloc, "NoMemory", &[(NoMemory, "out of memory")])
}
