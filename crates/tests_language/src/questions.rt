//! Tests of `language_questions`: each kind of a question and of a line is read, a long file, and a long comment.

use base::span::Span;
use language_properties::Property;
use language_questions::{Ends, Expected, never_of, questions_of};
use std::test::Fail;
use tests_shared::{Checked, holds, is_same, repeated};

// Of the rows, one is named as a word of questions.
const PROGRAM: &str = "processes 3; var x; scan s; reg level, inside, ended; begin end";

// Each kind of a question. No contract says of which texts want of memory is told.
static KINDS: [&str; 16] = [
    "n",
    "  007 # and more",
    "level[2] or inside[n - 1]",
    "trapped[0]",
    "older[1, (n - 1)]",
    "(((held[0])))",
    "1 < (sum p: inside[p])",
    "some p: some q: (not (p == q)) and inside[p] and inside[q]",
    "1 and 2 and 3 and 4",
    "not held[0]",
    "1<=2",
    "1!=2",
    "all x: x % 2",
    "some some_: some_ * 3",
    "held\n[\t1\r]",
    "4294967295 / 2",
];

#[test]
fn reads_each_kind(rt: HostRuntime) -> Result<(), Fail> {
    let checked = Checked::new(rt.alloc(), PROGRAM)?;
    for text in KINDS {
        let read = never_of(rt.alloc(), &checked.program, text);
        holds(read.is_ok(), text)?;
    }
    Ok(())
}

// Each kind of a line that asks.
static LINES: [&str; 14] = [
    "#! never n",
    "end #!never n # and more",
    "#! ends all",
    "#! ends none # and more",
    "#! ends 2 0",
    "#! ends all wait_free",
    "#! ends none alone",
    "#! ends 2 0 1 0 0 0 alone # and more",
    "#! expect safe",
    "#! expect trap",
    "#! expect never",
    "#! expect stuck",
    "#! expect not_wait_free",
    "#! expect not_alone",
];

#[test]
fn reads_each_line(rt: HostRuntime) -> Result<(), Fail> {
    let checked = Checked::new(rt.alloc(), PROGRAM)?;
    for text in LINES {
        let read = questions_of(rt.alloc(), &checked.program, text);
        holds(read.is_ok(), text)?;
    }
    Ok(())
}

// A line of each condition, in an order of its own.
const CONDITIONS: &str =
    "#! ends 0 2 alone\n#! expect not_alone\n#! ends none\n#! ends all wait_free";

#[test]
fn conditions_stand_side_by_side(rt: HostRuntime) -> Result<(), Fail> {
    let checked = Checked::new(rt.alloc(), PROGRAM)?;
    let questions = questions_of(rt.alloc(), &checked.program, CONDITIONS)?;
    let ends = questions.ends;
    holds(matches!(ends.fair, Some(Ends::Nobody)), "without a word")?;
    holds(matches!(ends.wait_free, Some(Ends::All)), "wait_free")?;
    let first_and_last = [true, false, true, false, false, false];
    let alone = matches!(ends.alone, Some(Ends::Each(marks)) if marks == first_and_last);
    holds(alone, "alone")?;
    let expected = questions.expected;
    holds(matches!(expected, Some(Expected::NotAlone)), "expected")
}

// 1,000,000 bytes, of which the last line asks something.
#[test]
fn long_files_are_read(rt: HostRuntime) -> Result<(), Fail> {
    let alloc = rt.alloc();
    let checked = Checked::new(alloc, PROGRAM)?;
    let file = repeated(alloc, "", "# comment\n", 99_999, "#! never 1")?;
    let questions = questions_of(alloc, &checked.program, file.as_str())?;
    let asked = match questions.never.as_slice() {
        [line] => Some((line.span, matches!(line.property, Property::Number(1)))),
        _ => None,
    };
    let span = Span {
        start: 999_999,
        end: 1_000_000,
    };
    is_same(&asked, &Some((span, true)))
}

// A comment of a million bytes, of which every second might begin a question that isn't asked.
#[test]
fn long_comments_are_read(rt: HostRuntime) -> Result<(), Fail> {
    let alloc = rt.alloc();
    let checked = Checked::new(alloc, PROGRAM)?;
    let file = repeated(alloc, "", "# ", 499_995, "neverland")?;
    let questions = questions_of(alloc, &checked.program, file.as_str())?;
    let asked = questions.never.as_slice().len();
    is_same(&asked, &0)
}
