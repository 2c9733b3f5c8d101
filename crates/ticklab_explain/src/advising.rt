// Which hint is told of a fault in a question.
ghost use Rattle.std.specs.Prelude.{◌≡◌};
ghost use Rattle.ticklab_explain.specs.Advising.{advice_of, first_hint, hint_for, missing_advice, sign_advice};
ghost use Rattle.ticklab_explain.specs.Rows.{slips_of};

use crate::advice::COUNTED_FROM_ZERO;
use crate::question_slips::{
    BEGINNINGS, CHARACTERS, CLOSING_STANDS_HERE, CLOSINGS, COLON_STANDS_HERE, COLONS,
    COMMA_STANDS_HERE, COMMAS, CONDITION_STANDS_HERE, CONDITIONS, END_STANDS_HERE, ENDS,
    EXPECTATIONS, INDEX_END_STANDS_HERE, INDEX_ENDS, INDEX_STANDS_HERE, INDEXES, LINE_ENDS,
    LINE_ENDS_HERE, NAME_STANDS_HERE, NAMES, OPERAND_STANDS_HERE, OPERANDS, PARTS_OF_QUESTIONS,
    PROCESS_STANDS_HERE, PROCESSES, STRANGERS, Slip, WHAT_IS_SEEN, WORDS_OF_QUESTIONS,
};
use crate::words::is_one_of;
use language_questions::{Missing, QuestionFault, Sign};

// Hints that a fault always has.
const GREATEST_NUMBER: &str = "numbers go up to 4294967295";

const MOST_LEVELS: &str =
    "there are at most 64 levels, 64 times `and` or `or` in a row, and 8 names at once";

const WRITE_INTO_A_ROW: &str = "write it into a register row, and ask for the row";

const TAKE_ANOTHER_NAME: &str = "take another name";

const RENAME_THE_ROW: &str = "give the register row another name";

const BEGIN_OF_ASKING: &str =
    "a comment that asks begins with `#!`; one that doesn't ask is written as `# off: never ..`";

const ONE_LINE_NAMES_ALL: &str =
    "a file has at most one line `#! ends ..`, one `#! ends .. wait_free` and one `#! ends .. alone`: name all in one line, as in `#! ends 0 2`";

const WORDS_OF_EXPECT: &str =
    "behind `#! expect` stands `safe`, `trap`, `never`, `stuck`, `not_wait_free` or `not_alone`";

const ONE_IS_EXPECTED: &str = "one thing is expected of a file";

/// What may help, where these letters stand at the place of a fault.
pub fn hint_for(fault: QuestionFault, letters: &str) -> &'static str
    ensures { result.now ≡ hint_for fault letters.now }
{
    let (slips, other) = advice_of(fault);
    first_hint(slips, letters, other)
}

// The hint of the first row that has the letters; another where none has.
fn first_hint(slips: &[Slip], letters: &str, other: &'static str) -> &'static str
    ensures { result.now ≡ first_hint (slips_of slips.now) letters.now other.now }
{
    for (words, hint) in slips {
        if is_one_of(letters, words) {
            return hint;
        }
    }
    other
}

// The rows for a fault, and the hint where none of them has the letters.
fn advice_of(fault: QuestionFault) -> (&'static [Slip], &'static str)
    ensures rows { slips_of result.0.now ≡ (advice_of fault).0 }
    ensures other { result.1.now ≡ (advice_of fault).1 }
{
    match fault {
        QuestionFault::BadCharacter(_) => (CHARACTERS, PARTS_OF_QUESTIONS),
        QuestionFault::NumberTooBig(_) => (&[], GREATEST_NUMBER),
        QuestionFault::Unexpected(missing, _) => missing_advice(missing),
        QuestionFault::TooDeep(_) => (&[], MOST_LEVELS),
        QuestionFault::Unknown(_) => (STRANGERS, WHAT_IS_SEEN),
        QuestionFault::NotShared(_) => (&[], WRITE_INTO_A_ROW),
        QuestionFault::Twice(_) => (&[], TAKE_ANOTHER_NAME),
        QuestionFault::TwoMeanings(_) => (&[], RENAME_THE_ROW),
        QuestionFault::NoSuchProcess(_) => (&[], COUNTED_FROM_ZERO),
        QuestionFault::NoSuchWord(_) => (BEGINNINGS, WORDS_OF_QUESTIONS),
        QuestionFault::NotAsked(_) => (&[], BEGIN_OF_ASKING),
        QuestionFault::EndsTwice(_) => (&[], ONE_LINE_NAMES_ALL),
        QuestionFault::NotExpected(_) => (EXPECTATIONS, WORDS_OF_EXPECT),
        QuestionFault::ExpectTwice(_) => (&[], ONE_IS_EXPECTED),
        QuestionFault::NoMemory => (&[], ""),
    }
}

fn missing_advice(missing: Missing) -> (&'static [Slip], &'static str)
    ensures rows { slips_of result.0.now ≡ (missing_advice missing).0 }
    ensures other { result.1.now ≡ (missing_advice missing).1 }
{
    match missing {
        Missing::Operand => (OPERANDS, OPERAND_STANDS_HERE),
        Missing::Name => (NAMES, NAME_STANDS_HERE),
        Missing::Sign(sign) => sign_advice(sign),
        Missing::End => (ENDS, END_STANDS_HERE),
        Missing::Process => (PROCESSES, PROCESS_STANDS_HERE),
        Missing::LineEnd => (LINE_ENDS, LINE_ENDS_HERE),
        Missing::Condition => (CONDITIONS, CONDITION_STANDS_HERE),
    }
}

fn sign_advice(sign: Sign) -> (&'static [Slip], &'static str)
    ensures rows { slips_of result.0.now ≡ (sign_advice sign).0 }
    ensures other { result.1.now ≡ (sign_advice sign).1 }
{
    match sign {
        Sign::Close => (CLOSINGS, CLOSING_STANDS_HERE),
        Sign::OpenIndex => (INDEXES, INDEX_STANDS_HERE),
        Sign::CloseIndex => (INDEX_ENDS, INDEX_END_STANDS_HERE),
        Sign::Comma => (COMMAS, COMMA_STANDS_HERE),
        Sign::Colon => (COLONS, COLON_STANDS_HERE),
        Sign::Open | Sign::Operator(_) => (&[], PARTS_OF_QUESTIONS),
    }
}
