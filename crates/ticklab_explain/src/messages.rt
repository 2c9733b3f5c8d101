// What is wrong, in words.
ghost use Rattle.std.specs.Prelude.{◌≡◌, ◌++◌, OnOk, string_bytes};
ghost use Rattle.ticklab_explain.specs.Messages.{character_message, code_message, instruction, item_message, kind_word, kinds_message, message_of, schedule_message, text_message, too_long, wrong_kind};
ghost use Rattle.ticklab_explain.specs.Settings.{about, setting};

use crate::expectation::push_expectation;
use crate::items::Items;
use crate::piece::{pieces, push_pieces};
use crate::scene::{Scene, is_text, shortened};
use crate::wanted::Wanted;
use crate::writing::{Added, push_all, push_number};
use code_core::CodeFault;
use language_schedules::ScheduleFault;
use tick_kinds::{Kind, KindFault};
use tick_syntax::TextFault;
use ticketc_refusals::Refusal;

// The words, and those about what is quoted.
const INPUT_HAS: &str = "the input has ";

const MOST_BYTES: &str = " bytes, and at most 1000000 are read";

const NUMBER_TOO_GREAT: &str = "this number is too great";

const NAME_HAS: &str = "this name has ";

const BYTES: &str = " bytes";

const BRACKET_TOO_DEEP: &str = "this bracket is the 65th that is open at once";

const NO_TOKEN_BEGINS: &str = "no token begins with `";

const NO_UTF8: &str = "these bytes are no UTF-8";

const PROCESSES_OUT_OF_RANGE: &str = "the number of processes is out of range";

const DECLARED_TWICE: &str = "` is declared twice";

const NOT_DECLARED: &str = "` is not declared";

const ONE_NAME_MORE: &str = "one name more than there may be of its kind";

const IS_A: &str = "` is a ";

const AND_A: &str = ", and a ";

const IS_WANTED: &str = " is wanted here";

const VARIABLE: &str = "variable";

const SCAN: &str = "scan";

const REGISTER: &str = "register";

const CODE_EMPTY: &str = "the code is empty";

const CODE_TOO_LONG: &str = "the code is too long";

const INSTRUCTION: &str = "instruction ";

const JUMPS_PAST_THE_END: &str = " jumps past the end";

const TAKES_TOO_MANY: &str = " takes more values than there are";

const OTHER_HEIGHT: &str = " is reached, or jumps, with another height of the stack";

const NO_SUCH_SLOT: &str = " names a slot that there is not";

const GOES_ON_PAST: &str = "the code goes on past instruction ";

const ITS_LAST: &str = ", its last";

const BREAKS_A_STAMP: &str = " breaks a stamp";

const NO_FIRST_LINE: &str = "this is no first line of a code";

const NO_LINE: &str = "this is no line of an instruction";

const EXPECTED_STEPS: &str = "expected `P` or `P*K`, found `";

const EXPECTED_MOVES: &str = "expected `P`, `P*K`, `cP` or `cP*K`, found `";

const NO_PROCESS_AS_IN: &str = "there is no such process as in `";

const SCHEDULE_TOO_LONG: &str = "the schedule is too long";

const TOO_MANY_MOVES: &str = "there are too many stamps and clears";

/// Adds what is wrong.
pub fn push_message(text: &mut String, scene: &Scene, wanted: &[Wanted], refusal: Refusal) -> Added
    ensures { OnOk result (string_bytes text.new ≡ string_bytes text.old ++ message_of (setting scene.now) wanted.now refusal) }
{
    match refusal {
        Refusal::Text(fault) => push_text(text, scene, wanted, fault),
        Refusal::Kinds(fault) => push_kinds(text, scene, fault),
        Refusal::Code(fault) => push_code(text, fault),
        Refusal::Schedule(fault) => push_schedule(text, scene, fault),
    }
}

fn push_text(text: &mut String, scene: &Scene, wanted: &[Wanted], fault: TextFault) -> Added
    ensures { OnOk result (string_bytes text.new ≡ string_bytes text.old ++ text_message (setting scene.now) wanted.now fault) }
{
    match fault {
        TextFault::TextTooLong => push_number(text, INPUT_HAS, scene.text.len(), MOST_BYTES),
        TextFault::BadCharacter(_) => push_character(text, scene),
        TextFault::NumberTooBig(_) => text.push_str(NUMBER_TOO_GREAT),
        TextFault::NameTooLong(span) => {
            push_number(text, NAME_HAS, span.end.saturating_sub(span.start), BYTES)
        }
        TextFault::Unexpected(_) => push_expectation(text, scene, wanted),
        TextFault::TooDeep(_) => text.push_str(BRACKET_TOO_DEEP),
        TextFault::NoMemory => Ok(()),
    }
}

#[tactic(auto, unfolding(crate::specs::Messages::character_message))]
fn push_character(text: &mut String, scene: &Scene) -> Added
    ensures { OnOk result (string_bytes text.new ≡ string_bytes text.old ++ character_message (setting scene.now)) }
{
    if is_text(scene.text) {
        push_pieces(text, scene, pieces!(NO_TOKEN_BEGINS [About] "`"))
    } else {
        text.push_str(NO_UTF8)
    }
}

fn push_kinds(text: &mut String, scene: &Scene, fault: KindFault) -> Added
    ensures { OnOk result (string_bytes text.new ≡ string_bytes text.old ++ kinds_message (setting scene.now) fault) }
{
    match fault {
        KindFault::Processes(_) => text.push_str(PROCESSES_OUT_OF_RANGE),
        KindFault::Twice(_) => push_pieces(text, scene, pieces!("`" [About] DECLARED_TWICE)),
        KindFault::Unknown(_) => push_pieces(text, scene, pieces!("`" [About] NOT_DECLARED)),
        KindFault::WrongKind { wanted, found, .. } => push_wrong_kind(text, scene, wanted, found),
        KindFault::TooMany(_) => text.push_str(ONE_NAME_MORE),
        KindFault::NoMemory => Ok(()),
    }
}

fn push_wrong_kind(text: &mut String, scene: &Scene, wanted: Kind, found: Kind) -> Added
    ensures { OnOk result (string_bytes text.new ≡ string_bytes text.old ++ wrong_kind (about (setting scene.now)) wanted found) }
{
    let (found, wanted) = (kind_word(found), kind_word(wanted));
    push_all(
        text,
        &["`", scene.about(), IS_A, found, AND_A, wanted, IS_WANTED],
    )
}

#[tactic(auto, unfolding(crate::specs::Messages::kind_word))]
fn kind_word<'a>(kind: Kind) -> &'a str
    ensures { result.now ≡ kind_word kind }
{
    match kind {
        Kind::Variable => VARIABLE,
        Kind::Scan => SCAN,
        Kind::Register => REGISTER,
    }
}

fn push_code(text: &mut String, fault: CodeFault) -> Added
    ensures { OnOk result (string_bytes text.new ≡ string_bytes text.old ++ code_message fault) }
{
    match fault {
        CodeFault::Empty => text.push_str(CODE_EMPTY),
        CodeFault::TooLong => text.push_str(CODE_TOO_LONG),
        CodeFault::BadJump(place) => push_instruction(text, place, JUMPS_PAST_THE_END),
        CodeFault::StackShort(place) => push_instruction(text, place, TAKES_TOO_MANY),
        CodeFault::HeightsDiffer(place) => push_instruction(text, place, OTHER_HEIGHT),
        CodeFault::BadSlot(place) => push_instruction(text, place, NO_SUCH_SLOT),
        CodeFault::FallsOff(place) => push_number(text, GOES_ON_PAST, usize::from(place), ITS_LAST),
        CodeFault::BadStamp(place) => push_instruction(text, place, BREAKS_A_STAMP),
        CodeFault::BadLine(1) => text.push_str(NO_FIRST_LINE),
        CodeFault::BadLine(_) => text.push_str(NO_LINE),
        CodeFault::NoMemory => Ok(()),
    }
}

fn push_instruction(text: &mut String, place: u16, fault: &str) -> Added
    ensures { OnOk result (string_bytes text.new ≡ string_bytes text.old ++ instruction place fault.now) }
{
    push_number(text, INSTRUCTION, usize::from(place), fault)
}

// Where an item of a schedule, or of stamps and clears, is none.
fn push_bad_item(text: &mut String, items: Items, item: &str) -> Added
    ensures { OnOk result (string_bytes text.new ≡ string_bytes text.old ++ item_message items item.now) }
{
    if items.clears {
        push_all(text, &[EXPECTED_MOVES, item, "`"])
    } else {
        push_all(text, &[EXPECTED_STEPS, item, "`"])
    }
}

fn too_long(items: Items) -> &'static str
    ensures { result.now ≡ too_long items }
{
    if items.clears {
        TOO_MANY_MOVES
    } else {
        SCHEDULE_TOO_LONG
    }
}

fn push_schedule(text: &mut String, scene: &Scene, fault: ScheduleFault) -> Added
    ensures { OnOk result (string_bytes text.new ≡ string_bytes text.old ++ schedule_message (setting scene.now) fault) }
{
    let item = shortened(scene.about());
    match fault {
        ScheduleFault::BadItem(_) => push_bad_item(text, scene.items, item),
        ScheduleFault::NoSuchProcess(_) => push_all(text, &[NO_PROCESS_AS_IN, item, "`"]),
        ScheduleFault::TooLong => text.push_str(too_long(scene.items)),
        ScheduleFault::NoMemory => Ok(()),
    }
}
