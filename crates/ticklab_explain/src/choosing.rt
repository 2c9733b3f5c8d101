// Which hint is told.
ghost use Rattle.std.specs.Prelude.{◌≡◌, option_map};
ghost use Rattle.ticklab_explain.specs.Choosing.{call_slips, character_slips, code_rules, hint_of, item_slips, kind_rules, kinds_rules, schedule_rules, section_slips, sign_slips, statement_slips, text_hint, text_rules, token_hint, whole_slips};
ghost use Rattle.ticklab_explain.specs.Rows.{help_of, rows_of};
ghost use Rattle.ticklab_explain.specs.Settings.{setting};

use crate::character_slips::CHARACTER_SLIPS;
use crate::hint::Hint;
use crate::item_slips::ITEM_SLIPS;
use crate::limits::{
    BAD_FIRST_LINE, BAD_LINE, NAME_TOO_LONG, NO_SUCH_PROCESS, NUMBER_TOO_BIG, PROCESSES,
    SCHEDULE_TOO_LONG, TOO_DEEP, TOO_MANY_NAMES,
};
use crate::name_slips::{
    ANY_FOR_SCAN, OTHER_FOR_REGISTER, REGISTER_FOR_VARIABLE, SCAN_FOR_VARIABLE, TWICE, UNKNOWN,
    VARIABLE_FOR_REGISTER, VARIABLE_FOR_VARIABLE,
};
use crate::rule::{Rule, first_that_fits};
use crate::scene::Scene;
use crate::token_slips::{CALL_SLIPS, SECTION_SLIPS, SIGN_SLIPS, STATEMENT_SLIPS, WHOLE_SLIPS};
use crate::wanted::Wanted;
use code_core::CodeFault;
use language_schedules::ScheduleFault;
use tick_kinds::{Kind, KindFault};
use tick_syntax::TextFault;
use ticketc_refusals::Refusal;

/// What may help: the first hint that fits, of those for the refusal.
pub fn hint_of(scene: &Scene, wanted: &[Wanted], refusal: Refusal) -> Option<Hint>
    ensures { option_map help_of result ≡ hint_of (setting scene.now) wanted.now refusal }
{
    match refusal {
        Refusal::Text(fault) => text_hint(scene, wanted, fault),
        Refusal::Kinds(fault) => first_that_fits(scene, wanted, kinds_rules(fault)),
        Refusal::Code(fault) => first_that_fits(scene, wanted, code_rules(fault)),
        Refusal::Schedule(fault) => first_that_fits(scene, wanted, schedule_rules(fault)),
    }
}

fn text_hint(scene: &Scene, wanted: &[Wanted], fault: TextFault) -> Option<Hint>
    ensures { option_map help_of result ≡ text_hint (setting scene.now) wanted.now fault }
{
    match fault {
        TextFault::Unexpected(_) => token_hint(scene, wanted),
        TextFault::TextTooLong
        | TextFault::BadCharacter(_)
        | TextFault::NumberTooBig(_)
        | TextFault::NameTooLong(_)
        | TextFault::TooDeep(_)
        | TextFault::NoMemory => first_that_fits(scene, wanted, text_rules(fault)),
    }
}

// Where no program goes on.
#[tactic(auto, using(crate::proofs::Rows::first_help), unfolding(crate::specs::Choosing::token_hint))]
fn token_hint(scene: &Scene, wanted: &[Wanted]) -> Option<Hint>
    ensures { option_map help_of result ≡ token_hint (setting scene.now) wanted.now }
{
    let at_statement = first_that_fits(scene, wanted, statement_slips());
    let at_sign = first_that_fits(scene, wanted, sign_slips()).or(at_statement);
    let in_section = first_that_fits(scene, wanted, section_slips()).or(at_sign);
    let in_call = first_that_fits(scene, wanted, call_slips()).or(in_section);
    first_that_fits(scene, wanted, whole_slips()).or(in_call)
}

fn text_rules(fault: TextFault) -> &'static [Rule]
    ensures { rows_of result.now ≡ text_rules fault }
{
    match fault {
        TextFault::BadCharacter(_) => character_slips(),
        TextFault::NumberTooBig(_) => NUMBER_TOO_BIG,
        TextFault::NameTooLong(_) => NAME_TOO_LONG,
        TextFault::TooDeep(_) => TOO_DEEP,
        TextFault::Unexpected(_) | TextFault::TextTooLong | TextFault::NoMemory => &[],
    }
}

fn kinds_rules(fault: KindFault) -> &'static [Rule]
    ensures { rows_of result.now ≡ kinds_rules fault }
{
    match fault {
        KindFault::Processes(_) => PROCESSES,
        KindFault::Twice(_) => TWICE,
        KindFault::Unknown(_) => UNKNOWN,
        KindFault::WrongKind { wanted, found, .. } => kind_rules(wanted, found),
        KindFault::TooMany(_) => TOO_MANY_NAMES,
        KindFault::NoMemory => &[],
    }
}

fn kind_rules(wanted: Kind, found: Kind) -> &'static [Rule]
    ensures { rows_of result.now ≡ kind_rules wanted found }
{
    match (wanted, found) {
        (Kind::Variable, Kind::Register) => REGISTER_FOR_VARIABLE,
        (Kind::Variable, Kind::Scan) => SCAN_FOR_VARIABLE,
        (Kind::Variable, Kind::Variable) => VARIABLE_FOR_VARIABLE,
        (Kind::Scan, _) => ANY_FOR_SCAN,
        (Kind::Register, Kind::Variable) => VARIABLE_FOR_REGISTER,
        (Kind::Register, Kind::Scan | Kind::Register) => OTHER_FOR_REGISTER,
    }
}

fn code_rules(fault: CodeFault) -> &'static [Rule]
    ensures { rows_of result.now ≡ code_rules fault }
{
    match fault {
        CodeFault::BadLine(1) => BAD_FIRST_LINE,
        CodeFault::BadLine(_) => BAD_LINE,
        _ => &[],
    }
}

fn schedule_rules(fault: ScheduleFault) -> &'static [Rule]
    ensures { rows_of result.now ≡ schedule_rules fault }
{
    match fault {
        ScheduleFault::BadItem(_) => item_slips(),
        ScheduleFault::NoSuchProcess(_) => NO_SUCH_PROCESS,
        ScheduleFault::TooLong => SCHEDULE_TOO_LONG,
        ScheduleFault::NoMemory => &[],
    }
}

#[tactic(auto, unfolding(crate::specs::Choosing::whole_slips))]
fn whole_slips() -> &'static [Rule]
    ensures { rows_of result.now ≡ whole_slips }
{
    WHOLE_SLIPS
}

#[tactic(auto, unfolding(crate::specs::Choosing::call_slips))]
fn call_slips() -> &'static [Rule]
    ensures { rows_of result.now ≡ call_slips }
{
    CALL_SLIPS
}

#[tactic(auto, unfolding(crate::specs::Choosing::section_slips))]
fn section_slips() -> &'static [Rule]
    ensures { rows_of result.now ≡ section_slips }
{
    SECTION_SLIPS
}

#[tactic(auto, unfolding(crate::specs::Choosing::sign_slips))]
fn sign_slips() -> &'static [Rule]
    ensures { rows_of result.now ≡ sign_slips }
{
    SIGN_SLIPS
}

#[tactic(auto, unfolding(crate::specs::Choosing::statement_slips))]
fn statement_slips() -> &'static [Rule]
    ensures { rows_of result.now ≡ statement_slips }
{
    STATEMENT_SLIPS
}

#[tactic(auto, unfolding(crate::specs::Choosing::character_slips))]
fn character_slips() -> &'static [Rule]
    ensures { rows_of result.now ≡ character_slips }
{
    CHARACTER_SLIPS
}

#[tactic(auto, unfolding(crate::specs::Choosing::item_slips))]
fn item_slips() -> &'static [Rule]
    ensures { rows_of result.now ≡ item_slips }
{
    ITEM_SLIPS
}
