// The line in which `ticketc` tells a refusal.
ghost use Rattle.std.specs.Prelude.{◌≡◌, ◌++◌, IfOk, OnOk, string_bytes};
ghost use Rattle.std.specs.Fmt.{decimal};
ghost use Rattle.ticketc_refusals.specs.RefusalLine.{code_line, kind_name, kinds_line, number_and_name, refusal_line, schedule_line, text_line, with_number, with_span};

use crate::refusal::Refusal;
use base::push_number;
use base::span::Span;
use code_core::CodeFault;
use language_schedules::ScheduleFault;
use std::alloc::{AllocError, Global};
use tick_kinds::{Kind, KindFault};
use tick_syntax::TextFault;

/// The line that tells a refusal: its number, its name and its fields.
pub fn line_of(alloc: Global, refusal: Refusal) -> Result<String, AllocError>
    ensures { IfOk result (λ line. string_bytes line ≡ refusal_line refusal) }
{
    let mut line = String::from_str(alloc, "refused ")?;
    push_number_and_name(&mut line, refusal)?;
    line.push_str("\n")?;
    Ok(line)
}

fn push_number_and_name(line: &mut String, refusal: Refusal) -> Result<(), AllocError>
    ensures { OnOk result (string_bytes line.new ≡ string_bytes line.old ++ number_and_name refusal) }
{
    match refusal {
        Refusal::Text(fault) => push_text(line, fault),
        Refusal::Kinds(fault) => push_kinds(line, fault),
        Refusal::Code(fault) => push_code(line, fault),
        Refusal::Schedule(fault) => push_schedule(line, fault),
    }
}

fn push_text(line: &mut String, fault: TextFault) -> Result<(), AllocError>
    ensures { OnOk result (string_bytes line.new ≡ string_bytes line.old ++ text_line fault) }
{
    match fault {
        TextFault::TextTooLong => line.push_str("1 TextTooLong"),
        TextFault::BadCharacter(place) => push_with_number(line, "2 BadCharacter", place),
        TextFault::NumberTooBig(span) => push_with_span(line, "3 NumberTooBig", span),
        TextFault::NameTooLong(span) => push_with_span(line, "4 NameTooLong", span),
        TextFault::Unexpected(span) => push_with_span(line, "5 Unexpected", span),
        TextFault::TooDeep(span) => push_with_span(line, "6 TooDeep", span),
        TextFault::NoMemory => Ok(()),
    }
}

fn push_kinds(line: &mut String, fault: KindFault) -> Result<(), AllocError>
    ensures { OnOk result (string_bytes line.new ≡ string_bytes line.old ++ kinds_line fault) }
{
    match fault {
        KindFault::Processes(span) => push_with_span(line, "11 Processes", span),
        KindFault::Twice(span) => push_with_span(line, "12 Twice", span),
        KindFault::Unknown(span) => push_with_span(line, "13 Unknown", span),
        KindFault::WrongKind {
            span,
            wanted,
            found,
        } => push_wrong_kind(line, span, wanted, found),
        KindFault::TooMany(span) => push_with_span(line, "15 TooMany", span),
        KindFault::NoMemory => Ok(()),
    }
}

fn push_wrong_kind(
    line: &mut String,
    span: Span,
    wanted: Kind,
    found: Kind,
) -> Result<(), AllocError>
    ensures { OnOk result (string_bytes line.new ≡ string_bytes line.old ++ kinds_line (KindFault.WrongKind span wanted found)) }
{
    push_with_span(line, "14 WrongKind", span)?;
    line.push_str(" ")?;
    line.push_str(kind_text(wanted))?;
    line.push_str(" ")?;
    line.push_str(kind_text(found))
}

fn kind_text(kind: Kind) -> &'static str
    ensures { result.now ≡ kind_name kind }
{
    match kind {
        Kind::Variable => "Variable",
        Kind::Scan => "Scan",
        Kind::Register => "Register",
    }
}

fn push_code(line: &mut String, fault: CodeFault) -> Result<(), AllocError>
    ensures { OnOk result (string_bytes line.new ≡ string_bytes line.old ++ code_line fault) }
{
    match fault {
        CodeFault::Empty => line.push_str("21 Empty"),
        CodeFault::BadJump(place) => push_with_place(line, "22 BadJump", place),
        CodeFault::StackShort(place) => push_with_place(line, "23 StackShort", place),
        CodeFault::HeightsDiffer(place) => push_with_place(line, "24 HeightsDiffer", place),
        CodeFault::BadSlot(place) => push_with_place(line, "25 BadSlot", place),
        CodeFault::FallsOff(place) => push_with_place(line, "26 FallsOff", place),
        CodeFault::TooLong => line.push_str("27 TooLong"),
        CodeFault::BadLine(number) => push_with_number(line, "29 BadLine", number),
        CodeFault::BadStamp(place) => push_with_place(line, "30 BadStamp", place),
        CodeFault::NoMemory => Ok(()),
    }
}

// The place is that of an instruction.
fn push_with_place(line: &mut String, name: &str, place: u16) -> Result<(), AllocError>
    ensures { OnOk result (string_bytes line.new ≡ string_bytes line.old ++ with_number name.now place) }
{
    push_with_number(line, name, usize::from(place))
}

fn push_schedule(line: &mut String, fault: ScheduleFault) -> Result<(), AllocError>
    ensures { OnOk result (string_bytes line.new ≡ string_bytes line.old ++ schedule_line fault) }
{
    match fault {
        ScheduleFault::BadItem(place) => push_with_number(line, "51 BadItem", place),
        ScheduleFault::NoSuchProcess(place) => push_with_number(line, "52 NoSuchProcess", place),
        ScheduleFault::TooLong => line.push_str("53 TooLong"),
        ScheduleFault::NoMemory => Ok(()),
    }
}

fn push_with_number(line: &mut String, name: &str, field: usize) -> Result<(), AllocError>
    ensures { OnOk result (string_bytes line.new ≡ string_bytes line.old ++ with_number name.now field) }
{
    line.push_str(name)?;
    line.push_str(" ")?;
    push_number(line, field as u64)
}

fn push_with_span(line: &mut String, name: &str, span: Span) -> Result<(), AllocError>
    ensures { OnOk result (string_bytes line.new ≡ string_bytes line.old ++ with_span name.now span) }
{
    push_with_number(line, name, span.start)?;
    line.push_str(" ")?;
    push_number(line, span.end as u64)
}
