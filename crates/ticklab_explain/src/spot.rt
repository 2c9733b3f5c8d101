// Where a refusal is.
ghost use Rattle.std.specs.Prelude.{◌≡◌, ◌≤◌, length};
ghost use Rattle.ticklab_explain.specs.Spots.{IsCharacterEnd, IsItemEnd, IsNumberedLine, IsSpanAt, spot_of};

use crate::place::line_end;
use base::is_blank;
use base::span::Span;
use code_core::CodeFault;
use language_schedules::ScheduleFault;
use tick_kinds::KindFault;
use tick_syntax::TextFault;
use ticketc_refusals::Refusal;

/// Where a refusal is.
#[derive(Clone, Copy)]
pub enum Spot {
    Nowhere,
    Stretch(Span),
    /// At the character that stands at a byte.
    Character(usize),
    /// In the line of this number, from 1.
    Line(usize),
    /// At the item of a schedule that begins at a byte.
    Item(usize),
}

/// Where a refusal is.
pub fn spot_of(refusal: Refusal) -> Spot
    ensures { result ≡ spot_of refusal }
{
    match refusal {
        Refusal::Text(TextFault::BadCharacter(place)) => Spot::Character(place),
        Refusal::Text(
            TextFault::NumberTooBig(span)
            | TextFault::NameTooLong(span)
            | TextFault::Unexpected(span)
            | TextFault::TooDeep(span),
        )
        | Refusal::Kinds(
            KindFault::Processes(span)
            | KindFault::Twice(span)
            | KindFault::Unknown(span)
            | KindFault::WrongKind { span, .. }
            | KindFault::TooMany(span),
        ) => Spot::Stretch(span),
        Refusal::Code(CodeFault::Empty) => Spot::Line(1),
        Refusal::Code(
            CodeFault::BadJump(place)
            | CodeFault::StackShort(place)
            | CodeFault::HeightsDiffer(place)
            | CodeFault::BadSlot(place)
            | CodeFault::FallsOff(place)
            | CodeFault::BadStamp(place),
        ) => Spot::Line(usize::from(place) + 2),
        Refusal::Code(CodeFault::BadLine(line)) => Spot::Line(line),
        Refusal::Schedule(ScheduleFault::BadItem(place) | ScheduleFault::NoSuchProcess(place)) =>
            Spot::Item(place),
        Refusal::Text(TextFault::TextTooLong | TextFault::NoMemory)
        | Refusal::Kinds(KindFault::NoMemory)
        | Refusal::Code(CodeFault::TooLong | CodeFault::NoMemory)
        | Refusal::Schedule(ScheduleFault::TooLong | ScheduleFault::NoMemory) => Spot::Nowhere,
    }
}

/// The bytes of a spot in a text.
pub fn span_at(text: &[u8], spot: Spot) -> Option<Span>
    ensures { IsSpanAt text.now spot result }
{
    match spot {
        Spot::Nowhere => None,
        Spot::Stretch(span) => Some(span),
        Spot::Character(place) => {
            let start = place.min(text.len());
            let end = character_end(text, start);
            Some(Span { start, end })
        }
        Spot::Line(number) => {
            let start = numbered_line(text, number);
            let end = line_end(text, start);
            Some(Span { start, end })
        }
        Spot::Item(place) => {
            let start = place.min(text.len());
            let end = item_end(text, start);
            Some(Span { start, end })
        }
    }
}

fn character_end(text: &[u8], at: usize) -> usize
    requires { at ≤ length text.now }
    ensures { IsCharacterEnd text.now at result }
{
    if at == text.len() {
        return at;
    }
    let mut end = at + 1;
    while end < text.len() && text[end] >= 128 && text[end] < 192 {
        end += 1;
    }
    end
}

fn item_end(text: &[u8], at: usize) -> usize
    requires { at ≤ length text.now }
    ensures { IsItemEnd text.now at result }
{
    let mut end = at;
    while end < text.len() && !is_blank(text[end]) {
        end += 1;
    }
    end
}

// Where the line of this number begins.
fn numbered_line(text: &[u8], number: usize) -> usize
    ensures { IsNumberedLine text.now number result }
{
    let mut line = 1;
    for (start, byte) in text.iter().enumerate() {
        if line == number && (start == 0 || text[start - 1] == b'\n') {
            return start;
        }
        if *byte == b'\n' {
            line += 1;
        }
    }
    text.len()
}
