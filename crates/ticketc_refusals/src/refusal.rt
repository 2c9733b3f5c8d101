use code_core::CodeFault;
use language_schedules::ScheduleFault;
use tick_kinds::KindFault;
use tick_syntax::fault::TextFault;

/// Why an input is refused: as a text, by its kinds, as a code, or as a schedule. Bytes that are no
/// UTF-8 are a `BadCharacter`. A fault that says that memory was refused is no refusal.
#[derive(Clone, Copy)]
pub enum Refusal {
    Text(TextFault),
    Kinds(KindFault),
    Code(CodeFault),
    Schedule(ScheduleFault),
}
