//! The lines that the texts of every kind of run have.
ghost use Rattle.std.specs.Prelude.{◌≡◌, ◌++◌, OnOk, codes, decimal, map, string_bytes};
ghost use Rattle.base.specs.Lines.{spaced};
ghost use Rattle.tick_play.specs.Lines.{row_line, row_lines, status_line, status_text, trap_text};

use base::{Status, Trap, push_number};
use std::alloc::AllocError;

/// A line for each row: its name, its number from 0 on, and its values.
pub fn push_rows(text: &mut String, name: &str, rows: &[Vec<u32>]) -> Result<(), AllocError>
    ensures { OnOk result (string_bytes text.new ≡ string_bytes text.old ++ row_lines name.now 0 (map (λ row. row.items) rows.now)) }
{
    for (number, values) in rows.iter().enumerate() {
        push_row(text, name, number, values)?;
    }
    Ok(())
}

fn push_row(text: &mut String, name: &str, number: usize, values: &[u32]) -> Result<(), AllocError>
    ensures { OnOk result (string_bytes text.new ≡ string_bytes text.old ++ row_line name.now number values.now) }
{
    text.push_str(name)?;
    push_value(text, number as u64)?;
    push_values(text, values)?;
    text.push_str("\n")
}

/// Values, each after a space.
pub fn push_values(text: &mut String, values: &[u32]) -> Result<(), AllocError>
    ensures { OnOk result (string_bytes text.new ≡ string_bytes text.old ++ spaced (map decimal values.now)) }
{
    for &value in values {
        push_value(text, u64::from(value))?;
    }
    Ok(())
}

/// A value after a space.
pub fn push_value(text: &mut String, value: u64) -> Result<(), AllocError>
    ensures { OnOk result (string_bytes text.new ≡ string_bytes text.old ++ codes " " ++ decimal value) }
{
    text.push_str(" ")?;
    push_number(text, value)
}

/// How a process stands.
pub fn push_status(text: &mut String, process: usize, status: Status) -> Result<(), AllocError>
    ensures { OnOk result (string_bytes text.new ≡ string_bytes text.old ++ status_line process (status_text status)) }
{
    push_state(text, process, status_name(status))
}

/// The line of a process that is in this state.
pub fn push_state(text: &mut String, process: usize, state: &str) -> Result<(), AllocError>
    ensures { OnOk result (string_bytes text.new ≡ string_bytes text.old ++ status_line process state.now) }
{
    text.push_str("status")?;
    push_value(text, process as u64)?;
    text.push_str(" ")?;
    text.push_str(state)?;
    text.push_str("\n")
}

fn status_name(status: Status) -> &'static str
    ensures { result.now ≡ status_text status }
{
    match status {
        Status::Running => "running",
        Status::Ended => "ended",
        Status::Trapped(Trap::Overflow) => "trapped Overflow",
        Status::Trapped(Trap::Below) => "trapped Below",
        Status::Trapped(Trap::Zero) => "trapped Zero",
        Status::Trapped(Trap::Index) => "trapped Index",
    }
}

/// The name of a trap.
pub fn trap_name(trap: Trap) -> &'static str
    ensures { result.now ≡ trap_text trap }
{
    match trap {
        Trap::Overflow => "Overflow",
        Trap::Below => "Below",
        Trap::Zero => "Zero",
        Trap::Index => "Index",
    }
}
