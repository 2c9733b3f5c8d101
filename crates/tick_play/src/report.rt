ghost use Rattle.std.specs.Prelude.{◌≡◌, ◌++◌, IfOk, OnOk, map, string_bytes, take};
ghost use Rattle.std.specs.Fmt.{decimal};
ghost use Rattle.base.specs.Lines.{spaced};
ghost use Rattle.base.specs.Observables.{observed};
ghost use Rattle.tick_play.specs.Lines.{status_lines, status_text};
ghost use Rattle.tick_play.specs.Report.{act_text, event_line, event_lines, report};

use crate::lines::{push_rows, push_status, push_value, push_values, trap_name};
use base::{Act, Event, NoMemory, Outcome, Status, push_number};
use std::alloc::{AllocError, Global};

/// A line for each event, then for each register row, and then for each process.
pub fn report_of(alloc: Global, outcome: &Outcome) -> Result<String, NoMemory>
    ensures { IfOk result (λ text. string_bytes text ≡ report (observed outcome.now)) }
{
    let mut text = String::new(alloc);
    push_events(&mut text, outcome.statuses.len(), &outcome.events)?;
    push_rows(&mut text, "reg", &outcome.registers)?;
    push_statuses(&mut text, &outcome.statuses)?;
    Ok(text)
}

fn push_events(text: &mut String, n: usize, events: &[Event]) -> Result<(), AllocError>
    ensures { OnOk result (string_bytes text.new ≡ string_bytes text.old ++ event_lines n events.now) }
{
    for event in events {
        push_event(text, n, *event)?;
    }
    Ok(())
}

fn push_event(text: &mut String, n: usize, event: Event) -> Result<(), AllocError>
    ensures { OnOk result (string_bytes text.new ≡ string_bytes text.old ++ event_line n event) }
{
    push_number(text, u64::from(event.process))?;
    push_act(text, n, event.act)?;
    text.push_str("\n")
}

fn push_act(text: &mut String, n: usize, act: Act) -> Result<(), AllocError>
    ensures { OnOk result (string_bytes text.new ≡ string_bytes text.old ++ act_text n act) }
{
    match act {
        Act::Put(row, value) => push_told(text, " put", &[u32::from(row), value]),
        Act::Get(row, index, value) => {
            push_told(text, " get", &[u32::from(row), u32::from(index), value])
        }
        Act::Stamp => text.push_str(" stamp"),
        Act::Clear => text.push_str(" clear"),
        Act::Scan(ranks) => {
            text.push_str(" scan")?;
            push_ranks(text, n, &ranks)
        }
        Act::Older(i, j, answer) => {
            push_told(
                text,
                " older",
                &[u32::from(i), u32::from(j), u32::from(answer)],
            )
        }
        Act::Held(index, answer) => {
            push_told(text, " held", &[u32::from(index), u32::from(answer)])
        }
        Act::Out(value) => push_told(text, " out", &[value]),
        Act::Trap(trap) => {
            text.push_str(" trap ")?;
            text.push_str(trap_name(trap))
        }
        Act::End => text.push_str(" end"),
    }
}

// A word, and values each after a space.
fn push_told(text: &mut String, word: &str, values: &[u32]) -> Result<(), AllocError>
    ensures { OnOk result (string_bytes text.new ≡ string_bytes text.old ++ word.now ++ spaced (map decimal values.now)) }
{
    text.push_str(word)?;
    push_values(text, values)
}

// The first `n` of the ranks, each after a space.
fn push_ranks(text: &mut String, n: usize, ranks: &[u8]) -> Result<(), AllocError>
    ensures { OnOk result (string_bytes text.new ≡ string_bytes text.old ++ spaced (map decimal (take n ranks.now))) }
{
    let told = &ranks[..n.min(ranks.len())];
    for &rank in told {
        push_value(text, u64::from(rank))?;
    }
    Ok(())
}

fn push_statuses(text: &mut String, statuses: &[Status]) -> Result<(), AllocError>
    ensures { OnOk result (string_bytes text.new ≡ string_bytes text.old ++ status_lines 0 (map status_text statuses.now)) }
{
    for (process, status) in statuses.iter().enumerate() {
        push_status(text, process, *status)?;
    }
    Ok(())
}
