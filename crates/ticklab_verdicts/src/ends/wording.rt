//! The lines of the answers to `explore --ends`.
ghost use Rattle.std.specs.Prelude.{◌≡◌, ◌≤◌, ◌+◌, ◌++◌, IfOk, OnOk, length, string_bytes};
ghost use Rattle.std.specs.List.{list_any};
ghost use Rattle.ticklab_verdicts.specs.Lines.{alone_text, are_text, asked_text, endless_line, ends_line, ends_text, fair_text, has_one, is_empty, is_nobody, is_one, marked, named_text, no_process_line, not_alone_line, not_wait_free_line, numbers_text, processes_text, quiet_text, stuck_line, wait_free_text};

use crate::exploring::{either, push_counted, push_safe};
use crate::extent::SearchExtent;
use base::push_number;
use searches_explore::{Conditions, MustStop};
use std::alloc::{AllocError, Global};

fn push_asked(alloc: Global, text: &mut String, asked: MustStop) -> Result<(), AllocError>
    ensures { OnOk result (string_bytes text.new ≡ string_bytes text.old ++ asked_text asked) }
{
    match asked {
        MustStop::All => text.push_str("all processes"),
        MustStop::Each(marks) => {
            let mut processes = Vec::new(alloc);
            push_marked(&mut processes, 0, &marks)?;
            push_processes(text, processes.as_slice())
        }
    }
}

// Adds the numbers, counted from this one, at which there is a `true`.
fn push_marked(processes: &mut Vec<u8>, first: u8, marks: &[bool]) -> Result<(), AllocError>
    requires { first + length marks.now ≤ 255 }
    ensures { OnOk result (processes.new.items ≡ processes.old.items ++ marked first marks.now) }
{
    match marks {
        [] => Ok(()),
        [mark, more @ ..] => {
            if *mark {
                processes.push(first)?;
                push_marked(processes, first + 1, more)
            } else {
                push_marked(processes, first + 1, more)
            }
        }
    }
}

/// Adds who these are, as `process 1`, or `processes 0, 1 and 2`.
pub fn push_processes(text: &mut String, processes: &[u8]) -> Result<(), AllocError>
    ensures { OnOk result (string_bytes text.new ≡ string_bytes text.old ++ processes_text processes.now) }
{
    match processes {
        [] => text.push_str("no process"),
        [process] => {
            text.push_str("process ")?;
            push_number(text, u64::from(*process))
        }
        [process, more @ ..] => {
            text.push_str("processes ")?;
            push_numbers(text, *process, more)
        }
    }
}

// Adds a number, and the others behind commas and the last behind `and`.
fn push_numbers(text: &mut String, first: u8, more: &[u8]) -> Result<(), AllocError>
    ensures { OnOk result (string_bytes text.new ≡ string_bytes text.old ++ numbers_text first more.now) }
{
    push_number(text, u64::from(first))?;
    match more {
        [] => Ok(()),
        [last] => {
            text.push_str(" and ")?;
            push_number(text, u64::from(*last))
        }
        [next, rest @ ..] => {
            text.push_str(", ")?;
            push_numbers(text, *next, rest)
        }
    }
}

// Whether nobody is asked for.
fn is_nobody(asked: MustStop) -> bool
    ensures { result ≡ is_nobody asked }
{
    match asked {
        MustStop::All => false,
        MustStop::Each(marks) => !has_mark(&marks),
    }
}

fn has_mark(marks: &[bool]) -> bool
    ensures { result ≡ list_any (λ mark. mark) marks.now }
{
    marks.iter().any(|mark| *mark)
}

// Nothing is wrong, and so many lines `#! never` don't break.
fn quiet(alloc: Global, lines: usize) -> Result<String, AllocError>
    ensures { IfOk result (λ text. string_bytes text ≡ quiet_text lines) }
{
    let mut text = String::new(alloc);
    push_safe(&mut text, lines)?;
    text.push_str(" under any schedule")?;
    Ok(text)
}

/// They end, each under its condition; and no line `#! never` breaks.
pub fn ends_line(
    alloc: Global,
    asked: Conditions,
    extent: SearchExtent,
) -> Result<String, AllocError>
    ensures { IfOk result (λ line. string_bytes line ≡ ends_line extent.is_merged extent.lines asked extent.states) }
{
    let mut line = quiet(alloc, extent.lines)?;
    push_ends(alloc, &mut line, asked)?;
    push_counted(&mut line, extent)?;
    Ok(line)
}

// Whether nobody is asked under any condition.
fn is_empty(asked: Conditions) -> bool
    ensures { result ≡ is_empty asked }
{
    is_nobody(asked.fair) && is_nobody(asked.wait_free) && is_nobody(asked.alone)
}

fn push_ends(alloc: Global, text: &mut String, asked: Conditions) -> Result<(), AllocError>
    ensures { OnOk result (string_bytes text.new ≡ string_bytes text.old ++ ends_text asked) }
{
    if is_empty(asked) {
        return text.push_str("; no process is asked whether it can end");
    }
    push_fair(alloc, text, asked.fair)?;
    push_wait_free(alloc, text, asked.wait_free)?;
    push_alone(alloc, text, asked.alone)
}

// Adds that they can always end, and do where each process that runs steps again and again.
fn push_fair(alloc: Global, text: &mut String, asked: MustStop) -> Result<(), AllocError>
    ensures { OnOk result (string_bytes text.new ≡ string_bytes text.old ++ fair_text asked) }
{
    if is_nobody(asked) {
        return Ok(());
    }
    text.push_str("; ")?;
    push_asked(alloc, text, asked)?;
    text.push_str(
        " can still end after every schedule, and will if each that runs steps again and again",
    )
}

// Adds what they are, where somebody is asked.
fn push_named(
    alloc: Global,
    text: &mut String,
    asked: MustStop,
    what: &str,
) -> Result<(), AllocError>
    ensures { OnOk result (string_bytes text.new ≡ string_bytes text.old ++ named_text asked what.now) }
{
    if is_nobody(asked) {
        return Ok(());
    }
    text.push_str("; ")?;
    push_asked(alloc, text, asked)?;
    text.push_str(are_text(asked))?;
    text.push_str(what)
}

// Adds that they end by their own steps, though others stop.
fn push_wait_free(alloc: Global, text: &mut String, asked: MustStop) -> Result<(), AllocError>
    ensures { OnOk result (string_bytes text.new ≡ string_bytes text.old ++ wait_free_text asked) }
{
    let what = "wait-free: whoever of them steps again and again ends, though others stop anywhere";
    push_named(alloc, text, asked, what)
}

// Adds that each ends once it steps alone.
fn push_alone(alloc: Global, text: &mut String, asked: MustStop) -> Result<(), AllocError>
    ensures { OnOk result (string_bytes text.new ≡ string_bytes text.old ++ alone_text asked) }
{
    let what = "obstruction-free: after any schedule each of them ends once it steps alone";
    push_named(alloc, text, asked, what)
}

fn are_text(asked: MustStop) -> &'static str
    ensures { result.now ≡ are_text asked }
{
    either(is_one(asked), " is ", " are ")
}

// Whether one process is asked for, and no other.
fn is_one(asked: MustStop) -> bool
    ensures { result ≡ is_one asked }
{
    match asked {
        MustStop::All => false,
        MustStop::Each(marks) => has_one(&marks),
    }
}

// Whether one of these is marked, and no other.
fn has_one(marks: &[bool]) -> bool
    ensures { result ≡ has_one marks.now }
{
    match marks {
        [] => false,
        [true, more @ ..] => !has_mark(more),
        [false, more @ ..] => has_one(more),
    }
}

/// This process steps again and again and doesn't end, where others stop.
pub fn not_wait_free_line(
    alloc: Global,
    lines: usize,
    asked: Conditions,
    process: u8,
) -> Result<String, AllocError>
    ensures { IfOk result (λ line. string_bytes line ≡ not_wait_free_line lines asked process) }
{
    let mut line = quiet(alloc, lines)?;
    push_fair(alloc, &mut line, asked.fair)?;
    line.push_str("; process ")?;
    push_number(&mut line, u64::from(process))?;
    line.push_str(
        " is not wait-free: under this schedule it steps again and again and never ends:",
    )?;
    Ok(line)
}

/// This process steps alone and doesn't end.
pub fn not_alone_line(
    alloc: Global,
    lines: usize,
    asked: Conditions,
    process: u8,
) -> Result<String, AllocError>
    ensures { IfOk result (λ line. string_bytes line ≡ not_alone_line lines asked process) }
{
    let mut line = quiet(alloc, lines)?;
    push_fair(alloc, &mut line, asked.fair)?;
    push_wait_free(alloc, &mut line, asked.wait_free)?;
    line.push_str("; process ")?;
    push_number(&mut line, u64::from(process))?;
    line.push_str(" is not obstruction-free: after this schedule it steps alone and never ends:")?;
    Ok(line)
}

/// They can always end, and under a schedule they don't.
pub fn endless_line(alloc: Global, lines: usize, asked: MustStop) -> Result<String, AllocError>
    ensures { IfOk result (λ line. string_bytes line ≡ endless_line lines asked) }
{
    let mut line = quiet(alloc, lines)?;
    line.push_str("; ")?;
    push_asked(alloc, &mut line, asked)?;
    line.push_str(
        " can still end after every schedule, but not under this one, in which each that runs steps again and again:",
    )?;
    Ok(line)
}

/// They can't end any more.
pub fn stuck_line(
    alloc: Global,
    is_merged: bool,
    lines: usize,
    asked: MustStop,
) -> Result<String, AllocError>
    ensures { IfOk result (λ line. string_bytes line ≡ stuck_line is_merged lines asked) }
{
    let mut line = quiet(alloc, lines)?;
    line.push_str("; after this schedule no further steps end ")?;
    push_asked(alloc, &mut line, asked)?;
    line.push_str(either(is_merged, ":", ", and after each shorter one some do:"))?;
    Ok(line)
}

/// There is no such process.
pub fn no_process_line(alloc: Global, process: u8) -> Result<String, AllocError>
    ensures { IfOk result (λ line. string_bytes line ≡ no_process_line process) }
{
    let mut line = String::from_str(alloc, "--ends: error: there is no process ")?;
    push_number(&mut line, u64::from(process))?;
    line.push_str("\n")?;
    Ok(line)
}
