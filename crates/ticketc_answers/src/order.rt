//! The text that `order` answers.
ghost use Rattle.std.specs.Prelude.{◌≡◌, ◌<◌, ◌≤◌, ◌++◌, All, IfOk, OnOk, codes, false, length, map, string_bytes, Some};
ghost use Rattle.std.specs.Fmt.{decimal};
ghost use Rattle.base.specs.Lines.{line_end, spaced};
ghost use Rattle.word_core.specs.Order.{IsOrdered, label_ranks};
ghost use Rattle.word_core.specs.Packed.{word};
ghost use Rattle.word_core.specs.Stamps.{label_at, labels_moved, moved, start_labels};
ghost use Rattle.language_schedules.specs.Moves.{mover};
ghost use Rattle.ticketc_answers.specs.Inputs.{Is, OnText};
ghost use Rattle.ticketc_answers.specs.Order.{label_text, order_answer, move_line, move_lines, moves_text as moves_written, state_lines};
ghost use Rattle.ticketc_answers.specs.Stop.{Tells};

use crate::stop::Reply;
use base::push_number;
use label_core::Label;
use language_schedules::{Move, read_moves};
use std::alloc::{AllocError, Global};
use ticketc_refusals::text_of;
use word_core::{ABSENT_LABEL, EMPTY_LABEL, LAYOUT, LabelWord};

/// The labels that `n` processes have after the stamps and clears that an input spells, and the way there.
pub fn order_text(alloc: Global, n: u8, input: &[u8]) -> Reply
    requires at_least_one { 1 ≤ n }
    requires at_most_six { n ≤ 6 }
    ensures { Tells false (OnText (Is (order_answer n)) input.now) result }
{
    let text = text_of(input)?;
    ordered(alloc, n, text)
}

fn ordered(alloc: Global, n: u8, text: &str) -> Reply
    requires at_least_one { 1 ≤ n }
    requires at_most_six { n ≤ 6 }
    ensures { Tells false (Is (order_answer n) text.now) result }
{
    let moves = read_moves(alloc, text, n)?;
    let answer = moves_text(alloc, n, moves.as_slice())?;
    Ok(answer)
}

// The words after the moves, and the labels and ranks at their end.
fn moves_text(alloc: Global, n: u8, moves: &[Move]) -> Result<String, AllocError>
    requires at_least_one { 1 ≤ n }
    requires at_most_six { n ≤ 6 }
    requires in_range { All (λ move. mover move < n) moves.now }
    ensures { IfOk result (λ text. string_bytes text ≡ moves_written n moves.now) }
{
    let mut text = layout_line(alloc)?;
    let word = push_moves(&mut text, n, moves)?;
    push_state(&mut text, &word)?;
    Ok(text)
}

fn layout_line(alloc: Global) -> Result<String, AllocError>
    ensures { IfOk result (λ line. string_bytes line ≡ codes "layout 3" ++ line_end) }
{
    format!(in alloc; "{LAYOUT}\n")
}

// A line for each move; the word after them.
fn push_moves(text: &mut String, n: u8, moves: &[Move]) -> Result<LabelWord, AllocError>
    requires at_least_one { 1 ≤ n }
    requires at_most_six { n ≤ 6 }
    requires in_range { All (λ move. mover move < n) moves.now }
    ensures word { IfOk result (λ word. word ≡ labels_moved (start_labels n) moves.now) }
    ensures lines { OnOk result (string_bytes text.new ≡ string_bytes text.old ++ move_lines (start_labels n) moves.now) }
{
    let mut word = LabelWord::start(n);
    for &made in moves {
        word = moved(&word, made);
        push_move(text, made, &word)?;
    }
    Ok(word)
}

fn moved(word: &LabelWord, made: Move) -> LabelWord
    requires in_range { mover made < length word.now }
    requires ordered { IsOrdered word.now }
    ensures moved { result ≡ moved made word.now }
    ensures ordered { IsOrdered result }
{
    match made {
        Move::Stamp(process) => word.stamped(process),
        Move::Clear(process) => word.cleared(process),
    }
}

fn push_move(text: &mut String, made: Move, word: &LabelWord) -> Result<(), AllocError>
    ensures { OnOk result (string_bytes text.new ≡ string_bytes text.old ++ move_line made word.now) }
{
    match made {
        Move::Stamp(process) => push_line(text, "stamp ", process, word),
        Move::Clear(process) => push_line(text, "clear ", process, word),
    }
}

// No format string, since this is done for each move.
fn push_line(text: &mut String, name: &str, process: u8, left: &LabelWord) -> Result<(), AllocError>
    ensures { OnOk result (string_bytes text.new ≡ string_bytes text.old ++ name.now ++ decimal process ++ codes " word " ++ decimal (word left.now) ++ line_end) }
{
    text.push_str(name)?;
    push_number(text, u64::from(process))?;
    text.push_str(" word ")?;
    push_number(text, left.bits())?;
    text.push_str("\n")
}

// The word, its labels and their ranks, a line each.
fn push_state(text: &mut String, word: &LabelWord) -> Result<(), AllocError>
    ensures { OnOk result (string_bytes text.new ≡ string_bytes text.old ++ state_lines word.now (label_ranks word.now)) }
{
    text.push_str("word ")?;
    push_number(text, word.bits())?;
    text.push_str("\nlabels")?;
    push_labels(text, word)?;
    text.push_str("\nranks")?;
    push_ranks(text, word)?;
    text.push_str("\n")
}

fn push_labels(text: &mut String, word: &LabelWord) -> Result<(), AllocError>
    ensures { OnOk result (string_bytes text.new ≡ string_bytes text.old ++ spaced (map label_text word.now)) }
{
    for process in 0..word.n() {
        text.push_str(" ")?;
        push_label(text, word, process)?;
    }
    Ok(())
}

fn push_label(text: &mut String, word: &LabelWord, process: u8) -> Result<(), AllocError>
    requires { process < length word.now }
    ensures { OnOk result (string_bytes text.new ≡ string_bytes text.old ++ label_text (label_at word.now process)) }
{
    match word.label(process) {
        Some(label) => push_digits(text, &label),
        None => text.push_str(ABSENT_LABEL),
    }
}

fn push_digits(text: &mut String, label: &Label) -> Result<(), AllocError>
    ensures { OnOk result (string_bytes text.new ≡ string_bytes text.old ++ label_text (Some label.now)) }
{
    if label.is_empty() {
        return text.push_str(EMPTY_LABEL);
    }
    for i in 0..label.len() {
        push_number(text, u64::from(label.digit(i)))?;
    }
    Ok(())
}

fn push_ranks(text: &mut String, word: &LabelWord) -> Result<(), AllocError>
    ensures { OnOk result (string_bytes text.new ≡ string_bytes text.old ++ spaced (map decimal (label_ranks word.now))) }
{
    let n = word.n() as usize;
    for rank in &word.ranks()[..n] {
        push_spaced(text, *rank)?;
    }
    Ok(())
}

fn push_spaced(text: &mut String, rank: u8) -> Result<(), AllocError>
    ensures { OnOk result (string_bytes text.new ≡ string_bytes text.old ++ codes " " ++ decimal rank) }
{
    text.push_str(" ")?;
    push_number(text, u64::from(rank))
}
