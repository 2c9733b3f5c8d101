// The lines of the program or the code, and those of the steps.
ghost use Rattle.std.specs.Prelude.{◌≡◌, ◌<◌, ◌++◌, IfOk, OnOk, map, string_bytes};
ghost use Rattle.std.specs.Str.Lines.{lines};
ghost use Rattle.code_text.specs.CodeText.{instr_text};
ghost use Rattle.ticklab_trace.specs.FoldedText.{row_text};
ghost use Rattle.ticklab_page.specs.Lists.{folded_item, heading, line_items, listing_head, listing_text, part_head, row_foot, row_head, row_summary, step_head, step_item, step_items, steps_text, steps_top};

use crate::writing::{Added, push, push_shown, push_twice};
use code_core::{Code, Instr};
use code_text::push_instruction;
use std::alloc::{AllocError, Global};
use ticklab_trace::{Fold, Part, Parts, Row, begun_at, ends_row, fold_at, push_row, rows_past};

// An item of the list of steps that is a heading.
const HEADING: &str = "<li><h3 style=\"font-size:1rem;margin:.6rem .6rem .2rem\">";

/// Adds the lines of the program or the code.
#[tactic(auto, unfolding(crate::specs::Lists::listing_text))]
pub fn push_listing(page: &mut Vec<u8>, is_code: bool, lines: &[&str]) -> Added
    ensures { OnOk result (page.new.items ≡ page.old.items ++ listing_text is_code (map (λ x. x.now) lines.now)) }
{
    push_listing_head(page, is_code)?;
    push_line_items(page, lines)?;
    push(page, "</ol></div>\n</section>\n")
}

fn push_listing_head(page: &mut Vec<u8>, is_code: bool) -> Added
    ensures { OnOk result (page.new.items ≡ page.old.items ++ listing_head is_code) }
{
    if is_code {
        return push(
            page,
            "<section>\n<h2>Code</h2>\n<div class=\"box\" tabindex=\"0\" role=\"region\" aria-label=\"Code\"><ol id=\"program\" class=\"listing\" data-first=\"0\">\n",
        );
    }
    push(
        page,
        "<section>\n<h2>Program</h2>\n<div class=\"box\" tabindex=\"0\" role=\"region\" aria-label=\"Program\"><ol id=\"program\" class=\"listing\" data-first=\"1\">\n",
    )
}

/// The lines of a text.
pub fn lines_of(alloc: Global, text: &str) -> Result<Vec<&str>, AllocError>
    ensures { IfOk result (λ v. map (λ x. x.now) v.items ≡ lines text.now) }
{
    text.lines().collect(alloc)
}

/// The instructions of a code, each as a trace tells it.
pub fn instructions_of(alloc: Global, code: &Code) -> Result<Vec<String>, AllocError>
    ensures { IfOk result (λ texts. map string_bytes texts.items ≡ map instr_text code.now.instructions) }
{
    let mut texts = Vec::with_capacity(alloc, code.len())?;
    for place in 0..code.len() as u16 {
        texts.push(instruction_text(alloc, code.instr(place))?)?;
    }
    Ok(texts)
}

fn instruction_text(alloc: Global, instruction: Instr) -> Result<String, AllocError>
    ensures { IfOk result (λ text. string_bytes text ≡ instr_text instruction) }
{
    let mut text = String::new(alloc);
    push_instruction(&mut text, instruction)?;
    Ok(text)
}

/// The same texts, lent.
pub fn lent(alloc: Global, texts: &[String]) -> Result<Vec<&str>, AllocError>
    ensures { IfOk result (λ v. map (λ x. x.now) v.items ≡ map string_bytes texts.now) }
{
    texts.iter().map(|text| text.as_str()).collect(alloc)
}

fn push_line_items(page: &mut Vec<u8>, lines: &[&str]) -> Added
    ensures { OnOk result (page.new.items ≡ page.old.items ++ line_items (map (λ x. x.now) lines.now)) }
{
    for line in lines {
        push(page, "<li>")?;
        push_shown(page, line.as_bytes())?;
        push(page, "</li>\n")?;
    }
    Ok(())
}

/// Adds the steps, after the start, as a trace has them, with a heading before each part that begins. These rows of private
/// steps are folded.
#[tactic(auto, unfolding(crate::specs::Lists::steps_text))]
pub fn push_steps(
    alloc: Global,
    page: &mut Vec<u8>,
    parts: Option<Parts>,
    rows: &[Row],
    trace: &str,
) -> Added
    ensures { OnOk result (page.new.items ≡ page.old.items ++ steps_text parts rows.now trace.now) }
{
    push(page, steps_top())?;
    let lines = lines_of(alloc, trace)?;
    push_step_items(alloc, page, parts, rows, lines.as_slice())?;
    push(page, "</ol></div>\n</section>\n</div>\n")
}

#[tactic(auto, unfolding(crate::specs::Lists::steps_top))]
fn steps_top() -> &'static str
    ensures { result.now ≡ steps_top }
{
    "<section>
<h2>Steps</h2>
<div class=\"box\" tabindex=\"0\" role=\"region\" aria-label=\"Steps\"><ol id=\"steps\" class=\"told\">
<li id=\"step-0\"><a href=\"#step-0\">   0  start</a></li>
"
}

fn push_step_items(
    alloc: Global,
    page: &mut Vec<u8>,
    parts: Option<Parts>,
    rows: &[Row],
    lines: &[&str],
) -> Added
    ensures { OnOk result (page.new.items ≡ page.old.items ++ step_items parts rows.now 0 (map (λ x. x.now) lines.now)) }
{
    let mut left = rows;
    for (at, line) in lines.iter().enumerate() {
        push_part_head(page, begun_at(parts, at))?;
        push_folded_item(alloc, page, left, at, line)?;
        left = rows_past(left, at);
    }
    Ok(())
}

// A step, and what of a row of private ones begins before it and ends with it.
#[tactic(auto, unfolding(crate::specs::Lists::folded_item))]
fn push_folded_item(
    alloc: Global,
    page: &mut Vec<u8>,
    rows: &[Row],
    before: usize,
    line: &str,
) -> Added
    requires { before < 18446744073709551615 }
    ensures { OnOk result (page.new.items ≡ page.old.items ++ folded_item rows.now before line.now) }
{
    push_row_head(alloc, page, before, fold_at(rows, before))?;
    push_step_item(page, before as u64 + 1, line)?;
    push_row_foot(page, ends_row(rows, before))
}

// A row is open or closed, and the number of its steps stands at its head.
fn push_row_head(alloc: Global, page: &mut Vec<u8>, before: usize, fold: Fold) -> Added
    requires { before < 18446744073709551615 }
    ensures { OnOk result (page.new.items ≡ page.old.items ++ row_head before fold) }
{
    match fold {
        Fold::Apart | Fold::Within => Ok(()),
        Fold::Begins(row) => push_row_summary(alloc, page, before, row),
    }
}

fn push_row_summary(alloc: Global, page: &mut Vec<u8>, before: usize, row: Row) -> Added
    requires { before < 18446744073709551615 }
    ensures { OnOk result (page.new.items ≡ page.old.items ++ row_summary before row) }
{
    let text = row_text(alloc, before, row)?;
    push(page, "<li><details><summary>")?;
    push(page, &text)?;
    push(page, "</summary><ol>\n")
}

fn row_text(alloc: Global, before: usize, row: Row) -> Result<String, AllocError>
    requires { before < 18446744073709551615 }
    ensures { IfOk result (λ text. string_bytes text ≡ row_text before row) }
{
    let mut text = String::new(alloc);
    push_row(&mut text, before, row)?;
    Ok(text)
}

fn push_row_foot(page: &mut Vec<u8>, ends: bool) -> Added
    ensures { OnOk result (page.new.items ≡ page.old.items ++ row_foot ends) }
{
    if ends {
        return push(page, "</ol></details></li>\n");
    }
    Ok(())
}

// The heading of a part that begins.
fn push_part_head(page: &mut Vec<u8>, part: Option<Part>) -> Added
    ensures { OnOk result (page.new.items ≡ page.old.items ++ part_head part) }
{
    match part {
        None => Ok(()),
        Some(part) => push_heading(page, part.name()),
    }
}

#[tactic(auto, unfolding(crate::specs::Lists::heading))]
fn push_heading(page: &mut Vec<u8>, name: &str) -> Added
    ensures { OnOk result (page.new.items ≡ page.old.items ++ heading name.now) }
{
    push(page, HEADING)?;
    push(page, name)?;
    push(page, "</h3></li>\n")
}

#[tactic(auto, unfolding(crate::specs::Lists::step_item))]
fn push_step_item(page: &mut Vec<u8>, number: u64, line: &str) -> Added
    ensures { OnOk result (page.new.items ≡ page.old.items ++ step_item number line.now) }
{
    push_step_head(page, number)?;
    push_shown(page, line.as_bytes())?;
    push(page, "</a></li>\n")
}

#[tactic(auto, unfolding(crate::specs::Lists::step_head))]
fn push_step_head(page: &mut Vec<u8>, number: u64) -> Added
    ensures { OnOk result (page.new.items ≡ page.old.items ++ step_head number) }
{
    push_twice(page, "<li id=\"step-", number, "\"><a href=\"#step-", "\">")
}
