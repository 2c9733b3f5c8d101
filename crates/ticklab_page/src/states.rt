// The table of the state.
ghost use Rattle.std.specs.Prelude.{◌≡◌, ◌++◌, IfOk, OnOk, codes, string_bytes};
ghost use Rattle.ticklab_draw.specs.Words.{names};
ghost use Rattle.ticklab_page.specs.States.{column_head, fixed_row, headed_rows, heading_row, more_marks, named_rows, process_rows, rank_row, scan_cell, scan_heading, scan_mark, status_row, step_rows, table_head, table_text, table_top, value_row, value_rows};
ghost use Rattle.ticklab_page.specs.Writing.{for_each};

use crate::writing::{Added, push, push_around, push_shown, push_times};
use base::tree::Named;
use std::alloc::{AllocError, Global};

/// Adds the table as it is at the start: a column for each of `n` processes, and a row for each name.
#[tactic(auto, unfolding(crate::specs::States::table_text))]
pub fn push_table(
    alloc: Global,
    page: &mut Vec<u8>,
    is_code: bool,
    n: u8,
    rows: &[Named],
    scans: &[Named],
    variables: &[Named],
) -> Added
    ensures { OnOk result (page.new.items ≡ page.old.items ++ table_text is_code n (names rows.now) (names scans.now) (names variables.now)) }
{
    push_table_head(page, n)?;
    push_process_rows(page, is_code, n)?;
    push_named_rows(alloc, page, is_code, n, rows, scans, variables)?;
    push(page, "</tbody></table></div>\n</section>\n")
}

// The registers, the scans and the variables.
#[tactic(auto, unfolding(crate::specs::States::named_rows))]
fn push_named_rows(
    alloc: Global,
    page: &mut Vec<u8>,
    is_code: bool,
    n: u8,
    rows: &[Named],
    scans: &[Named],
    variables: &[Named],
) -> Added
    ensures { OnOk result (page.new.items ≡ page.old.items ++ named_rows is_code n (names rows.now) (names scans.now) (names variables.now)) }
{
    let number = "<td>0</td>";
    push_headed_rows(page, "Registers", "<tr data-k=\"r", number, n, rows)?;
    let (heading, order) = (scan_heading(is_code), scan_cell(alloc, is_code, n)?);
    push_headed_rows(page, heading, "<tr data-k=\"c", &order, n, scans)?;
    push_headed_rows(page, "Variables", "<tr data-k=\"v", number, n, variables)
}

// A scan has the rank of each process, or all labels.
fn scan_heading(is_code: bool) -> &'static str
    ensures { result.now ≡ scan_heading is_code }
{
    if is_code {
        "Scans: the label of each process"
    } else {
        "Scans: the rank of each process"
    }
}

// The cell of a scan that has seen nobody hold a ticket, or no label.
#[tactic(auto, unfolding(crate::specs::States::scan_cell))]
fn scan_cell(alloc: Global, is_code: bool, n: u8) -> Result<String, AllocError>
    ensures { IfOk result (λ cell. string_bytes cell ≡ scan_cell is_code n) }
{
    let mut cell = String::from_str(alloc, "<td>")?;
    cell.push_str(scan_mark(is_code))?;
    push_marks(&mut cell, is_code, n.saturating_sub(1))?;
    cell.push_str("</td>")?;
    Ok(cell)
}

fn push_marks(cell: &mut String, is_code: bool, count: u8) -> Added
    ensures { OnOk result (string_bytes cell.new ≡ string_bytes cell.old ++ more_marks is_code count) }
{
    'marks: for _ in 0..count {
        push_mark(cell, is_code)?;
    }
    Ok(())
}

fn push_mark(cell: &mut String, is_code: bool) -> Added
    ensures { OnOk result (string_bytes cell.new ≡ string_bytes cell.old ++ codes " " ++ scan_mark is_code) }
{
    cell.push_str(" ")?;
    cell.push_str(scan_mark(is_code))
}

fn scan_mark(is_code: bool) -> &'static str
    ensures { result.now ≡ scan_mark is_code }
{
    if is_code { "." } else { "-" }
}

// Rows below their heading, where there are some.
fn push_headed_rows(
    page: &mut Vec<u8>,
    heading: &str,
    letter: &str,
    cell: &str,
    n: u8,
    section: &[Named],
) -> Added
    ensures { OnOk result (page.new.items ≡ page.old.items ++ headed_rows heading.now letter.now cell.now n (names section.now)) }
{
    if section.is_empty() {
        return Ok(());
    }
    push_heading_row(page, heading, n)?;
    push_value_rows(page, letter, cell, n, section)
}

#[tactic(auto, unfolding(crate::specs::States::heading_row))]
fn push_heading_row(page: &mut Vec<u8>, heading: &str, n: u8) -> Added
    ensures { OnOk result (page.new.items ≡ page.old.items ++ heading_row heading.now n) }
{
    let head = "<tr class=\"kind\"><th scope=\"rowgroup\" colspan=\"";
    push_around(page, head, u64::from(n) + 1, "\">")?;
    push(page, heading)?;
    push(page, "</th></tr>\n")
}

#[tactic(auto, unfolding(crate::specs::States::table_head))]
fn push_table_head(page: &mut Vec<u8>, n: u8) -> Added
    ensures { OnOk result (page.new.items ≡ page.old.items ++ table_head n) }
{
    push(page, table_top())?;
    push_column_heads(page, n)?;
    push(page, "</tr></thead>\n<tbody>\n")
}

#[tactic(auto, unfolding(crate::specs::States::table_top))]
fn table_top() -> &'static str
    ensures { result.now ≡ table_top }
{
    "<div class=\"panes\">
<section data-live hidden>
<h2>State</h2>
<div class=\"box\" tabindex=\"0\" role=\"region\" aria-label=\"State\"><table id=\"state\" class=\"state\">
<caption>After the step; what it changed is marked</caption>
<thead><tr><th scope=\"col\">process</th>"
}

fn push_column_heads(page: &mut Vec<u8>, n: u8) -> Added
    ensures { OnOk result (page.new.items ≡ page.old.items ++ for_each column_head n) }
{
    for process in 0..n {
        push_column_head(page, process)?;
    }
    Ok(())
}

#[tactic(auto, unfolding(crate::specs::States::column_head))]
fn push_column_head(page: &mut Vec<u8>, p: u8) -> Added
    ensures { OnOk result (page.new.items ≡ page.old.items ++ column_head p) }
{
    push_around(page, "<th scope=\"col\">P", u64::from(p), "</th>")
}

#[tactic(auto, unfolding(crate::specs::States::process_rows))]
fn push_process_rows(page: &mut Vec<u8>, is_code: bool, n: u8) -> Added
    ensures { OnOk result (page.new.items ≡ page.old.items ++ process_rows is_code n) }
{
    push_status_row(page, n)?;
    push_step_rows(page, is_code, n)?;
    push_rank_row(page, n)
}

fn push_status_row(page: &mut Vec<u8>, n: u8) -> Added
    ensures { OnOk result (page.new.items ≡ page.old.items ++ status_row n) }
{
    let status = "<tr data-k=\"s\"><th scope=\"row\">status</th>";
    push_row(page, status, n, "<td>running</td>")
}

fn push_rank_row(page: &mut Vec<u8>, n: u8) -> Added
    ensures { OnOk result (page.new.items ≡ page.old.items ++ rank_row n) }
{
    let rank = "<tr data-k=\"o\"><th scope=\"row\">rank</th>";
    push_row(page, rank, n, "<td>-</td>")
}

// The last step of each process, and what it holds.
fn push_step_rows(page: &mut Vec<u8>, is_code: bool, n: u8) -> Added
    ensures { OnOk result (page.new.items ≡ page.old.items ++ step_rows is_code n) }
{
    if is_code {
        let place = "<tr data-k=\"at\"><th scope=\"row\">place of its last step</th>";
        push_row(page, place, n, "<td>-</td>")?;
        let label = "<tr data-k=\"t\"><th scope=\"row\">label</th>";
        return push_row(page, label, n, "<td>.</td>");
    }
    let line = "<tr data-k=\"at\"><th scope=\"row\">line of its last step</th>";
    push_row(page, line, n, "<td>-</td>")?;
    let ticket = "<tr data-k=\"t\"><th scope=\"row\">ticket</th>";
    push_row(page, ticket, n, "<td>0</td>")
}

// A row with the same for each process.
#[tactic(auto, unfolding(crate::specs::States::fixed_row))]
fn push_row(page: &mut Vec<u8>, head: &str, n: u8, cell: &str) -> Added
    ensures { OnOk result (page.new.items ≡ page.old.items ++ fixed_row head.now n cell.now) }
{
    push(page, head)?;
    push_times(page, n, cell)?;
    push(page, "</tr>\n")
}

// A row for each name, in order.
fn push_value_rows(page: &mut Vec<u8>, letter: &str, cell: &str, n: u8, section: &[Named]) -> Added
    ensures { OnOk result (page.new.items ≡ page.old.items ++ value_rows letter.now cell.now n 0 (names section.now)) }
{
    for (number, name) in section.iter().enumerate() {
        push_value_row(page, letter, cell, n, number, &name.name)?;
    }
    Ok(())
}

#[tactic(auto, unfolding(crate::specs::States::value_row))]
fn push_value_row(
    page: &mut Vec<u8>,
    letter: &str,
    cell: &str,
    n: u8,
    number: usize,
    name: &str,
) -> Added
    ensures { OnOk result (page.new.items ≡ page.old.items ++ value_row letter.now cell.now n number name.now) }
{
    push_around(page, letter, number as u64, "\"><th scope=\"row\">")?;
    push_shown(page, name.as_bytes())?;
    push_row(page, "</th>", n, cell)
}
