// A run as a page of HTML.
ghost use Rattle.std.specs.Prelude.{◌≡◌, ◌++◌, IfOk, OnOk, map, option_map};
ghost use Rattle.ticklab_trace.specs.Places.{told_standing};
ghost use Rattle.ticklab_draw.specs.Never.{broken_of};
ghost use Rattle.ticklab_page.specs.Pages.{about, broken_at, broken_text, buttons_text, changes_text, code_page, details_head, fold_button, folded, linked, loop_start, of_round, opening_text, page_text, picture_text, run_head, script_sum, script_text, source_page, step_link, title_text, top_text, trap_text};
ghost use Rattle.ticklab_page.specs.Runs.{run_of};

use crate::changes::{instruction_changes, statement_changes};
use crate::lists::{instructions_of, lent, lines_of, push_listing, push_steps};
use crate::script::{ROUNDS, SCRIPT, SCRIPT_END};
use crate::states::push_table;
use crate::steps::{first_trap, first_trap_of_code, opened_at};
use crate::style::{OPENING, OPENING_END, ROUNDS_SUM, SCRIPT_SUM, SHEET};
use crate::writing::{Added, push, push_around, push_shown, push_twice};
use base::NoMemory;
use base::tree::Named;
use code_core::Code;
use std::alloc::Global;
use tick_kinds::Program;
use ticklab_draw::NeverMark;
use ticklab_trace::{
    InstructionStep, Parts, Row, StatementPlace, StatementStep, code_trace, instruction_rows,
    source_trace, statement_rows,
};

/// A page is meant for at most so many steps.
pub const MOST_STEPS: usize = 20_000;

// The buttons.
const BUTTONS: &str =
    "<noscript><p>What each step leaves is shown by a script. The steps and the picture are here without one.</p></noscript>
<div class=\"move\" data-live hidden>
<button id=\"first\" type=\"button\" aria-label=\"To the start\">|&lt;</button>
<button id=\"back\" type=\"button\" aria-label=\"One step back\">&lt;</button>
<button id=\"forth\" type=\"button\" aria-label=\"One step forward\">&gt;</button>
<button id=\"last\" type=\"button\" aria-label=\"To the last step\">&gt;|</button>
<button id=\"event\" type=\"button\">Next event</button>
<button id=\"own\" type=\"button\">Next of this process</button>
";

// The sentence that is read out.
const SAID: &str = "<p id=\"said\" class=\"said\" aria-live=\"polite\"></p>
";

// Those of a run that goes round for ever.
const ROUND_BUTTONS: &str = "<button id=\"loop\" type=\"button\">To the loop</button>
<button id=\"again\" type=\"button\">Round again</button>
";

// That of a page on which private steps are folded.
const FOLD_BUTTON: &str =
    "<button id=\"rows\" type=\"button\" aria-pressed=\"false\">All private steps</button>
";

const ROUND_SAID: &str = "<p id=\"round\" class=\"said\" aria-live=\"polite\"></p>
";

const BUTTONS_END: &str = "</div>
";

// What stands above the picture.
const PICTURE_TOP: &str = "<summary>What others see of the steps; a mark goes to its step</summary>
<div id=\"picture\" class=\"box drawn\" tabindex=\"0\" role=\"region\" aria-label=\"Picture\">
";

/// A run as a page has it.
#[derive(Clone, Copy)]
pub struct Run<'a> {
    title: &'a [u8],
    processes: u8,
    is_code: bool,
    rows: &'a [Named],
    scans: &'a [Named],
    variables: &'a [Named],
    listing: &'a [&'a str],
    parts: Option<Parts>,
    folds: &'a [Row],
    trace: &'a str,
    count: usize,
    trap: Option<usize>,
    changes: &'a [u8],
    drawn: &'a [u8],
}

/// The page of the steps of a program, which have these parts. `text` is the program's, in which its statements have these
/// places; `drawn` is the picture of the run, which has this mark of what must never hold.
#[tactic(auto, unfolding(crate::specs::Pages::source_page))]
pub fn source_page<'a>(
    alloc: Global,
    title: &'a [u8],
    is_shared: bool,
    text: &'a str,
    program: &'a Program,
    spots: &[StatementPlace<'_>],
    parts: Option<Parts>,
    steps: &[StatementStep],
    drawn: &'a [u8],
    never: Option<NeverMark<'a>>,
) -> Result<Vec<u8>, NoMemory>
    ensures { IfOk result (λ page. page.items ≡ source_page title.now is_shared text.now program.now (map told_standing spots.now) parts steps.now drawn.now (option_map broken_of never.entry)) }
{
    let lines = lines_of(alloc, text)?;
    let trace = source_trace(alloc, program, spots, None, 0, steps)?;
    let changes = statement_changes(alloc, spots, steps)?;
    let rows = statement_rows(alloc, parts, 0, steps)?;
    let tree = program.tree();
    let run = Run {
        title,
        processes: program.processes(),
        is_code: false,
        rows: tree.registers.as_slice(),
        scans: tree.scans.as_slice(),
        variables: tree.variables.as_slice(),
        listing: lines.as_slice(),
        parts,
        folds: folded(is_shared, rows.as_slice()),
        trace: &trace,
        count: steps.len(),
        trap: first_trap(steps),
        changes: changes.as_slice(),
        drawn,
    };
    page_of(alloc, run, never)
}

/// The page of the steps of the code that was lowered from a program.
#[tactic(auto, unfolding(crate::specs::Pages::code_page))]
pub fn code_page<'a>(
    alloc: Global,
    title: &'a [u8],
    is_shared: bool,
    program: &'a Program,
    code: &Code,
    steps: &[InstructionStep],
    drawn: &'a [u8],
) -> Result<Vec<u8>, NoMemory>
    ensures { IfOk result (λ page. page.items ≡ code_page title.now is_shared program.now code.now steps.now drawn.now) }
{
    let trace = code_trace(alloc, program, steps)?;
    let changes = instruction_changes(alloc, steps)?;
    let texts = instructions_of(alloc, code)?;
    let lines = lent(alloc, texts.as_slice())?;
    let rows = instruction_rows(alloc, steps)?;
    let tree = program.tree();
    let run = Run {
        title,
        processes: program.processes(),
        is_code: true,
        rows: tree.registers.as_slice(),
        scans: tree.scans.as_slice(),
        variables: &[],
        listing: lines.as_slice(),
        parts: None,
        folds: folded(is_shared, rows.as_slice()),
        trace: &trace,
        count: steps.len(),
        trap: first_trap_of_code(steps),
        changes: changes.as_slice(),
        drawn,
    };
    page_of(alloc, run, None)
}

// The rows of private steps, where these are folded.
fn folded(is_shared: bool, rows: &[Row]) -> &[Row]
    ensures { result.now ≡ folded is_shared rows.now }
{
    if is_shared { rows } else { &[] }
}

fn page_of(alloc: Global, run: Run<'_>, never: Option<NeverMark<'_>>) -> Result<Vec<u8>, NoMemory>
    ensures { IfOk result (λ page. page.items ≡ page_text (run_of run.entry) (option_map broken_of never.entry)) }
{
    let mut out = Vec::new(alloc);
    push_page(alloc, &mut out, run, never)?;
    Ok(out)
}

#[tactic(auto, unfolding(crate::specs::Pages::page_text))]
fn push_page(alloc: Global, out: &mut Vec<u8>, run: Run<'_>, never: Option<NeverMark<'_>>) -> Added
    ensures { OnOk result (out.new.items ≡ out.old.items ++ page_text (run_of run.entry) (option_map broken_of never.entry)) }
{
    push_top(out, run, never)?;
    let (is_code, n) = (run.is_code, run.processes);
    push_table(alloc, out, is_code, n, run.rows, run.scans, run.variables)?;
    push_listing(out, is_code, run.listing)?;
    push_steps(alloc, out, run.parts, run.folds, run.trace)?;
    push_picture(out, run.count, run.drawn)?;
    push_changes(out, run.changes)?;
    push_script(out, run.parts)
}

// The script, which has more to do where the run goes round.
#[tactic(auto, unfolding(crate::specs::Pages::script_text))]
fn push_script(out: &mut Vec<u8>, parts: Option<Parts>) -> Added
    ensures { OnOk result (out.new.items ≡ out.old.items ++ script_text parts) }
{
    push(out, SCRIPT)?;
    push_of_round(out, parts, ROUNDS)?;
    push(out, SCRIPT_END)
}

// What is so only where the run goes round.
fn push_of_round(out: &mut Vec<u8>, parts: Option<Parts>, text: &str) -> Added
    ensures { OnOk result (out.new.items ≡ out.old.items ++ of_round parts text.now) }
{
    match parts {
        Some(_) => push(out, text),
        None => Ok(()),
    }
}

// What it is of, its fault and the buttons.
#[tactic(auto, unfolding(crate::specs::Pages::top_text))]
fn push_top(out: &mut Vec<u8>, run: Run<'_>, never: Option<NeverMark<'_>>) -> Added
    ensures { OnOk result (out.new.items ≡ out.old.items ++ top_text (run_of run.entry) (option_map broken_of never.entry)) }
{
    push_title(out, run.parts, run.title)?;
    let opened = opened_at(run.trap, broken_step(never));
    push_about(out, opened, run.parts, run.count, run.processes)?;
    push_trap(out, run.trap)?;
    push_broken(out, never)?;
    push_buttons(out, run.parts, run.folds)
}

#[tactic(auto, unfolding(crate::specs::Pages::buttons_text))]
fn push_buttons(out: &mut Vec<u8>, parts: Option<Parts>, folds: &[Row]) -> Added
    ensures { OnOk result (out.new.items ≡ out.old.items ++ buttons_text parts folds.now) }
{
    push(out, BUTTONS)?;
    push_of_round(out, parts, ROUND_BUTTONS)?;
    push_fold_button(out, folds)?;
    push(out, SAID)?;
    push_of_round(out, parts, ROUND_SAID)?;
    push(out, BUTTONS_END)
}

// The button that opens and closes all rows, where there are some.
fn push_fold_button(out: &mut Vec<u8>, folds: &[Row]) -> Added
    ensures { OnOk result (out.new.items ≡ out.old.items ++ fold_button folds.now) }
{
    if folds.is_empty() {
        return Ok(());
    }
    push(out, FOLD_BUTTON)
}

fn broken_step(never: Option<NeverMark<'_>>) -> Option<usize>
    ensures { result ≡ option_map (λ b. b.steps) (option_map broken_of never.entry) }
{
    match never {
        Some(never) => Some(never.steps),
        None => None,
    }
}

#[tactic(auto, unfolding(crate::specs::Pages::title_text))]
fn push_title(out: &mut Vec<u8>, parts: Option<Parts>, title: &[u8]) -> Added
    ensures { OnOk result (out.new.items ≡ out.old.items ++ title_text parts title.now) }
{
    push_opening(out, parts)?;
    push(out, SHEET)?;
    push(out, "<title>")?;
    push_shown(out, title)?;
    push(out, ": a run</title>\n</head>\n<body>\n<h1>")?;
    push_shown(out, title)?;
    push(out, "</h1>\n")
}

// What stands before the style sheet; a page runs its own script alone.
#[tactic(auto, unfolding(crate::specs::Pages::opening_text))]
fn push_opening(out: &mut Vec<u8>, parts: Option<Parts>) -> Added
    ensures { OnOk result (out.new.items ≡ out.old.items ++ opening_text parts) }
{
    push(out, OPENING)?;
    push(out, script_sum(parts))?;
    push(out, OPENING_END)
}

fn script_sum(parts: Option<Parts>) -> &'static str
    ensures { result.now ≡ script_sum parts }
{
    match parts {
        Some(_) => ROUNDS_SUM,
        None => SCRIPT_SUM,
    }
}

#[tactic(auto, unfolding(crate::specs::Pages::about))]
fn push_about(out: &mut Vec<u8>, opened: usize, parts: Option<Parts>, count: usize, n: u8) -> Added
    ensures { OnOk result (out.new.items ≡ out.old.items ++ about opened parts count n) }
{
    push_run_head(out, opened, parts)?;
    push_around(out, "", count as u64, "")?;
    let processes = " steps of a run; processes: ";
    push_around(out, processes, u64::from(n), "</p>\n")
}

// Where the page opens and the round begins.
#[tactic(auto, unfolding(crate::specs::Pages::run_head))]
fn push_run_head(out: &mut Vec<u8>, opened: usize, parts: Option<Parts>) -> Added
    ensures { OnOk result (out.new.items ≡ out.old.items ++ run_head opened parts) }
{
    push_around(out, "<p id=\"run\" data-open=\"", opened as u64, "\"")?;
    push_loop_start(out, parts)?;
    push(out, ">")
}

// After which step the round begins.
fn push_loop_start(out: &mut Vec<u8>, parts: Option<Parts>) -> Added
    ensures { OnOk result (out.new.items ≡ out.old.items ++ loop_start parts) }
{
    match parts {
        Some(parts) => push_around(out, " data-loop=\"", parts.cycle as u64, "\""),
        None => Ok(()),
    }
}

fn push_trap(out: &mut Vec<u8>, trap: Option<usize>) -> Added
    ensures { OnOk result (out.new.items ≡ out.old.items ++ trap_text trap) }
{
    match trap {
        None => Ok(()),
        Some(step) => push_linked(
            out,
            "<p class=\"fault\">A process traps at ",
            step,
            ".</p>\n",
        ),
    }
}

// Adds the link to a step between markup.
#[tactic(auto, unfolding(crate::specs::Pages::linked))]
fn push_linked(out: &mut Vec<u8>, before: &str, step: usize, after: &str) -> Added
    ensures { OnOk result (out.new.items ≡ out.old.items ++ linked before.now step after.now) }
{
    push(out, before)?;
    push_step_link(out, step)?;
    push(out, after)
}

fn push_broken(out: &mut Vec<u8>, never: Option<NeverMark<'_>>) -> Added
    ensures { OnOk result (out.new.items ≡ out.old.items ++ broken_text (option_map broken_of never.entry)) }
{
    match never {
        None => Ok(()),
        Some(never) => {
            push_broken_at(out, never.steps)?;
            push_shown(out, never.text)?;
            push(out, "</code></p>\n")
        }
    }
}

#[tactic(auto, unfolding(crate::specs::Pages::broken_at))]
fn push_broken_at(out: &mut Vec<u8>, step: usize) -> Added
    ensures { OnOk result (out.new.items ≡ out.old.items ++ broken_at step) }
{
    let breaks = " this breaks, which must never hold: <code>";
    push_linked(out, "<p class=\"fault\">After ", step, breaks)
}

#[tactic(auto, unfolding(crate::specs::Pages::step_link))]
fn push_step_link(out: &mut Vec<u8>, step: usize) -> Added
    ensures { OnOk result (out.new.items ≡ out.old.items ++ step_link step) }
{
    push_twice(out, "<a href=\"#step-", step as u64, "\">step ", "</a>")
}

#[tactic(auto, unfolding(crate::specs::Pages::picture_text))]
fn push_picture(out: &mut Vec<u8>, count: usize, drawn: &[u8]) -> Added
    ensures { OnOk result (out.new.items ≡ out.old.items ++ picture_text count drawn.now) }
{
    push(out, "<section>\n<h2>Picture</h2>\n")?;
    push(out, details_head(count))?;
    push(out, PICTURE_TOP)?;
    out.extend_from_slice(drawn)?;
    push(out, "</div>\n</details>\n</section>\n")
}

#[tactic(auto, unfolding(crate::specs::Pages::changes_text))]
fn push_changes(out: &mut Vec<u8>, changes: &[u8]) -> Added
    ensures { OnOk result (out.new.items ≡ out.old.items ++ changes_text changes.now) }
{
    push(out, "<pre id=\"changes\" hidden>\n")?;
    out.extend_from_slice(changes)?;
    push(out, "</pre>\n")
}

// A large picture is closed at first.
fn details_head(count: usize) -> &'static str
    ensures { result.now ≡ details_head count }
{
    if count <= 2000 {
        "<details open>\n"
    } else {
        "<details>\n"
    }
}
