//! `ticklab page`: a run as a page, if it has no more steps than a page may have.
ghost use Rattle.std.specs.Prelude.{◌≡◌, IfErr, IfOk, OnOk, option_map, string_bytes};
ghost use Rattle.ticketc_refusals.specs.Refusals.{SpelledIn};
ghost use Rattle.ticklab_draw.specs.Never.{broken_of};
ghost use Rattle.ticklab_page.specs.Pages.{code_page};
ghost use Rattle.ticklab_runs.specs.Pages.{IsPageOf, page_look};
ghost use Rattle.ticklab_runs.specs.Pictures.{picture_of};
ghost use Rattle.ticklab_runs.specs.Runs.{IsTooLong, IsWithin, plain_telling};
ghost use Rattle.ticklab_runs.specs.Lines.{long_run_line};
ghost use Rattle.ticklab_files.specs.Stops.{IfRefused};

use crate::drawing::picture_of;
use crate::following::{CodeRun, ProgramRun};
use crate::told_run::Telling;
use base::{NoMemory, push_number};
use code_core::Code;
use std::alloc::{AllocError, Global};
use tick_kinds::Program;
use ticketc_refusals::SpelledProgram;
use ticklab_draw::{Look, NeverMark};
use ticklab_files::NoAnswer;
use ticklab_page::{MOST_STEPS, code_page, source_page};
use ticklab_trace::{Parts, places};

/// A page has at most so many steps; `from` says where the schedule is from.
pub fn within_a_page(
    alloc: Global,
    telling: &Telling<&str>,
    from: &str,
    count: usize,
) -> Result<(), NoAnswer>
    ensures ok { OnOk result (IsWithin (plain_telling telling.now) count) }
    ensures refused { IfErr result (λ stop. IfRefused stop (IsTooLong (plain_telling telling.now) from.now count)) }
{
    match telling {
        Telling::Trace(_) | Telling::Picture(_) => Ok(()),
        Telling::Page(_) => {
            if count > MOST_STEPS {
                let line = long_run_line(alloc, from, count)?;
                return Err(NoAnswer::Refused(line.into_bytes()));
            }
            Ok(())
        }
    }
}

// There are more steps than a page has.
fn long_run_line(alloc: Global, from: &str, count: usize) -> Result<String, AllocError>
    ensures { IfOk result (λ line. string_bytes line ≡ long_run_line from.now count) }
{
    let mut line = String::from_str(alloc, from)?;
    line.push_str(": error: there are ")?;
    push_number(&mut line, count as u64)?;
    line.push_str(" steps, and a page has at most 20000\n")?;
    Ok(line)
}

/// The page of a run of the program that this text is, which has these parts, with this title and this mark of what must
/// never hold. It opens there, or where a process traps.
pub fn program_page(
    alloc: Global,
    title: &[u8],
    is_shared: bool,
    text: &str,
    spelled: &SpelledProgram,
    parts: Option<Parts>,
    run: &ProgramRun<'_>,
    never: Option<NeverMark<'_>>,
) -> Result<Vec<u8>, NoMemory>
    requires { SpelledIn text.now spelled.now }
    ensures { IfOk result (λ out. IsPageOf title.now is_shared text.now spelled.now.program parts run.now.steps.items run.now.marks.items (option_map broken_of never.entry) out.items) }
{
    let (program, marks) = (&spelled.program, run.marks.as_slice());
    let look = page_look(is_shared);
    let drawn = picture_of(alloc, program, title, look, parts, marks, never)?;
    let spots = places(alloc, program, text, spelled.tokens.as_slice())?;
    let (spots, steps) = (spots.as_slice(), run.steps.as_slice());
    let drawn = drawn.as_slice();
    source_page(
        alloc, title, is_shared, text, program, spots, parts, steps, drawn, never,
    )
}

/// That of a run of its code.
pub fn code_page_of(
    alloc: Global,
    title: &[u8],
    is_shared: bool,
    program: &Program,
    code: &Code,
    run: &CodeRun,
) -> Result<Vec<u8>, NoMemory>
    ensures { IfOk result (λ out. out.items ≡ code_page title.now is_shared program.now code.now run.now.steps.items (picture_of program.now title.now (page_look is_shared) None run.now.marks.items None)) }
{
    let marks = run.marks.as_slice();
    let look = page_look(is_shared);
    let drawn = picture_of(alloc, program, title, look, None, marks, None)?;
    let (steps, drawn) = (run.steps.as_slice(), drawn.as_slice());
    code_page(alloc, title, is_shared, program, code, steps, drawn)
}

// How the picture of a page looks.
fn page_look(is_shared: bool) -> Look
    ensures { result ≡ page_look is_shared }
{
    Look {
        from: 1,
        is_shared,
        width: 1400,
    }
}
