//! `ticklab draw`.
ghost use Rattle.std.specs.Prelude.{◌≡◌, ◌<◌, ◌-◌, IfOk, IfSome, drop, option_map, take};
ghost use Rattle.ticklab_line.specs.Commands.{plain_drawing};
ghost use Rattle.ticklab_runs.specs.Pictures.{look_of, picture_of, title_of};
ghost use Rattle.ticklab_draw.specs.Never.{broken_of};
ghost use Rattle.ticklab_runs.specs.Breaking.{broken_at, mark_of};

use crate::breaking::BrokenLine;
use base::NoMemory;
use base::span::Span;
use std::alloc::Global;
use tick_kinds::Program;
use ticklab_draw::{Look, Mark, NeverMark, file_name, picture};
use ticklab_line::Drawing;
use ticklab_trace::Parts;

/// The title that is asked for, else the name of the file without its folder.
pub fn title_of<'t>(title: Option<&'t str>, name: &'t str) -> &'t [u8]
    ensures { result.now ≡ title_of (option_map (λ text. text.now) title.entry) name.now }
{
    match title {
        Some(title) => title.as_bytes(),
        None => file_name(name.as_bytes()),
    }
}

/// How the picture looks that is asked for.
pub fn look_of(drawing: &Drawing<&str>) -> Look
    ensures { result ≡ look_of (plain_drawing drawing.now) }
{
    Look {
        from: drawing.from as usize,
        is_shared: drawing.is_shared,
        width: drawing.width,
    }
}

/// The picture of these marks of a run of the program or of its code, which has these parts.
pub fn picture_of(
    alloc: Global,
    program: &Program,
    title: &[u8],
    look: Look,
    parts: Option<Parts>,
    marks: &[Mark],
    never: Option<NeverMark<'_>>,
) -> Result<Vec<u8>, NoMemory>
    ensures { IfOk result (λ out. out.items ≡ picture_of program.now title.now look parts marks.now (option_map broken_of never.entry)) }
{
    let registers = program.tree().registers.as_slice();
    let n = program.processes();
    picture(alloc, title, look, n, registers, parts, marks, never)
}

/// The mark of the line that is broken, one of so many.
pub fn never_mark(count: usize, broken: Option<BrokenLine<'_>>) -> Option<NeverMark<'_>>
    requires { IfSome broken (λ line. line.broken.line < count) }
    ensures { option_map broken_of result ≡ option_map (mark_of count) (option_map broken_at broken.entry) }
{
    match broken {
        None => None,
        Some(line) => Some(mark_of(count, line)),
    }
}

fn mark_of(count: usize, line: BrokenLine<'_>) -> NeverMark<'_>
    requires { line.broken.line < count }
    ensures { broken_of result ≡ mark_of count (broken_at line.entry) }
{
    let number = if count == 1 {
        None
    } else {
        Some(line.broken.line + 1)
    };
    NeverMark {
        steps: line.broken.steps,
        number,
        text: part_of(line.place.text, line.place.span),
        value: line.broken.value,
    }
}

/// What stands there in a text.
pub fn part_of(text: &[u8], span: Span) -> &[u8]
    ensures { result.now ≡ take (span.end - span.start) (drop span.start text.now) }
{
    let start = span.start.min(text.len());
    let rest = &text[start..];
    let letters = span.end.saturating_sub(span.start);
    &rest[..letters.min(rest.len())]
}
