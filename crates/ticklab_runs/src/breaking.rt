//! Which line that must never hold is broken in a state of a program's run.
ghost use Rattle.std.specs.Prelude.{◌≡◌, IfNone, IfSome, Some, false, length};
ghost use Rattle.language_properties.specs.Properties.{formula_of};
ghost use Rattle.searches_explore.specs.Lines.{IsFirstBroken, breaks, is_broken, line_value, lines_of};

use crate::seen::VisibleState;
use base::Trap;
use language_questions::Property;
use tick_kinds::Program;
use tick_source::SourceMachine;
use ticklab_files::PropertyPlace;

/// A line that is broken after so many steps of a run, by its number from 0, and what it comes to.
#[derive(Clone, Copy)]
pub struct Break {
    pub steps: usize,
    pub line: usize,
    pub value: Result<u32, Trap>,
}

/// The same of a line that stands here.
#[derive(Clone, Copy)]
pub struct BrokenLine<'l> {
    pub place: PropertyPlace<'l>,
    pub broken: Break,
}

/// The break that was found before, or else that of the first line that is broken in this state, after so many steps.
pub fn broken_by(
    broken: Option<Break>,
    steps: usize,
    program: &Program,
    machine: &SourceMachine<'_>,
    lines: &[Property],
) -> Option<Break>
    requires processes { length machine.now.processes ≡ program.now.processes }
    requires rows { length machine.now.rows ≡ length program.now.registers }
    ensures found { IfSome broken (λ b. result ≡ Some b) }
    ensures broken { IfNone broken (IfSome result (λ b. (b.steps ≡ steps) × IsFirstBroken (lines_of lines.now) machine.now b.line b.value)) }
    ensures none { IfNone broken (IfNone result (breaks (lines_of lines.now) machine.now ≡ false)) }
{
    match broken {
        Some(found) => Some(found),
        None => first_broken(steps, program, machine, lines),
    }
}

// That of the first line that is broken in the state of a machine of the program.
fn first_broken(
    steps: usize,
    program: &Program,
    machine: &SourceMachine<'_>,
    lines: &[Property],
) -> Option<Break>
    requires processes { length machine.now.processes ≡ program.now.processes }
    requires rows { length machine.now.rows ≡ length program.now.registers }
    ensures broken { IfSome result (λ b. (b.steps ≡ steps) × IsFirstBroken (lines_of lines.now) machine.now b.line b.value) }
    ensures none { IfNone result (breaks (lines_of lines.now) machine.now ≡ false) }
{
    let seen = VisibleState {
        machine,
        processes: program.processes(),
        rows: program.registers(),
    };
    for line in 0..lines.len() {
        let value = value_in(&seen, &lines[line]);
        if is_broken(value) {
            return Some(Break { steps, line, value });
        }
    }
    None
}

fn value_in(seen: &VisibleState<'_, '_>, line: &Property) -> Result<u32, Trap>
    ensures { result ≡ line_value seen.now.machine.now (formula_of line.now) }
{
    line.value(seen)
}

// Whether a line that comes to this is broken.
fn is_broken(value: Result<u32, Trap>) -> bool
    ensures { result ≡ is_broken value }
{
    match value {
        Ok(value) => value != 0,
        Err(_) => true,
    }
}
