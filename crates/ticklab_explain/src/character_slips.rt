// Common slips with characters that begin no token.

use crate::advice::{ASSIGNS, BLOCK_IN_BRACES, NO_LABELS, NOTHING_FOLLOWS, PROGRAM_BEGINS};
use crate::condition::Fact::{BeforeEquals, Begun};
use crate::rule::{Rule, rules};

pub static CHARACTER_SLIPS: &[Rule] = rules![
    // signs between two operands, and before one
    [About(">"), Before(1, "<")] [About("≠")] => ("write `!=`");
    [About(">"), Is(BeforeEquals)] => ("there is no `>=`: write `(" [Right("y")] " <= " [Left("x")] ")`");
    [About(">")] => ("there is no `>`: write `(" [Right("y")] " < " [Left("x")] ")`");
    [About("≥")] => ("there is no `≥`: write `(" [Right("y")] " <= " [Left("x")] ")`");
    [About("&")] => ("there is no `&&`: of values that are 0 or 1 write `(" [Left("x")] " * " [Right("y")] ")`");
    [About("|")]
        => ("there is no `||`: of values that are 0 or 1 write `((" [Left("x")] " + " [Right("y")] ") != 0)`");
    [About("!")] => ("there is no `!`: write `(" [Right("x")] " == 0)`");
    // a number in brackets after a name, a colon, and a point
    [About("["), Not(Begun), NameBefore(1)]
        => ("there are no arrays: `reg " [Before(1)] ";` has a number for each process");
    [About("["), Before(2, "put"), NameBefore(1)]
    [About("["), Before(2, ";", "begin", "{", "}"), NameBefore(1)]
        => ("a process writes its own register only: `put " [Before(1)] "`, and then the value");
    [About("["), Before(2, "get"), NameBefore(1)]
        => ("a register is read without brackets: `get " [Before(1)] " " [Right("me")] "`");
    [About("[")] => ("a register is read by a statement of its own: `x = get " [Left("r")] " " [Right("me")] ";`");
    [About(":"), Is(BeforeEquals)] => (ASSIGNS);
    [About(":"), Before(1, "processes")] => (PROGRAM_BEGINS);
    [About(":"), Is(Begun), Before(2, ";", "begin", "{", "}"), NameBefore(1)] => (NO_LABELS);
    [About(":"), Not(Begun)] => ("names have no types");
    [About(":")] => (BLOCK_IN_BRACES);
    [About("."), Before(1, "end")] => (NOTHING_FOLLOWS);
    [About("."), Before(4, "for"), NameBefore(3)]
        => ("there is no `for`: write `" [Before(3)] " = 0; while (" [Before(3)] " < n) { " [Before(3)] " = (" [Before(3)] " + 1); }`");
    [About(".")] => ("there are neither fractions nor ranges: `.` stands in comments alone");
    // other signs, and the begin of other texts
    [About("\"", "'", "“", "”", "‘", "’")] => ("there are no strings: `out` gives a number out");
    [About("?")] => ("there is no `? :`: write `if x { y = 1; } else { y = 2; }`");
    [About("^")] => ("there is no `^`: of values that are 0 or 1 write `(" [Left("x")] " != " [Right("y")] ")`");
    [About("\u{a0}")] => ("this is a no-break space: write a blank");
    [About("≤")] => ("write `<=`");
    [About("×", "·")] => ("write `*`");
    [About("÷")] => ("write `/`");
    [About("−", "–")] => ("write `-`");
    [About("\u{feff}")] => ("this is a byte-order mark: save the text as UTF-8 without one");
    [TextBegins(0xff, 0xfe)] [TextBegins(0xfe, 0xff)] => ("the text is UTF-16: save it as UTF-8");
];
