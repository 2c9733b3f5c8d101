// Common slips with names, by what is wrong: twice declared, unknown, or of a kind where another is wanted.

use crate::advice::{GET_AND_PUT, LOOK_AT_SCAN, SCAN_FIRST};
use crate::condition::Fact::Declared;
use crate::part::Part::OperandAfter;
use crate::rule::{Rule, rules};

pub static TWICE: &[Rule] = rules![
    [Is(Declared)] => ("`" [About] "` was declared here first", FirstDeclaration);
];

pub static UNKNOWN: &[Rule] = rules![
    [About("true")] => ("there is no `true`: write 1");
    [About("false")] => ("there is no `false`: write 0");
    [About("self", "pid", "tid", "id", "Me", "ME", "this")] => ("the number of the process that steps is `me`");
    [About("N")] => ("the number of processes is `n`");
    [] => ("declared are" [DeclaredNames] "");
];

pub static REGISTER_FOR_VARIABLE: &[Rule] = rules![
    [After(1, "=")] => ("a register is written by `put " [About] " " [After(2)] ";`");
    [] => ("read it first: `x = get " [About] " me;`");
];

pub static SCAN_FOR_VARIABLE: &[Rule] = rules![
    [After(1, "=")] => ("a scan is assigned by `" [About] " = scan;`");
    [] => (LOOK_AT_SCAN);
];

pub static VARIABLE_FOR_VARIABLE: &[Rule] = rules![
    [] => (LOOK_AT_SCAN);
];

pub static ANY_FOR_SCAN: &[Rule] = rules![
    [After(1, "=")] => ("`scan` and `copy` give to a name that `scan` declares");
    [] => (SCAN_FIRST);
];

pub static VARIABLE_FOR_REGISTER: &[Rule] = rules![
    [Before(1, "put"), Has(OperandAfter(1))]
        => ("a variable is written by `" [About] " = " [Tokens(OperandAfter(1))] ";`");
    [Before(1, "get"), Before(2, "=")] => ("a variable is read by its name: `" [Before(3)] " = " [About] ";`");
    [] => (GET_AND_PUT);
];

pub static OTHER_FOR_REGISTER: &[Rule] = rules![
    [] => (GET_AND_PUT);
];
