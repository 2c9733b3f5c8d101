// Common slips at a token where no program goes on, known by the tokens around the place. The first that fits counts,
// of all five tables in their order. (There are five, since a proof over a table takes time with the square of its rows.)

use crate::advice::{
    ASSIGNS, BLOCK_IN_BRACES, CHOOSE_ANOTHER, COMMENT_SIGN, DECLARE_BEFORE, IS_A_KEYWORD,
    NO_LABELS, NOTHING_FOLLOWS, PROGRAM_BEGINS, SCAN_FIRST,
};
use crate::condition::Fact::{
    AtEnd, AtStart, Begun, Doubled, Empty, InBraces, Keyword, Name, Touches,
};
use crate::part::Part::{Bracket, OperandAfter, OperandBefore, ToSemicolon};
use crate::rule::{Rule, rules};

const OPERATORS: &[&str] = &["+", "-", "*", "/", "%", "<", "<=", "==", "!="];

// Words of other languages that give a value out, and that declare a name.
const PRINTING: &[&str] = &["print", "println", "printf", "write", "output"];

const DECLARING: &[&str] = &["let", "int", "bool", "local", "auto"];

// Keywords in capital letters.
const CAPITALS: &[&str] = &[
    "If", "IF", "Else", "ELSE", "While", "WHILE", "Put", "PUT", "Stamp", "STAMP", "Clear", "CLEAR",
    "Out", "OUT", "End", "END",
];

// Slips that show in the text as a whole, in blocks, and in words.
pub static WHOLE_SLIPS: &[Rule] = rules![
    // the text as a whole
    [Is(Empty)] => ("the text is empty: a program begins with `processes 2;`");
    [Is(AtStart), Here("tickcode")]
        => ("this is the text of a code, which `ticketc code` and `ticketc run` take; a program is wanted here");
    [Before(1, "end")] => (NOTHING_FOLLOWS);
    [Is(AtEnd), Wants("end", "=")] [Here("}"), Not(InBraces), Wants("end"), After(1, "")]
        => ("a program ends with `end`");
    // `else`, and braces
    [Here("if"), Before(1, "else"), Has(OperandAfter(1))]
    [Here("elif", "elseif", "elsif"), Wants("else"), Has(OperandAfter(1))]
        => ("there is no `else if`: write `else { if " [Tokens(OperandAfter(1))] " {`, and close both");
    [Here("if"), Before(1, "else")] => ("there is no `else if`: write `else { if .. }`");
    [Here("else"), Wants("stamp"), Not(InBraces)] => ("`else` stands after the block of an `if`");
    [Is(InBraces), Is(AtEnd), Wants("}")] [Is(InBraces), Here("end", "else"), Wants("}")]
        => ("this `{` is not closed", OpenBrace);
    [Here("}"), Not(InBraces), Wants("stamp", "else")] => ("this `}` closes nothing");
    [Here("{"), Wants("stamp")] => ("a block stands after the test of an `if` or a `while`, and after `else`");
    [Wants("else")] => ("every `if` has an `else`: write `else { }`");
    // words that other languages have
    [Before(1, "not")] => ("there is no `not`: write `(" [Here] " == 0)`");
    [Before(1, "await"), Here("("), Has(OperandAfter(0))]
        => ("there is no `await`: wait in a loop, `while (" [Tokens(OperandAfter(0))] " == 0) { x = get r e; }`");
    [Before(1, "await"), Is(Name), After(1, "=="), After(3, ";")]
        => ("there is no `await`: wait in a loop, `while (" [Here] " != " [After(2)] ") { " [Here] " = get r e; }`");
    [Before(1, "await"), Is(Name)]
        => ("there is no `await`: wait in a loop, `while (" [Here] " == 0) { " [Here] " = get r e; }`");
    [Before(1, "await")] => ("there is no `await`: wait in a loop, `while (x == 0) { x = get r e; }`");
    [Before(1, "and")] [Here("and")] => ("there is no `and`: of values that are 0 or 1 write `(x * y)`");
    [Here("const")] => ("there are no constants: write the number where it is used");
    [Here("or")] => ("there is no `or`: of values that are 0 or 1 write `((x + y) != 0)`");
    [Here("mod")] => ("`%` is the remainder");
    // blocks without braces
    [Here("then", "do"), Wants("{")] => ("there is no `" [Here] "`: a block begins with `{`");
    [Wants("{"), Is(Name), After(1, "="), Has(ToSemicolon)]
    [Wants("{"), Here("put", "stamp", "clear", "out"), Has(ToSemicolon)]
        => ("a block stands in braces: `{ " [Tokens(ToSemicolon)] " }`");
    [Wants("{"), Is(Name)] [Wants("{"), Is(Keyword)] => (BLOCK_IN_BRACES);
    [Wants("{"), Here(";")] => ("a block stands after the test: write `{ }` in place of `;`");
];

// Slips in calls, and operands that lack.
pub static CALL_SLIPS: &[Rule] = rules![
    // brackets and commas of a call
    [Here("("), Before(1, "stamp", "clear")] => ("`" [Before(1)] "` takes nothing: write `" [Before(1)] ";`");
    [Here("("), Before(1, "scan"), Before(2, "=")] [Is(Name), Before(1, "scan"), Before(2, "="), After(1, ";")]
        => ("`scan` takes nothing: write `" [Before(3)] " = scan;`");
    [Here("("), Wants(";"), NameBefore(1)] => ("`" [Before(1)] "` can't be called: there are no functions");
    [Here(","), Wants("me")] => ("operands stand side by side, without commas");
    [Here("("), Before(1, "get", "held", "put"), After(2, ","), After(4, ")")]
        => ("operands stand without brackets and commas: `" [Before(1)] " " [After(1)] " " [After(3)] "`");
    [Here("("), Before(1, "older"), After(2, ","), After(4, ","), After(6, ")")]
        => ("operands stand without brackets and commas: `" [Before(1)] " " [After(1)] " " [After(3)] " " [After(5)] "`");
    [Here("("), Before(1, "get", "held", "older", "copy", "put")]
        => ("operands stand without brackets and commas: `" [StatementBefore] "`");
    // an operand that lacks
    [Here(";"), Wants("get"), Before(1, "="), NameBefore(2)]
        => ("a value is missing: write `" [Before(2)] " = 0;`");
    [Here(";"), Wants("me"), Before(2, "held")]
        => ("`held " [Before(1)] "` wants the process that is asked about: `held " [Before(1)] " me`");
    [Here(";"), Wants("me"), Before(2, "older")]
        => ("`older " [Before(1)] "` wants two processes: `older " [Before(1)] " 0 me`");
    [Here(";"), Wants("me"), Before(3, "older")]
        => ("`older " [Before(2)] " " [Before(1)] "` wants a second process: `older " [Before(2)] " " [Before(1)] " me`");
    [Here(";"), Wants("me"), Before(2, "put")]
        => ("`put " [Before(1)] "` wants the value that is written: `put " [Before(1)] " 1`");
    [Wants("x"), Before(1, "older")] => ("`older` wants a scan first: `older s 0 1`");
    [Wants("x"), Before(1, "held")] => ("`held` wants a scan first: `held s 0`");
    // `put`
    [Here("="), Wants("me"), Before(2, "put"), Has(OperandAfter(1))]
        => ("`put` has no `=`: write `put " [Before(1)] " " [Tokens(OperandAfter(1))] "`");
    [Wants("x"), Before(1, "put"), Has(OperandAfter(0)), NameAfter(1)]
        => ("`put` wants the register first: `put " [After(1)] " " [Tokens(OperandAfter(0))] "`");
    [Wants(";"), Before(3, "put"), Has(OperandAfter(0)), NotAfter(1, "=")]
        => ("a process writes its own register only: `put " [Before(2)] " " [Tokens(OperandAfter(0))] ";`");
];

// Slips with keywords, names and sections.
pub static SECTION_SLIPS: &[Rule] = rules![
    // words that are no keywords
    [Before(1, in CAPITALS), Wants("=")] => ("keywords are written in small letters");
    [Before(1, "process", "thread"), Wants("=")]
        => ("all processes run the same statements: write `if (me == 0) { .. } else { .. }`");
    [Before(1, "skip", "pass", "nop"), Wants("=")] => ("there is no `" [Before(1)] "`: leave it out");
    [Before(1, "until", "repeat", "loop", "do"), Wants("=")]
        => ("there is no `" [Before(1)] "`: a loop is `while (x == 0) { .. }`");
    [Before(1, "goto"), Wants("=")] => (NO_LABELS);
    [Before(1, "fn", "def", "function", "void"), Wants("=")]
        => ("there are no functions: write the statements where they are wanted");
    // keywords at places of names and values
    [Is(Keyword), Wants("x")] => ("`" [Here] IS_A_KEYWORD [Meaning] CHOOSE_ANOTHER);
    [Here("stamp", "clear"), Wants("me", "get")] => ("`" [Here] "` gives no value: write `" [Here] ";`");
    [Here("older", "held", "get", "scan", "copy"), Wants("me")]
        => ("`" [Here] "` is a statement of its own: `" [Statement] "`");
    // names before `begin`, and sections
    [Wants(","), Is(Name)] => ("names are separated by `,`: `" [Before(1)] ", " [Here] "`");
    [Wants(","), Here("=")] => ("no name has a first value: all begin as 0");
    [Wants(","), Here("-")] => ("a name is made of letters, digits and `_`");
    [Wants("x"), Here(";"), Before(1, ",")] => ("no `,` stands after the last name");
    [Wants("x"), Not(Begun), Has(OperandAfter(0)), Not(Keyword)] => ("a name begins with a letter or `_`");
    [Wants("var"), Is(Name), NameAfter(1), After(2, ";")] => ("a variable is declared by `var " [After(1)] ";`");
    [Wants("begin"), Is(Name), NameAfter(1)] => ("names are declared by `var`, `scan` and `reg`");
    [Wants("processes", "0")] => (PROGRAM_BEGINS);
    // what the place wants first
    [Wants("me"), Before(2, "get")]
        => ("`get " [Before(1)] "` wants the process whose register is read: `get " [Before(1)] " me`");
    [Wants("begin"), Here("var", "scan", "reg")]
        => ("`var` comes before `scan`, and `scan` before `reg`, each once at most");
    [Wants("begin")] => ("the statements stand between `begin` and `end`");
];

// Slips in operands and signs.
pub static SIGN_SLIPS: &[Rule] = rules![
    [Here("<"), Before(1, "<"), Is(Touches)] [Here("<"), After(1, "<")]
        => ("there is no `<<`: multiply, as in `(x * 4)`");
    // equals signs and operators
    [Here("/"), After(1, "/")] [Here("/"), After(1, "*")] [Here("/", "*"), Before(1, "/"), Is(Touches)]
        => (COMMENT_SIGN);
    [Here("=="), Wants("=")] => ("one `=` assigns; `==` compares");
    [Here("="), Wants("+")] => ("`==` compares; one `=` assigns");
    [Here("+", "-", "*", "/", "%"), Wants("="), After(1, "="), Has(OperandAfter(2))]
        => ("write `" [Before(1)] " = (" [Before(1)] " " [Here] " " [Tokens(OperandAfter(2))] ");`");
    [Here("-"), Wants("get", "me")] => ("there are no negative numbers: they are 0 to 4294967295");
    // an operation without brackets of its own
    [Here(in OPERATORS), Wants(")"), Has(Bracket), Has(OperandAfter(1))]
        => ("one operator in a pair of brackets: `(" [Tokens(Bracket)] ") " [Here] " " [Tokens(OperandAfter(1))] ")`");
    [Here(in OPERATORS), Wants(")")] => ("one operator in a pair of brackets");
    [Here(in OPERATORS), Wants(";", "{"), Is(Begun), NotBefore(2, "copy"), Has(OperandBefore), Has(OperandAfter(1))]
        => ("an operation has brackets of its own: `(" [Tokens(OperandBefore)] " " [Here] " " [Tokens(OperandAfter(1))] ")`");
    [Here(in OPERATORS), Wants(";", "{"), Is(Begun), Has(OperandBefore)] => ("an operation has brackets of its own");
    [Here(";"), Wants(")"), Has(Bracket)] => ("a `)` is missing: `" [Tokens(Bracket)] ")`");
    // brackets without an operation
    [Here(")"), Wants("me"), Before(1, "(")] [Here(")"), Wants("me"), Before(1, in OPERATORS)]
        => ("brackets hold an operation of two values: `(x + 1)`");
    [Here(")"), Wants("+"), Before(2, "("), Before(3, "=")]
        => ("brackets hold an operation: write `" [Before(4)] " = " [Before(1)] "`");
    [Here(")"), Wants("+"), Before(2, "("), Before(3, "(", "+", "-", "*", "/", "%", "<", "<=", "==", "!=")]
        => ("brackets hold an operation: write `" [Before(1)] "`");
    [Here(")"), Wants("+"), Before(2, "(")]
        => ("brackets hold an operation: write `" [Before(3)] " " [Before(1)] "`");
    [Here(")"), Wants("+"), Has(OperandBefore)] => ("one pair of brackets is enough: `" [Tokens(OperandBefore)] "`");
    // an equals sign too many
    [Here("="), Wants("{"), Has(OperandBefore), Has(OperandAfter(1))]
        => ("`==` compares, in brackets of its own: `(" [Tokens(OperandBefore)] " == " [Tokens(OperandAfter(1))] ")`");
    [Here("="), Wants(";"), Before(2, "="), NameBefore(1), Has(OperandAfter(1)), After(2, ";")]
        => ("one `=` in a statement: `" [Before(1)] " = " [After(1)] "; " [Before(3)] " = " [Before(1)] ";`");
    [Here("="), Wants(";"), Before(2, "=")] => ("a statement has one `=`");
    // other signs
    [Here(";"), Wants("stamp"), Before(1, "}")] => ("no `;` stands after `}`");
    [Here(";"), Wants("stamp")] => ("there is no empty statement");
    [Here(";"), Wants("x"), Not(Begun)] => ("a section without names is left out");
    [Here(","), Wants(";")] => ("write `;` in place of `,`");
];

// Slips where a statement begins or ends.
pub static STATEMENT_SLIPS: &[Rule] = rules![
    // words of other languages at the begin of a statement
    [Before(1, "for"), Wants("="), Is(Name)]
        => ("there is no `for`: write `" [Here] " = 0; while (" [Here] " < n) { " [Here] " = (" [Here] " + 1); }`");
    [Before(1, "for"), Wants("="), Here("("), NameAfter(1)]
        => ("there is no `for`: write `" [After(1)] " = 0; while (" [After(1)] " < n) { " [After(1)] " = (" [After(1)] " + 1); }`");
    [Before(1, "for"), Wants("=")] => ("there is no `for`: write `i = 0; while (i < n) { i = (i + 1); }`");
    [Before(1, "assert", "require"), Wants("="), Has(OperandAfter(0))]
        => ("there is no `" [Before(1)] "`: write `x = (1 / " [Tokens(OperandAfter(0))] ");`, which traps if that is 0");
    [Before(1, in PRINTING), Wants("="), Has(OperandAfter(0)), Here("("), After(2, ")")]
        => ("there is no `" [Before(1)] "`: write `out " [After(1)] "`");
    [Before(1, in PRINTING), Wants("="), Has(OperandAfter(0))]
        => ("there is no `" [Before(1)] "`: write `out " [Tokens(OperandAfter(0))] "`");
    [Before(1, in DECLARING), Wants("="), Is(Name), After(1, "="), Has(ToSemicolon)]
        => ("names are declared before `begin`: write here `" [Tokens(ToSemicolon)] "`");
    [Before(1, in DECLARING), Wants("="), Is(Name)] => (DECLARE_BEFORE);
    [Before(1, "break", "continue"), Wants("=")]
        => ("a loop ends when its test is 0: let the test look at a variable");
    [Before(1, "return", "exit", "halt", "stop"), Wants("=")] => ("a process ends after its last statement");
    // `x++` and other signs
    [Here("+", "-"), Wants("="), Is(Doubled), After(2, ";")]
        => ("write `" [Before(1)] " = (" [Before(1)] " " [Here] " 1);`");
    [Here("+", "-"), Wants("stamp"), Is(Doubled), NameAfter(2), After(3, ";")]
        => ("write `" [After(2)] " = (" [After(2)] " " [Here] " 1);`");
    [Here("-"), Wants("stamp"), After(1, "-")] => (COMMENT_SIGN);
    [Here("<"), Wants("="), After(1, "-")] => (ASSIGNS);
    // what begins no statement
    [Is(Keyword), Wants("stamp"), After(1, "=")] => ("`" [Here] IS_A_KEYWORD [Meaning] CHOOSE_ANOTHER);
    [Here("="), Before(1, "put", "out", "if", "while")] => ("`" [Before(1)] "` is a keyword: choose another name");
    [Here("get", "held", "older"), Wants("stamp"), Has(ToSemicolon)]
        => ("`" [Here] "` gives a value: write `x = " [Tokens(ToSemicolon)] "`");
    [Here("copy"), Wants("stamp"), Has(ToSemicolon)]
        => ("`copy` gives a scan: write `t = " [Tokens(ToSemicolon)] "`");
    [Here("scan"), Wants("stamp"), NameAfter(1), After(2, ";")]
        => ("a scan goes to a name: write `" [After(1)] " = scan;`");
    [Here("scan"), Wants("stamp")] => (SCAN_FIRST);
    [Here("var", "reg"), Wants("stamp")] => (DECLARE_BEFORE);
    // a letter in a number, and a `;` that was left out
    [Wants(";"), Is(Name), Is(Touches), NotBefore(1, ")")] => ("numbers are written in digits `0` to `9`");
    [Wants(";"), Is(AtEnd)] [Wants(";"), Is(Name)] [Wants(";"), Is(Keyword)] [Wants(";"), Here("}")]
        => ("a `;` is missing after `" [Before(1)] "`", EndBefore);
    // any other word where a statement begins
    [Here(";"), Wants("="), NameBefore(1)]
        => ("`" [Before(1)] "` is no statement: those of one word are `stamp;` and `clear;`");
    [Wants("=")]
        => ("a statement begins with a name and `=`, or with `put`, `stamp`, `clear`, `out`, `if` or `while`");
];
