// Words that stand in several hints.

pub const NOTHING_FOLLOWS: &str = "nothing may follow `end`";

pub const PROGRAM_BEGINS: &str = "a program begins with `processes 2;`";

pub const COMMENT_SIGN: &str = "a comment begins with `#`";

pub const BLOCK_IN_BRACES: &str = "a block stands in braces";

pub const DECLARE_BEFORE: &str = "names are declared before `begin`";

pub const ASSIGNS: &str = "`=` assigns";

pub const IS_A_KEYWORD: &str = "` is a keyword";

pub const CHOOSE_ANOTHER: &str = ": choose another name";

pub const SCAN_FIRST: &str = "tickets are looked at in a scan: `s = scan;`";

pub const LOOK_AT_SCAN: &str = "a scan is looked at by `x = older s 0 1;` and `x = held s 0;`";

pub const GET_AND_PUT: &str = "`get` reads a register, and `put` writes one";

pub const NO_LABELS: &str = "there are no labels: `while` and `if` say where a process goes on";

pub const COUNTED_FROM_ZERO: &str = "processes are counted from 0";
