// Common slips in questions, by the letters at the place of the fault. The first row that has them counts, and the hint
// behind a table where none has. At the end of a question stand no letters. (There is a table for each fault and for each
// that is missing, since a proof over a table takes time with the square of its rows.)

/// A row: letters, and the hint where they stand.
pub type Slip = (&'static [&'static str], &'static str);

// What stands between two values.
const OPERATORS: &[&str] = &["+", "-", "*", "/", "%", "<", "<=", "==", "!=", "and", "or"];

// What is told where an operation of two values goes on.
const BRACKETS_OF_ITS_OWN: &str =
    "an operation in another has brackets of its own, as in `1 < (sum p: row[p])`";

// What is written where `wait_free` is meant. Of `wait-free` this is what stands in front of the `-`.
const WAIT_FREE_MISSPELT: &[&str] = &[
    "wait",
    "Wait",
    "waitfree",
    "waitFree",
    "Waitfree",
    "WaitFree",
    "wait_Free",
    "Wait_free",
    "Wait_Free",
    "WAIT_FREE",
];

const WRITE_WAIT_FREE: &str = "`wait_free` is written with `_`, and in small letters";

// Other words for `alone`. Of `obstruction-free` this is what stands in front of the `-`.
const ALONE_MEANT: &[&str] = &[
    "Alone",
    "ALONE",
    "solo",
    "obstruction",
    "obstructionfree",
    "obstructionFree",
    "obstruction_free",
];

const WRITE_ALONE: &str =
    "`alone` asks whether each ends once it steps alone, as in `#! ends all alone`";

// What a line without a word asks.
const FAIR_MEANT: &[&str] = &["fair", "fairly", "Fair"];

const WRITE_NO_WORD: &str = "leave this word out: a line without a word asks about fair schedules";

// At a character that no question has.
pub static CHARACTERS: &[Slip] = &[
    (
        &[">", "≥"],
        "there is no `>`: write `1 < row[0]`, and for `>=` write `1 <= row[0]`",
    ),
    (&["="], "one `=` is nothing here: `==` compares"),
    (&["≤"], "write `<=`"),
    (&["≠"], "write `!=`"),
    (&["&", "∧"], "write `and`"),
    (&["|", "∨"], "write `or`"),
    (&["!", "~", "¬"], "write `not`"),
    (&[";"], "a question ends without a `;`"),
    (
        &["{", "}"],
        "brackets are `(` and `)`, and `[` and `]` around an index",
    ),
    (
        &["\"", "'"],
        "there are no strings: a name stands by itself",
    ),
    (&["."], "there are no fractions, ranges or fields"),
    (
        &["?"],
        "there is no `? :`: a comparison gives 1 where it holds, else 0",
    ),
];

pub const PARTS_OF_QUESTIONS: &str =
    "a question has names, numbers, brackets, and the operators of the language";

// Where a value is missing.
pub static OPERANDS: &[Slip] = &[
    (
        &[""],
        "the question ends too early: a property is written as in `1 < (sum p: row[p])`",
    ),
    (
        &["-"],
        "there are no negative numbers: they are 0 to 4294967295",
    ),
    (
        OPERATORS,
        "this stands between two values, as in `row[0] < 2`",
    ),
    (
        &["some", "all", "sum", "not"],
        "in an operation this has brackets of its own, as in `1 < (sum p: row[p])`",
    ),
    (&[")"], "a property stands between `(` and `)`"),
    (
        &["]"],
        "a process stands between `[` and `]`, as in `row[0]`",
    ),
    (&["["], "a name stands in front of `[`, as in `row[0]`"),
];

pub const OPERAND_STANDS_HERE: &str =
    "a value stands here: a number, `row[0]`, or a property in brackets";

// Where the name of a quantifier is missing.
pub static NAMES: &[Slip] = &[
    (
        &["("],
        "no bracket stands behind `some`, `all` and `sum`: `sum p: row[p]`",
    ),
    (
        &[
            "n", "not", "and", "or", "some", "all", "sum", "held", "older", "ended", "trapped",
        ],
        "this is a word of questions: choose another name, as in `some p: row[p]`",
    ),
];

pub const NAME_STANDS_HERE: &str =
    "a name of its own stands behind `some`, `all` and `sum`: `some p: row[p]`";

// Where an index is missing.
pub static INDEXES: &[Slip] = &[(&["("], "an index stands in `[` and `]`: `row[0]`")];

pub const INDEX_STANDS_HERE: &str =
    "a process in brackets stands here, as in `row[0]`, `held[p]` and `older[0, 1]`";

// Where a `)` is missing.
pub static CLOSINGS: &[Slip] = &[
    (&[""], "a `)` is missing"),
    (OPERATORS, BRACKETS_OF_ITS_OWN),
    (&[","], "`older[0, 1]` alone has a comma"),
];

pub const CLOSING_STANDS_HERE: &str = "a `)` is missing in front of this, or an operator";

// Where a `]` is missing.
pub static INDEX_ENDS: &[Slip] = &[
    (&[""], "a `]` is missing"),
    (OPERATORS, BRACKETS_OF_ITS_OWN),
    (
        &[","],
        "one process stands in an index, as in `row[0]`, and two in `older[0, 1]`",
    ),
];

pub const INDEX_END_STANDS_HERE: &str = "a `]` is missing in front of this, or an operator";

// Where a comma is missing.
pub static COMMAS: &[Slip] = &[(OPERATORS, BRACKETS_OF_ITS_OWN)];

pub const COMMA_STANDS_HERE: &str =
    "two processes stand in `older[0, 1]`, with a comma between them";

// Where a colon is missing.
pub static COLONS: &[Slip] = &[
    (
        &[","],
        "each name has a quantifier of its own: `some p: some q: older[p, q]`",
    ),
    (
        &["in"],
        "a quantifier goes over all processes: `some p: row[p]`",
    ),
];

pub const COLON_STANDS_HERE: &str = "a `:` stands behind the name, as in `some p: row[p]`";

// Where a question may end.
pub static ENDS: &[Slip] = &[
    (OPERATORS, BRACKETS_OF_ITS_OWN),
    (&[")", "]"], "this closes no bracket"),
    (
        &["["],
        "an index stands only behind a register row, `held`, `older`, `ended` and `trapped`",
    ),
    (&[","], "`and` and `or` join two properties"),
];

pub const END_STANDS_HERE: &str =
    "nothing follows a property: an operator, `and` or `or` joins two";

// Where the number of a process is missing.
pub static PROCESSES: &[Slip] = &[
    (
        &[",", "and"],
        "numbers stand side by side, as in `#! ends 0 2`",
    ),
    (&["-"], "each number is written out: `#! ends 0 1 2`"),
    (
        &["wait_free", "alone"],
        "who is asked stands in front of this, as in `#! ends all wait_free`",
    ),
    (WAIT_FREE_MISSPELT, WRITE_WAIT_FREE),
    (ALONE_MEANT, WRITE_ALONE),
    (FAIR_MEANT, WRITE_NO_WORD),
];

pub const PROCESS_STANDS_HERE: &str =
    "behind `#! ends` stands `all`, `none`, or numbers of processes, and then perhaps `wait_free` or `alone`";

// Where what is asked of processes may stand.
pub static CONDITIONS: &[Slip] = &[
    (WAIT_FREE_MISSPELT, WRITE_WAIT_FREE),
    (ALONE_MEANT, WRITE_ALONE),
    (FAIR_MEANT, WRITE_NO_WORD),
    (
        &[",", "and"],
        "words stand side by side, as in `#! ends all wait_free`",
    ),
];

pub const CONDITION_STANDS_HERE: &str =
    "here stands `wait_free`, `alone`, or nothing but a comment, which begins with `#`";

// Where a line ends.
pub static LINE_ENDS: &[Slip] = &[(
    &["wait_free", "alone"],
    "`wait_free` and `alone` stand behind `#! ends ..`, one of them in a line",
)];

pub const LINE_ENDS_HERE: &str = "nothing stands here but a comment, which begins with `#`";

// At a name that nothing has.
pub static STRANGERS: &[Slip] = &[
    (
        &["me"],
        "no process asks: a quantifier names one, as in `some p: row[p]`",
    ),
    (
        &["forall", "each", "every"],
        "`all` asks it of each process: `all p: row[p]`",
    ),
    (
        &["exists", "any"],
        "`some` asks whether there is a process: `some p: row[p]`",
    ),
    (&["get"], "a register is read as `row[0]`"),
    (
        &["ticket", "scan", "stamp"],
        "`held[0]` asks for a ticket, and `older[0, 1]` compares two",
    ),
    (&["true", "false"], "`1` is true, and `0` is false"),
    (&["N"], "`n` is how many processes there are"),
    (
        &["Not", "NOT", "Some", "SOME", "All", "ALL", "Sum", "SUM"],
        "words are written in small letters",
    ),
];

pub const WHAT_IS_SEEN: &str =
    "a question sees register rows, and `held`, `older`, `ended` and `trapped`";

// At a word that begins no question.
pub static BEGINNINGS: &[Slip] = &[
    (
        &["always", "assert", "invariant"],
        "a line says what must never hold: `#! never not row[0]`",
    ),
    (
        &["wait_free", "alone"],
        "this stands behind those who are asked, as in `#! ends all wait_free`",
    ),
    (
        &["Never", "NEVER", "Ends", "ENDS", "Expect", "EXPECT"],
        "words are written in small letters",
    ),
];

pub const WORDS_OF_QUESTIONS: &str = "behind `#!` stands `never`, `ends` or `expect`";

// At a word that nothing is expected by.
pub static EXPECTATIONS: &[Slip] = &[
    (
        &["wait_free", "alone"],
        "`safe` stands where this is so; `not_wait_free` and `not_alone` say that it isn't",
    ),
    (
        &[
            "not",
            "Not",
            "not_wait",
            "not_waitfree",
            "notwaitfree",
            "notWaitFree",
            "notalone",
            "notAlone",
        ],
        "`not_wait_free` and `not_alone` are written with `_`, and in small letters",
    ),
];
