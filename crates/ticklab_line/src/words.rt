//! Words and options that more than one command takes.
use crate::described::Word;
use clap::builder::ValueParser;

/// A file that is a program.
pub const PROGRAM: Word = Word::One("file", "FILE", "The program; - for standard input");

/// How many states a search may have.
pub const LIMIT: Word = Word::Number(
    "limit",
    "STATES",
    ValueParser::Signed(0, 4_294_967_295),
    "Gives up if there are more states than this [default: 4294967295]",
);

/// How much memory the states may take.
pub const MEMORY: Word = Word::Number(
    "memory",
    "MB",
    ValueParser::Signed(1, 1_000_000),
    "Gives up if the states take more memory than this, 1 to 1000000 megabytes [default: 1000]",
);

/// What must never hold in a search.
pub const NEVER: Word = Word::Repeated(
    "never",
    "EXPR",
    "Also asks that EXPR holds in no state, as a line #! never EXPR of the program does; it may be given again",
);

/// Of a command whose answer may have a schedule.
pub const SCHEDULE_ONLY: Word = Word::Flag(
    "schedule-only",
    "Prints only the schedule, or nothing if there is none",
);

/// Of a command that can answer as JSON.
pub const JSON: Word = Word::Flag("json", "Prints the answer as JSON");
