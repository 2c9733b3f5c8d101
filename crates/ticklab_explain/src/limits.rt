// Hints that a refusal always has.

use crate::condition::Fact::Clears;
use crate::rule::{Rule, rules};

pub static NUMBER_TOO_BIG: &[Rule] = rules![
    [] => ("the greatest number is 4294967295");
];

pub static NAME_TOO_LONG: &[Rule] = rules![
    [] => ("a name has at most 64 bytes");
];

pub static TOO_DEEP: &[Rule] = rules![
    [] => ("at most 64 are: give a part its own statement");
];

pub static PROCESSES: &[Rule] = rules![
    [] => ("a program has 1 to 6 processes");
];

pub static TOO_MANY_NAMES: &[Rule] = rules![
    [] => ("there are at most 64 variables, 16 scans and 8 registers");
];

pub static BAD_FIRST_LINE: &[Rule] = rules![
    [] => ("it is `tickcode 2 P V S R`, with the numbers of processes, variables, scans and registers");
];

pub static BAD_LINE: &[Rule] = rules![
    [] => ("it is a name, and numbers after one space each, as `Push 5`; the last line ends too");
];

pub static NO_SUCH_PROCESS: &[Rule] = rules![
    [] => ("processes are counted from 0, and there are " [ProcessCount] "");
];

pub static SCHEDULE_TOO_LONG: &[Rule] = rules![
    [Is(Clears)] => ("at most 10000000 stamps and clears are read");
    [] => ("a schedule has at most 10000000 steps");
];
