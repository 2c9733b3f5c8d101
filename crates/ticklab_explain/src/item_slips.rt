// Common slips with items of a schedule.

use crate::advice::COUNTED_FROM_ZERO;
use crate::condition::Fact::Clears;
use crate::rule::{Rule, rules};

pub static ITEM_SLIPS: &[Rule] = rules![
    [ItemHas(b'(')] [ItemHas(b')')] => ("there are no groups: write each item out");
    [ItemHas(b',')] [ItemHas(b';')] => ("items are separated by blanks");
    [ItemBegins(b'#')] => ("no comments stand between items");
    [ItemBegins(b'-')] => (COUNTED_FROM_ZERO);
    [ItemBegins(b'c'), Is(Clears)] => ("`c` stands before digits: `c0` takes the label of process 0 away");
    [ItemBegins(b'c')] => ("items `cP`, which take labels away, are of `ticketc order` and `ticklab labels` alone");
    [ItemBegins(b'*')] [ItemEnds(b'*')] => ("no blank stands beside `*`: `0*5` is five steps of process 0");
    [ItemEndsWith(b'*', b'0')] => ("K is at least 1");
    [ItemHas(b'x')] => ("`0*5` is five steps of process 0");
    [] => ("P and K are written in digits `0` to `9`");
];
