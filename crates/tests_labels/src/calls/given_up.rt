//! What one caller does, another sees at once. A contract says that only of passes that have met.
ghost use Rattle.std.specs.Prelude.{◌≡◌, ◌<◌, length};

use stamp_calls::{Caller, Order, Tried, clear, read, stamp, try_stamp, write};
use stamp_table::{StampTable, open};
use std::sync::Wait;
use std::test::Fail;
use tests_shared::is_same;

// Who holds a ticket, and the ranks, of two processes.
fn told(order: &Order) -> ([bool; 2], [u8; 2])
    requires { length order.now ≡ 2 }
{
    (
        [order.held(0), order.held(1)],
        [order.rank(0), order.rank(1)],
    )
}

// Two callers have their tickets, and the first gives its own up: a try with the order before that is
// lost, and the next ticket is the greatest. The words after the first stamp and after the ticket is given
// up; who holds a ticket and the ranks before, then, and after the last stamp; whether the try is lost, and
// to give up nothing tells what stands; and a register of the first, read by the second.
fn gives_up<R: Wait>(
    rt: &R,
    table: &StampTable,
    mut zero: Caller,
    mut one: Caller,
) -> ([u64; 2], [([bool; 2], [u8; 2]); 3], [bool; 2], u32)
    requires two { table.now.n ≡ 2 }
    requires row { table.now.rows ≡ 1 }
    requires zero { zero.pass.table ≡ table.now }
    requires one { one.pass.table ≡ table.now }
{
    let alone = stamp(rt, table, &mut zero);
    let both = stamp(rt, table, &mut one);
    let left = clear(table, &mut zero);
    let lost = try_stamp(table, &mut zero, both);
    let again = clear(table, &mut zero);
    let newest = stamp(rt, table, &mut zero);
    write(table, &mut zero, 0, 7);
    let read = read(table, &mut one, 0, 0);
    (
        [alone.word().bits(), left.word().bits()],
        [told(&both), told(&left), told(&newest)],
        [lost == Tried::Lost(left), again == left],
        read,
    )
}

const GIVEN_UP: ([u64; 2], [([bool; 2], [u8; 2]); 3], [bool; 2], u32) = (
    [281_474_976_710_656, 562_949_953_421_568],
    [
        ([true, true], [0, 1]),
        ([false, true], [0, 1]),
        ([true, true], [1, 0]),
    ],
    [true, true],
    7,
);

#[test]
fn a_ticket_given_up(rt: HostRuntime) -> Result<(), Fail> {
    let (table, pass) = open(rt.alloc(), 2, 1)?;
    let (zero, one) = table.split(pass, 1);
    let zero = Caller::new(zero, 0);
    let one = Caller::new(one, 1);
    is_same(&gives_up(&rt, &table, zero, one), &GIVEN_UP)
}
