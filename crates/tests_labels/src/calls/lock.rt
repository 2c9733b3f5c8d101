//! A lock that serves in order of tickets, on threads.
ghost use Rattle.std.specs.Prelude.{◌≡◌, ◌<◌, length};
ghost use Rattle.stamp_table.specs.Passes.{Holds};

use stamp_calls::{Caller, Order, clear, scan, stamp};
use stamp_table::{Pass, StampTable, open};
use std::sync::Wait;
use std::sync::atomic::AtomicU64;
use std::sync::atomic::Ordering::SeqCst;
use std::test::Fail;
use std::thread::{Threads, yield_now};
use tests_shared::{is_same, on_threads};

// Whether no process older than `p` holds a ticket.
fn is_first(order: &Order, p: u8) -> bool
    requires { p < length order.now }
{
    for other in 0..order.word().n() {
        if order.held(other) && order.older(other, p) {
            return false;
        }
    }
    true
}

// Process `p` comes: it takes a ticket, and waits until nobody older holds one.
fn enters<R: Wait>(rt: &R, table: &StampTable, caller: &mut Caller, p: u8)
    requires here { caller.old.pass.table ≡ table.now }
    requires process { caller.old.process ≡ p }
    ensures table { caller.new.pass.table ≡ caller.old.pass.table }
    ensures process { caller.new.process ≡ caller.old.process }
{
    stamp(rt, table, caller);
    for _ in rt.forever() {
        if is_first(&scan(table, caller), p) {
            return;
        }
        yield_now();
    }
}

// Process `p` counts so many times, each time under the lock.
fn counts<R: Wait>(rt: &R, table: &StampTable, pass: Pass, p: u8, times: u32, counter: &AtomicU64)
    requires here { pass.table ≡ table.now }
    requires held { Holds pass.held p }
{
    let mut caller = Caller::new(pass, p);
    for _ in 0..times {
        enters(rt, table, &mut caller, p);
        let count = counter.load(SeqCst);
        yield_now();
        counter.store(count.wrapping_add(1), SeqCst);
        clear(table, &mut caller);
    }
}

// Each of four threads counts so many times. A count that one has read is lost where another comes in between.
fn are_counted<R: AllocGlobal + Threads + Wait + Sync>(rt: &R, times: u32) -> Result<(), Fail> {
    let (table, all) = open(rt.alloc(), 4, 0)?;
    let counter = AtomicU64::new(0);
    let (shared, counted) = (&table, &counter);
    let one = |pass: Pass, p: u8| -> ()
        requires { (pass.table ≡ shared.now) × Holds pass.held p }
    { counts(rt, shared, pass, p, times, counted) };
    on_threads(rt, rt.alloc(), shared, all, &one)?;
    is_same(&counter.load(SeqCst), &u64::from(times).wrapping_mul(4))
}

#[test]
fn four_come_and_go(rt: HostRuntime) -> Result<(), Fail> {
    are_counted(&rt, 1_000)
}
