//! `stamp_calls` lets threads of a Rust program stamp, scan and clear, in place of a ticket counter.
//!
//! A ticket counter grows without bound. Here each of one to six processes has a label of a few digits, or
//! none. All labels stand in the one word of a `StampTable`. A `Caller` is a pass of such a table and one
//! process that the pass holds; each thread has its own caller. There are four calls:
//!
//! - `scan` gives the current `Order`. It is one load.
//! - `try_stamp` takes a new ticket if the order is still the one handed in, and gives the order just after;
//!   else it gives the order that it found. It is one exchange.
//! - `stamp` tries until it has its ticket, and gives the order just after. Only this call may wait.
//! - `clear` gives the ticket up, and gives the order just after. It is one `fetch_and`, and it never fails,
//!   whatever others do.
//!
//! An `Order` answers what the tickets would: `held(i)` whether process `i` holds a ticket, `older(i, j)`
//! whether the ticket of `i` is smaller than that of `j`, `rank(i)` how many tickets are smaller than that of
//! `i`. A process without a ticket has ticket 0, so it is older than each process that holds one. `read` and
//! `write` are for the registers of a table that has some. No call takes memory. Start with `Caller`.
//!
//! # What is promised
//!
//! All steps on a table form one growing history, and a caller has seen a beginning of it. Each call adds its
//! own steps; the caller has then seen the history up to them (`GoesOn`, `own`). The order that a call gives
//! is the order of the tickets at that point of the history (`tickets`); it never mixes two moments. Tickets
//! are whole numbers without bound. `specs/Callers.antt`, `specs/Stamps.antt` and `specs/Clears.antt` have
//! the definitions.
//!
//! No progress is promised: each try may be lost, and `stamp` may try forever.
//!
//! # A lock
//!
//! Four threads count. Their tickets keep them apart: a process takes a ticket (`stamp`), waits until no
//! older process holds one, works, and gives its ticket up (`clear`).
//!
//! ```
//! ghost use Rattle.std.specs.Prelude.{◌≡◌, ◌<◌, length};
//! ghost use Rattle.stamp_table.specs.Passes.{Holds};
//!
//! use stamp_calls::{Caller, Order, clear, scan, stamp};
//! use stamp_table::{OpenFault, Pass, StampTable, open};
//! use std::alloc::Global;
//! use std::sync::Wait;
//! use std::sync::atomic::AtomicU64;
//! use std::sync::atomic::Ordering::SeqCst;
//! use std::thread::{Threads, join, yield_now};
//!
//! // Whether no process older than `p` holds a ticket.
//! fn is_first(order: &Order, p: u8) -> bool
//!     requires { p < length order.now }
//! {
//!     for other in 0..order.word().n() {
//!         if order.held(other) && order.older(other, p) {
//!             return false;
//!         }
//!     }
//!     true
//! }
//!
//! /// Process `p` comes: it takes a ticket, and waits until nobody older holds one.
//! pub fn enters<R: Wait>(rt: &R, table: &StampTable, caller: &mut Caller, p: u8)
//!     requires here { caller.old.pass.table ≡ table.now }
//!     requires process { caller.old.process ≡ p }
//!     ensures table { caller.new.pass.table ≡ caller.old.pass.table }
//!     ensures process { caller.new.process ≡ caller.old.process }
//! {
//!     stamp(rt, table, caller);
//!     for _ in rt.forever() {
//!         if is_first(&scan(table, caller), p) {
//!             return;
//!         }
//!         yield_now();
//!     }
//! }
//!
//! /// Process `p` counts so many times, each time under the lock.
//! pub fn counts<R: Wait>(
//!     rt: &R,
//!     table: &StampTable,
//!     pass: Pass,
//!     p: u8,
//!     times: u32,
//!     counter: &AtomicU64,
//! )
//!     requires here { pass.table ≡ table.now }
//!     requires held { Holds pass.held p }
//! {
//!     let mut caller = Caller::new(pass, p);
//!     for _ in 0..times {
//!         enters(rt, table, &mut caller, p);
//!         let count = counter.load(SeqCst);
//!         yield_now();
//!         counter.store(count.wrapping_add(1), SeqCst);
//!         clear(table, &mut caller);
//!     }
//! }
//!
//! // Two threads, each with a pass of its own.
//! fn both<R: Threads + Wait + Sync>(
//!     rt: &R,
//!     table: &StampTable,
//!     first: Pass,
//!     p: u8,
//!     second: Pass,
//!     q: u8,
//!     times: u32,
//!     counter: &AtomicU64,
//! )
//!     requires first { (first.table ≡ table.now) × Holds first.held p }
//!     requires second { (second.table ≡ table.now) × Holds second.held q }
//! {
//!     join(
//!         rt,
//!         || counts(rt, table, first, p, times, counter),
//!         || counts(rt, table, second, q, times, counter),
//!     );
//! }
//!
//! /// Four threads count so many times each: what they came to.
//! pub fn four_count<R: Threads + Wait + Sync>(
//!     rt: &R,
//!     alloc: Global,
//!     times: u32,
//! ) -> Result<u64, OpenFault> {
//!     let (table, all) = open(alloc, 4, 0)?;
//!     let (all, three) = table.split(all, 3);
//!     let (all, two) = table.split(all, 2);
//!     let (zero, one) = table.split(all, 1);
//!     let counter = AtomicU64::new(0);
//!     let (shared, counted) = (&table, &counter);
//!     join(
//!         rt,
//!         || -> ()
//!             requires { (zero.table ≡ shared.now) × Holds zero.held 0 × (one.table ≡ shared.now) × Holds one.held 1 }
//!         { both(rt, shared, zero, 0, one, 1, times, counted) },
//!         || -> ()
//!             requires { (two.table ≡ shared.now) × Holds two.held 2 × (three.table ≡ shared.now) × Holds three.held 3 }
//!         { both(rt, shared, two, 2, three, 3, times, counted) },
//!     );
//!     Ok(counter.load(SeqCst))
//! }
//! ```
//!
//! - In `crates.txt` the line of a crate with this lock names `stamp_table` and `stamp_calls`. The file
//!   `HANDLES` has `Threads` and `Wait`. The crate needs `word_core` too only if a clause speaks of labels.
//! - If a caller steps in a loop, the loop's invariant keeps the caller's table and process. Each call
//!   ensures that both stay (`GoesOn`, clause `caller`). It is one line of the invariant: for `enters`
//!   `(l.caller.pass.table ≡ l.initial.caller.pass.table) × (l.caller.process ≡ l.initial.caller.process)`,
//!   and for `counts` `(l.caller.pass.table ≡ l.table) × (l.caller.process ≡ l.p)`.
//! - `split` gives each thread a pass of its own, which the closure of the thread takes along. A closure that
//!   hands passes on, as to `both`, has a `requires` about these passes. To get a pass back, the closure
//!   returns it (`Caller::into_pass`), with an `ensures` about its table and the processes that it holds.
//!   Then `meet` makes one pass of two, which has seen what either had. `split_all` and `meet_all` do so for
//!   all processes at once.
#![tactic(auto)]

mod caller;
mod calls;
mod order;
mod registers;

pub use caller::Caller;
pub use calls::{Tried, clear, scan, stamp, try_stamp};
pub use order::Order;
pub use registers::{read, write};
