//! What a caller may do with its ticket: look at the order, stamp, try to stamp once, and give the ticket up.
ghost use Rattle.std.specs.Prelude.{◌≡◌, ◌<◌, [], ◌∷◌, ◌++◌, length};
ghost use Rattle.word_core.specs.Packed.{word};
ghost use Rattle.word_core.specs.Agreement.{StandsFor};
ghost use Rattle.word_core.specs.declared.history.SharedAct.TheVariants.{Load};
ghost use Rattle.stamp_table.specs.Passes.{by, Appends, memory_seen};
ghost use Rattle.stamp_calls.specs.Callers.{own_steps, tickets_seen, GoesOn};
ghost use Rattle.stamp_calls.specs.Stamps.{Stamps, AddsTriesAndStamp};
ghost use Rattle.stamp_calls.specs.Tries.{tried_act, tried_order, AnswersTry};
ghost use Rattle.stamp_calls.specs.Clears.{Clears};

use crate::caller::Caller;
use crate::order::Order;
use stamp_table::{StampTable, Swap};
use std::sync::Wait;

/// What one try to stamp came to.
#[derive(Clone, Copy, PartialEq, Eq, Debug)]
pub enum Tried {
    /// The caller has its ticket: the order just after.
    Won(Order),
    /// Another order than the one handed in was found, this one, and it stays.
    Lost(Order),
}

/// The order as it is, by one load of the word.
pub fn scan(table: &StampTable, caller: &mut Caller) -> Order
    requires here { caller.old.pass.table ≡ table.now }
    ensures caller { GoesOn caller.old caller.new }
    ensures step { Appends caller.old.pass (by caller.old.process (Load (word result))) caller.new.pass }
    ensures own { own_steps caller.new ≡ own_steps caller.old ++ by caller.old.process (Load (word result)) ∷ [] }
    ensures labels { result ≡ (memory_seen caller.new.pass).labels }
    ensures tickets { StandsFor table.now.n (tickets_seen caller.new.pass) result }
    ensures processes { length result ≡ table.now.n }
    ensures range { caller.old.process < length result }
{
    let p = caller.process;
    let word = table.load(&mut caller.pass, p);
    Order::after(&caller.pass, word)
}

/// Tries once to stamp, by one exchange: it is won where the order still is the one handed in, also
/// where it is that one again after others came between.
pub fn try_stamp(table: &StampTable, caller: &mut Caller, order: Order) -> Tried
    requires here { caller.old.pass.table ≡ table.now }
    requires processes { length order ≡ table.now.n }
    ensures caller { GoesOn caller.old caller.new }
    ensures step { Appends caller.old.pass (by caller.old.process (tried_act order result)) caller.new.pass }
    ensures own { own_steps caller.new ≡ own_steps caller.old ++ by caller.old.process (tried_act order result) ∷ [] }
    ensures answer { AnswersTry caller.old.process order result }
    ensures labels { tried_order result ≡ (memory_seen caller.new.pass).labels }
    ensures tickets { StandsFor table.now.n (tickets_seen caller.new.pass) (tried_order result) }
    ensures processes { length (tried_order result) ≡ table.now.n }
    ensures range { caller.old.process < length (tried_order result) }
{
    let p = caller.process;
    let old = order.word;
    let new = old.stamped(p);
    match table.exchange(&mut caller.pass, p, old, new) {
        Swap::Won => Tried::Won(Order::after(&caller.pass, new)),
        Swap::Lost(found) => Tried::Lost(Order::after(&caller.pass, found)),
    }
}

/// Gives the caller's ticket up, also where it holds none, and gives the order just after. It is one
/// `fetch_and` of the word, which never fails.
pub fn clear(table: &StampTable, caller: &mut Caller) -> Order
    requires here { caller.old.pass.table ≡ table.now }
    ensures caller { GoesOn caller.old caller.new }
    ensures clears { Clears caller.old result caller.new }
    ensures labels { result ≡ (memory_seen caller.new.pass).labels }
    ensures tickets { StandsFor table.now.n (tickets_seen caller.new.pass) result }
    ensures processes { length result ≡ table.now.n }
    ensures range { caller.old.process < length result }
{
    let p = caller.process;
    let left = table.clear(&mut caller.pass, p);
    Order::after(&caller.pass, left)
}

/// Stamps: tries until it has won, and gives the order just after. It may try forever where others
/// win each time.
pub fn stamp<R: Wait>(rt: &R, table: &StampTable, caller: &mut Caller) -> Order
    requires here { caller.old.pass.table ≡ table.now }
    ensures caller { GoesOn caller.old caller.new }
    ensures stamps { Stamps caller.old result caller.new }
    ensures own { AddsTriesAndStamp caller.old result caller.new }
    ensures labels { result ≡ (memory_seen caller.new.pass).labels }
    ensures tickets { StandsFor table.now.n (tickets_seen caller.new.pass) result }
    ensures processes { length result ≡ table.now.n }
    ensures range { caller.old.process < length result }
{
    let mut order = scan(table, caller);
    let _n = order.word.n();
    for _ in rt.forever() {
        match try_stamp(table, caller, order) {
            Tried::Won(won) => return won,
            Tried::Lost(found) => order = found,
        }
    }
    unreachable!()
}
