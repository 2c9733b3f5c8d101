// Who holds a ticket, from the smallest ticket to the greatest.
ghost use Rattle.std.specs.Prelude.{◌≡◌, ◌++◌, ◌<◌, IfOk, OnOk, slice_index};
ghost use Rattle.ticket_core.specs.Tickets.{tickets_below};
ghost use Rattle.ticklab_draw.specs.Orders.{has_label_rank, has_rank, has_ticket_rank, holders, holders_below, order_words, ranked, younger_text};

use crate::mark::Holdings;
use crate::writing::{Added, LESS_THAN, push, push_number, push_numbered};
use std::alloc::{AllocError, Global};
use word_core::LabelWord;

// Where no process holds a ticket.
const NOBODY: &str = "none";

/// All who hold a ticket, the oldest first.
#[tactic(auto, unfolding(crate::specs::Orders::holders))]
pub fn holders(alloc: Global, held: &Holdings) -> Result<Vec<u8>, AllocError>
    ensures { IfOk result (λ found. found.items ≡ holders held.now) }
{
    holders_below(alloc, held, 6, 6)
}

#[tactic(auto, unfolding(crate::specs::Orders::holders_below))]
fn holders_below(alloc: Global, held: &Holdings, n: u8, ranks: usize) -> Result<Vec<u8>, AllocError>
    ensures { IfOk result (λ found. found.items ≡ holders_below held.now n ranks) }
{
    let mut found = Vec::new(alloc);
    for rank in 0..ranks {
        add_ranked(&mut found, held, rank, n)?;
    }
    Ok(found)
}

#[tactic(auto, unfolding(crate::specs::Orders::ranked))]
fn add_ranked(found: &mut Vec<u8>, held: &Holdings, rank: usize, n: u8) -> Added
    ensures { OnOk result (found.new.items ≡ found.old.items ++ ranked held.now rank n) }
{
    for i in 0..n {
        if has_rank(held, rank, i) {
            found.push(i)?;
        }
    }
    Ok(())
}

fn has_rank(held: &Holdings, rank: usize, i: u8) -> bool
    ensures { result ≡ has_rank held.now rank i }
{
    match held {
        Holdings::Tickets(tickets) => has_ticket_rank(tickets, rank, i),
        Holdings::Labels(word) => has_label_rank(word, rank, i),
    }
}

fn has_ticket_rank(tickets: &[u64], rank: usize, i: u8) -> bool
    ensures { result ≡ has_ticket_rank tickets.now rank i }
{
    let ticket = ticket_of(tickets, i);
    0 < ticket && below(tickets, ticket) == rank
}

/// The ticket of a process, 0 where it has none.
pub fn ticket_of(tickets: &[u64], i: u8) -> u64
    ensures { result ≡ slice_index tickets.now i }
{
    tickets.get(i as usize).copied().unwrap_or(0)
}

fn below(tickets: &[u64], ticket: u64) -> usize
    ensures { result ≡ tickets_below tickets.now ticket }
{
    tickets.iter().filter(|other| **other < ticket).count()
}

fn has_label_rank(word: &LabelWord, rank: usize, i: u8) -> bool
    ensures { result ≡ has_label_rank word.now rank i }
{
    i < word.n() && word.held(i) && word.rank(i) as usize == rank
}

/// Adds these processes, each after a sign that the one before it is older.
pub fn push_order_words(out: &mut Vec<u8>, processes: &[u8]) -> Added
    ensures { OnOk result (out.new.items ≡ out.old.items ++ order_words processes.now) }
{
    match processes {
        [oldest, younger @ ..] => {
            push_number(out, u64::from(*oldest))?;
            push_younger(out, younger)
        }
        [] => push(out, NOBODY),
    }
}

fn push_younger(out: &mut Vec<u8>, processes: &[u8]) -> Added
    ensures { OnOk result (out.new.items ≡ out.old.items ++ younger_text processes.now) }
{
    for &process in processes {
        push_numbered(out, LESS_THAN, u64::from(process))?;
    }
    Ok(())
}
