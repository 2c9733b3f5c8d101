//! `ticket_core` has the ticket object in whole numbers: the model that labels are measured against.
//!
//! Each process has a ticket, which is 0 if it holds none. A stamp takes the ticket one above the greatest,
//! and a clear gives the ticket up. Two processes are in the order of their tickets. No call takes memory,
//! and no call refuses.
//! Start with `Tickets::new`.
#![tactic(auto)]

ghost use Rattle.std.specs.Prelude.{◌≡◌, ◌+◌, ◌-◌, ◌^◌, ◌<◌, ◌≤◌, ℕ, List, ◌++◌, length, take, drop, replicate, slice_index};
ghost use Rattle.ticket_core.specs.Tickets.{start_tickets, greatest_ticket, stamp_ticket, clear_ticket, tickets_below, ticket_ranks, older_ticket, holds_ticket};

mod moves;

pub use base::MOST_PROCESSES;
pub use moves::Move;
use std::marker::Model;

/// One ticket for each of one to six processes, in order of process number.
#[derive(Clone, Copy, PartialEq, Eq, Debug)]
pub struct Tickets {
    count: u8,
    tickets: [u64; MOST_PROCESSES],
}

impl Model for Tickets {
    ghost use Rattle.std.specs.Prelude.{◌≡◌, ◌-◌, ◌≤◌, ℕ, List, length, take, drop, replicate};
    ghost use Rattle.std.proofs.Common.{arith, length-take-le};
    ghost use Rattle.base.specs.Rows.{padded};
    ghost use Rattle.base.proofs.Offered.{padded_back};

    ghost Value = { List ℕ };

    ghost view = { λ fields. take fields.count fields.tickets };

    ghost invariant = { λ fields. (1 ≤ fields.count) × (fields.count ≤ 6) × (length fields.tickets ≡ 6) × (drop fields.count fields.tickets ≡ replicate (6 - fields.count) 0) };

    ghost inverse = { λ tickets. record { count = length tickets; tickets = padded 6 0 tickets } };

    ghost inverse_ok = { λ fields kept i. record {
      count = length-take-le fields.count fields.tickets (omega (arith, kept.1, kept.2)) i;
      tickets = padded_back 6 fields.count 0 fields.tickets kept.2 kept.1 kept.3 i;
    } };
}

impl Tickets {
    /// The tickets of `n` processes at the start, all 0.
    pub fn new(n: u8) -> Tickets
        requires at_least_one { 1 ≤ n }
        requires at_most_six { n ≤ 6 }
        ensures { result ≡ start_tickets n }
    {
        Tickets {
            count: n,
            tickets: [0; MOST_PROCESSES],
        }
    }

    /// The number of processes, 1 to 6.
    pub fn count(&self) -> u8
        ensures count { result ≡ length self.now }
        ensures at_least_one { 1 ≤ result }
        ensures at_most_six { result ≤ 6 }
    {
        self.count
    }

    /// Gives process `p` the ticket one above the greatest.
    pub fn stamp(&mut self, p: u8)
        requires in_range { p < length self.old }
        requires room { greatest_ticket self.old + 1 < 2 ^ 64 }
        ensures { self.new ≡ stamp_ticket p self.old }
    {
        let next = self.greatest() + 1;
        self.tickets[p as usize] = next;
    }

    /// Process `p` gives its ticket up: it holds 0, as at the start.
    pub fn clear(&mut self, p: u8)
        requires { p < length self.old }
        ensures { self.new ≡ clear_ticket p self.old }
    {
        self.tickets[p as usize] = 0;
    }

    /// Whether process `i` holds a ticket: one that is not 0.
    pub fn held(&self, i: u8) -> bool
        requires { i < length self.now }
        ensures { result ≡ holds_ticket self.now i }
    {
        self.all()[i as usize] > 0
    }

    /// The ticket of process `i`, 0 where it holds none.
    pub fn ticket(&self, i: u8) -> u64
        requires { i < length self.now }
        ensures { result ≡ slice_index self.now i }
    {
        self.all()[usize::from(i)]
    }

    /// For each process, how many processes hold a smaller ticket; the entries past the last
    /// process are 0.
    pub fn ranks(&self) -> [u8; MOST_PROCESSES]
        ensures { result ≡ ticket_ranks self.now ++ replicate (6 - length self.now) 0 }
    {
        ranks_of(self.all())
    }

    /// Whether the ticket of process `i` is smaller than that of process `j`.
    pub fn older(&self, i: u8, j: u8) -> bool
        requires first_in_range { i < length self.now }
        requires second_in_range { j < length self.now }
        ensures { result ≡ older_ticket self.now i j }
    {
        let tickets = self.all();
        tickets[i as usize] < tickets[j as usize]
    }

    fn greatest(&self) -> u64
        ensures { result ≡ greatest_ticket self.now }
    {
        let tickets = self.all();
        let mut greatest = 0;
        for &ticket in tickets {
            greatest = ticket.max(greatest);
        }
        greatest
    }

    // The tickets of the processes that there are.
    fn all(&self) -> &[u64]
        ensures all { result.now ≡ self.now }
        ensures at_most_six { length result.now ≤ 6 }
    {
        &self.tickets[..self.count as usize]
    }
}

fn count_below(tickets: &[u64], ticket: u64) -> u8
    requires { length tickets.now ≤ 6 }
    ensures { result ≡ tickets_below tickets.now ticket }
{
    tickets.iter().filter(|other| **other < ticket).count() as u8
}

fn ranks_of(tickets: &[u64]) -> [u8; MOST_PROCESSES]
    requires { length tickets.now ≤ 6 }
    ensures { result ≡ ticket_ranks tickets.now ++ replicate (6 - length tickets.now) 0 }
{
    let mut ranks = [0; MOST_PROCESSES];
    for (process, &ticket) in tickets.iter().enumerate() {
        ranks[process] = count_below(tickets, ticket);
    }
    ranks
}
