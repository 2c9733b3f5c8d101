//! The ticket of a process, and its rank among those that hold one.
ghost use Rattle.std.specs.Prelude.{◌≡◌, ◌<◌, length, slice_index};
ghost use Rattle.ticklab_trace.specs.TraceText.{label_rank, ticket_rank};

use ticket_core::Tickets;
use word_core::LabelWord;

/// The ticket of a process; 0 where it holds none.
pub fn ticket_of(tickets: &Tickets, p: u8) -> u64
    ensures { result ≡ slice_index tickets.now p }
{
    if p < tickets.count() {
        tickets.ticket(p)
    } else {
        0
    }
}

/// The rank of a process by its ticket, where it holds one.
pub fn ticket_rank(tickets: &Tickets, i: u8) -> Option<u8>
    requires { i < length tickets.now }
    ensures { result ≡ ticket_rank tickets.now i }
{
    if tickets.held(i) {
        Some(tickets.ranks()[usize::from(i)])
    } else {
        None
    }
}

/// The rank of a process by its label, where it holds one.
pub fn label_rank(labels: &LabelWord, i: u8) -> Option<u8>
    requires { i < length labels.now }
    ensures { result ≡ label_rank labels.now i }
{
    if labels.held(i) {
        Some(labels.rank(i))
    } else {
        None
    }
}
