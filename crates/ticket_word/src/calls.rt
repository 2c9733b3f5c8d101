//! The calls of the library, for other languages: each answers something of a word, or what stands against it.
ghost use Rattle.std.specs.Prelude.{◌≡◌, ◌↔◌, ◌<◌, ◌-◌, ◌∷◌, [], ◌++◌, ℕ, List, length, replicate, slice_index, bit_and, false, IsTrue};
ghost use Rattle.ticket_core.specs.Tickets.{start_tickets, stamp_ticket, clear_ticket, holds_ticket, older_ticket, ticket_ranks};
ghost use Rattle.ticket_core.specs.declared.moves.Move.TheVariants.{Stamp, Clear};
ghost use Rattle.word_core.specs.Stamps.{label_at, is_present};
ghost use Rattle.word_core.specs.Order.{older_label};
ghost use Rattle.ticket_word.specs.Standing.{Stands, IsTicketWord, IsFirst};
ghost use Rattle.ticket_word.specs.Faults.{Tells};
ghost use Rattle.ticket_word.specs.Changes.{Makes};
ghost use Rattle.ticket_word.specs.prover.Asked.{IsFirstLabel};

use crate::asked::{asked, asked_ranks, within};
use word_core::{LabelWord, clear_mask};

/// A word, or what stands against it.
#[repr(C)]
pub struct TicketWord {
    pub word: u64,
    pub fault: u8,
}

/// Yes or no, or what stands against it.
#[repr(C)]
pub struct TicketAnswer {
    pub answer: bool,
    pub fault: u8,
}

/// How many tickets are smaller, or what stands against it.
#[repr(C)]
pub struct TicketRank {
    pub rank: u8,
    pub fault: u8,
}

/// The ranks of all processes, and 0 past the last, or what stands against them.
#[repr(C)]
pub struct TicketRanks {
    pub of: [u8; 6],
    pub fault: u8,
}

/// What stands against a number as a word of `n` processes: 0 where it stands for tickets.
#[unsafe(no_mangle)]
pub extern "C" fn ticket_word_fault(n: u8, word: u64) -> u8
    ensures { Tells n word [] result }
{
    match asked(n, word, &[]) {
        Ok(_) => 0,
        Err(fault) => fault.number(),
    }
}

/// The word of `n` processes at the start, where nobody holds a ticket: 0.
#[unsafe(no_mangle)]
pub extern "C" fn ticket_word_start(n: u8) -> TicketWord
    ensures tickets { result.fault ≡ 0 → Stands n result.word (start_tickets n) }
    ensures zero { result.word ≡ 0 }
    ensures fault { Tells n 0 [] result.fault }
{
    TicketWord {
        word: 0,
        fault: match within(n, &[]) {
            Ok(()) => 0,
            Err(fault) => fault.number(),
        },
    }
}

/// The word after process `p` has taken the next ticket, and 0 beside a fault.
#[unsafe(no_mangle)]
pub extern "C" fn ticket_word_stamped(n: u8, word: u64, p: u8) -> TicketWord
    ensures tickets { result.fault ≡ 0 → (tickets : List ℕ) → Stands n word tickets → Stands n result.word (stamp_ticket p tickets) }
    ensures makes { result.fault ≡ 0 → Makes n word (Stamp p) result.word }
    ensures fault { Tells n word (p ∷ []) result.fault }
    ensures nothing { 0 < result.fault → result.word ≡ 0 }
{
    match asked(n, word, &[p]) {
        Ok(labels) => TicketWord {
            word: labels.stamped(p).bits(),
            fault: 0,
        },
        Err(fault) => TicketWord {
            word: 0,
            fault: fault.number(),
        },
    }
}

/// The word after process `p` has given its ticket up, if it had one, and 0 beside a fault.
#[unsafe(no_mangle)]
pub extern "C" fn ticket_word_cleared(n: u8, word: u64, p: u8) -> TicketWord
    ensures tickets { result.fault ≡ 0 → (tickets : List ℕ) → Stands n word tickets → Stands n result.word (clear_ticket p tickets) }
    ensures makes { result.fault ≡ 0 → Makes n word (Clear p) result.word }
    ensures fault { Tells n word (p ∷ []) result.fault }
    ensures nothing { 0 < result.fault → result.word ≡ 0 }
{
    match asked(n, word, &[p]) {
        Ok(labels) => TicketWord {
            word: labels.cleared(p).bits(),
            fault: 0,
        },
        Err(fault) => TicketWord {
            word: 0,
            fault: fault.number(),
        },
    }
}

/// What is left of any word where process `p` of `n` gives its ticket up is the `&` of the word with
/// this: the word that `ticket_word_cleared` answers. Beside a fault it is 0.
#[unsafe(no_mangle)]
pub extern "C" fn ticket_word_clear_mask(n: u8, p: u8) -> TicketWord
    ensures makes { result.fault ≡ 0 → (word : ℕ) → IsTicketWord n word → Makes n word (Clear p) (bit_and word result.word) }
    ensures fault { Tells n 0 (p ∷ []) result.fault }
    ensures nothing { 0 < result.fault → result.word ≡ 0 }
{
    match within(n, &[p]) {
        Ok(()) => TicketWord {
            word: clear_mask(p),
            fault: 0,
        },
        Err(fault) => TicketWord {
            word: 0,
            fault: fault.number(),
        },
    }
}

/// Whether process `i` holds a ticket, and false beside a fault.
#[unsafe(no_mangle)]
pub extern "C" fn ticket_word_held(n: u8, word: u64, i: u8) -> TicketAnswer
    ensures held { result.fault ≡ 0 → (tickets : List ℕ) → Stands n word tickets → result.answer ≡ holds_ticket tickets i }
    ensures fault { Tells n word (i ∷ []) result.fault }
    ensures nothing { 0 < result.fault → result.answer ≡ false }
{
    match asked(n, word, &[i]) {
        Ok(labels) => TicketAnswer {
            answer: labels.held(i),
            fault: 0,
        },
        Err(fault) => TicketAnswer {
            answer: false,
            fault: fault.number(),
        },
    }
}

/// Whether the ticket of process `i` is smaller than that of process `j`, and false beside a fault.
#[unsafe(no_mangle)]
pub extern "C" fn ticket_word_older(n: u8, word: u64, i: u8, j: u8) -> TicketAnswer
    ensures older { result.fault ≡ 0 → (tickets : List ℕ) → Stands n word tickets → result.answer ≡ older_ticket tickets i j }
    ensures fault { Tells n word (i ∷ j ∷ []) result.fault }
    ensures nothing { 0 < result.fault → result.answer ≡ false }
{
    match asked(n, word, &[i, j]) {
        Ok(labels) => TicketAnswer {
            answer: labels.older(i, j),
            fault: 0,
        },
        Err(fault) => TicketAnswer {
            answer: false,
            fault: fault.number(),
        },
    }
}

/// Whether process `p` holds a ticket and nobody holds a smaller one, and false beside a fault.
#[unsafe(no_mangle)]
pub extern "C" fn ticket_word_is_first(n: u8, word: u64, p: u8) -> TicketAnswer
    ensures first { result.fault ≡ 0 → (tickets : List ℕ) → Stands n word tickets → (IsTrue result.answer ↔ IsFirst tickets p) }
    ensures fault { Tells n word (p ∷ []) result.fault }
    ensures nothing { 0 < result.fault → result.answer ≡ false }
{
    match asked(n, word, &[p]) {
        Ok(labels) => TicketAnswer {
            answer: is_first(&labels, p),
            fault: 0,
        },
        Err(fault) => TicketAnswer {
            answer: false,
            fault: fault.number(),
        },
    }
}

/// How many tickets are smaller than that of process `i`, and 0 beside a fault.
#[unsafe(no_mangle)]
pub extern "C" fn ticket_word_rank(n: u8, word: u64, i: u8) -> TicketRank
    ensures rank { result.fault ≡ 0 → (tickets : List ℕ) → Stands n word tickets → result.rank ≡ slice_index (ticket_ranks tickets) i }
    ensures fault { Tells n word (i ∷ []) result.fault }
    ensures nothing { 0 < result.fault → result.rank ≡ 0 }
{
    match asked_ranks(n, word, &[i]) {
        Ok(ranks) => TicketRank {
            rank: ranks[i as usize],
            fault: 0,
        },
        Err(fault) => TicketRank {
            rank: 0,
            fault: fault.number(),
        },
    }
}

/// For each process how many tickets are smaller than its own, and 0 past the last and beside a fault.
#[unsafe(no_mangle)]
pub extern "C" fn ticket_word_ranks(n: u8, word: u64) -> TicketRanks
    ensures ranks { result.fault ≡ 0 → (tickets : List ℕ) → Stands n word tickets → result.of ≡ ticket_ranks tickets ++ replicate (6 - n) 0 }
    ensures fault { Tells n word [] result.fault }
    ensures nothing { 0 < result.fault → result.of ≡ replicate 6 0 }
{
    match asked_ranks(n, word, &[]) {
        Ok(ranks) => TicketRanks {
            of: ranks,
            fault: 0,
        },
        Err(fault) => TicketRanks {
            of: [0; 6],
            fault: fault.number(),
        },
    }
}

// Whether process `p` is present, and nobody who is present is older.
fn is_first(labels: &LabelWord, p: u8) -> bool
    requires { p < length labels.now }
    ensures { IsTrue result ↔ IsFirstLabel labels.now p }
{
    if !labels.held(p) {
        return false;
    }
    for other in 0..labels.n() {
        if labels.held(other) && labels.older(other, p) {
            return false;
        }
    }
    true
}
