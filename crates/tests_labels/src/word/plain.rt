//! Stamps and clears by their definitions: tickets as plain numbers, labels as rows of digits.
ghost use Rattle.std.specs.Prelude.{◌<◌, ◌≤◌};

use ticket_core::Move;

const PROCESSES: usize = 6;

/// A label: of `n` processes the first n - 1 digits count, and the others are 0.
pub type Digits = [u8; 5];

/// What `n` processes hold: each a ticket, which is 0 where it holds none, and a label or none.
#[derive(Clone, Copy, PartialEq)]
pub struct Plain {
    pub n: u8,
    pub tickets: [u64; PROCESSES],
    pub labels: [Option<Digits>; PROCESSES],
}

impl Plain {
    pub fn new(n: u8) -> Plain {
        Plain {
            n,
            tickets: [0; PROCESSES],
            labels: [None; PROCESSES],
        }
    }

    pub fn ticket(&self, process: u8) -> u64 {
        self.tickets[usize::from(process) % PROCESSES]
    }

    /// Whether the first process holds a smaller ticket than the second.
    pub fn is_older(&self, process: u8, other: u8) -> bool {
        self.ticket(process) < self.ticket(other)
    }

    pub fn label(&self, process: u8) -> Option<Digits> {
        self.labels[usize::from(process) % PROCESSES]
    }

    /// How many of the `n` processes hold a smaller ticket than this one.
    pub fn rank(&self, process: u8) -> u8 {
        let mut rank = 0u8;
        for other in 0..self.n {
            if self.is_older(other, process) {
                rank = rank.saturating_add(1);
            }
        }
        rank
    }

    pub fn moved(&self, made: Move) -> Plain {
        match made {
            Move::Stamp(process) => self.stamped(usize::from(process) % PROCESSES),
            Move::Clear(process) => self.cleared(usize::from(process) % PROCESSES),
        }
    }

    fn cleared(&self, process: usize) -> Plain
        requires { process < 6 }
    {
        let mut after = *self;
        after.tickets[process] = 0;
        after.labels[process] = None;
        after
    }

    fn stamped(&self, process: usize) -> Plain
        requires { process < 6 }
    {
        let mut greatest = 0;
        for &ticket in &self.tickets {
            greatest = ticket.max(greatest);
        }
        let mut after = *self;
        after.tickets[process] = greatest.saturating_add(1);
        after.labels[process] = Some(next(self.n, &self.cleared(process).labels));
        after
    }

    /// The same labels with tickets in the same order, but as small as can be.
    pub fn lowered(&self) -> Plain {
        let mut low = *self;
        for (place, &ticket) in self.tickets.iter().enumerate() {
            low.tickets[place] = 0;
            if ticket > 0 {
                low.tickets[place] = held_below(&self.tickets, ticket).saturating_add(1);
            }
        }
        low
    }

    /// The word in layout 3.
    pub fn word(&self) -> u64 {
        let mut word = 0;
        for (place, label) in self.labels.iter().enumerate() {
            if let Some(digits) = label {
                word |= 1 << (48 + place);
                word |= number(self.n, digits) << (8 * place);
            }
        }
        word
    }
}

fn held_below(tickets: &[u64; PROCESSES], ticket: u64) -> u64 {
    tickets
        .iter()
        .filter(|other| **other > 0 && **other < ticket)
        .count() as u64
}

// The digits that count, read in base 3.
fn number(n: u8, digits: &Digits) -> u64 {
    let mut number = 0u64;
    for &digit in &digits[..usize::from(n).saturating_sub(1).min(5)] {
        number = number.wrapping_mul(3).wrapping_add(u64::from(digit));
    }
    number
}

/// Whether the first label dominates the second: at the first place at which they differ its digit is
/// the other's plus 1, modulo 3.
pub fn dominates(label: &Digits, other: &Digits) -> bool {
    for (digit, against) in label.iter().zip(other) {
        if digit != against {
            return u16::from(*digit) == (u16::from(*against) + 1) % 3;
        }
    }
    false
}

// The label that dominates or equals each of them.
fn greatest(labels: &[Option<Digits>; PROCESSES]) -> Option<Digits> {
    for label in labels.iter().flatten() {
        if labels
            .iter()
            .flatten()
            .all(|other| label == other || dominates(label, other))
        {
            return Some(*label);
        }
    }
    None
}

// How many of the labels begin with so many digits of this one.
fn sharing(labels: &[Option<Digits>; PROCESSES], top: &Digits, digits: usize) -> usize
    requires { digits ≤ 5 }
{
    labels
        .iter()
        .flatten()
        .filter(|label| label[..digits] == top[..digits])
        .count()
}

// The rule of the choice: k counts down from n, and at most k - 2 of the labels may share M's digit.
fn next(n: u8, others: &[Option<Digits>; PROCESSES]) -> Digits {
    let mut label = [0; 5];
    let Some(top) = greatest(others) else {
        return label;
    };
    let mut k = usize::from(n);
    for place in 0..usize::from(n).saturating_sub(1).min(5) {
        if sharing(others, &top, place + 1).saturating_add(2) > k {
            label[place] = top[place].wrapping_add(1) % 3;
            return label;
        }
        label[place] = top[place];
        k = k.saturating_sub(1);
    }
    label
}
