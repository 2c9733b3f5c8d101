//! Compares a word and tickets with what they should be.
ghost use Rattle.std.specs.Prelude.{◌<◌, length};

use crate::word::plain::{Digits, Plain};
use label_core::Label;
use std::test::Fail;
use tests_shared::holds;
use ticket_core::Tickets;
use word_core::LabelWord;

/// What a word tells is what the plain labels and tickets tell.
pub fn word_agrees(plain: &Plain, word: &LabelWord) -> Result<(), Fail> {
    let bits = plain.word();
    holds(word.is_ordered() && word.bits() == bits, bits)?;
    for i in 0..word.n() {
        holds(is_told(plain, word, i), (bits, i))?;
    }
    Ok(())
}

fn is_told(plain: &Plain, word: &LabelWord, i: u8) -> bool
    requires { i < length word.now }
{
    (0..word.n()).all(|j| word.older(i, j) == plain.is_older(i, j))
        && is_same_label(word.label(i), plain.label(i))
        && word.held(i) == (plain.ticket(i) > 0)
        && word.rank(i) == plain.rank(i)
}

/// So is what tickets tell.
pub fn tickets_agree(plain: &Plain, tickets: &Tickets) -> Result<(), Fail> {
    for i in 0..tickets.count() {
        holds(is_ticket(plain, tickets, i), (plain.n, i))?;
    }
    Ok(())
}

fn is_ticket(plain: &Plain, tickets: &Tickets, i: u8) -> bool
    requires { i < length tickets.now }
{
    (0..tickets.count()).all(|j| tickets.older(i, j) == plain.is_older(i, j))
        && tickets.held(i) == (plain.ticket(i) > 0)
        && tickets.ranks()[usize::from(i)] == plain.rank(i)
}

fn is_same_label(label: Option<Label>, wanted: Option<Digits>) -> bool {
    match (label, wanted) {
        (None, None) => true,
        (Some(label), Some(digits)) => has_digits(&label, &digits),
        _ => false,
    }
}

fn has_digits(label: &Label, digits: &Digits) -> bool {
    for place in 0..label.len() {
        if label.digit(place) != digits[place] {
            return false;
        }
    }
    true
}
