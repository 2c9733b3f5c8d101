// The words beside marks: a row and a value, ranks, an answer, a ticket or a label.
ghost use Rattle.std.specs.Prelude.{◌≡◌, ◌++◌, IfOk, OnOk, codes};
ghost use Rattle.std.specs.Fmt.{decimal};
ghost use Rattle.ticklab_draw.specs.Words.{answer_text, names};
ghost use Rattle.ticklab_draw.specs.Shapes.{beside, beside_act, own_label, own_text};

use crate::mark::{Holdings, Mark, Sight};
use crate::orders::ticket_of;
use crate::words::{Cast, push_answer, push_label, push_ranks, push_read, push_written};
use crate::writing::{Added, push, push_number, push_one, push_two};
use base::Act;
use std::alloc::{AllocError, Global};
use tick_play::trap_name;
use word_core::LabelWord;

// Questions about two processes and about one.
const OLDER_THAN: &str = " &lt; ";

const HELD: &str = " held? ";

/// The words beside a mark.
pub fn beside(alloc: Global, cast: Cast<'_>, mark: &Mark) -> Result<Vec<u8>, AllocError>
    ensures { IfOk result (λ words. words.items ≡ beside cast.entry.processes (names cast.entry.registers.now) mark.now.process mark.now.sight) }
{
    let mut words = Vec::new(alloc);
    push_beside(&mut words, cast, mark.process, mark.sight)?;
    Ok(words)
}

fn push_beside(out: &mut Vec<u8>, cast: Cast<'_>, process: u8, sight: Sight) -> Added
    ensures { OnOk result (out.new.items ≡ out.old.items ++ beside cast.entry.processes (names cast.entry.registers.now) process sight) }
{
    match sight {
        Sight::Act(act) => push_beside_act(out, cast, act),
        Sight::Get(row, index, value, _) => push_read(out, cast.registers, row, index, value),
        Sight::Stamp(held) => push_own(out, process, held),
        _ => Ok(()),
    }
}

fn push_beside_act(out: &mut Vec<u8>, cast: Cast<'_>, act: Act) -> Added
    ensures { OnOk result (out.new.items ≡ out.old.items ++ beside_act cast.entry.processes (names cast.entry.registers.now) act) }
{
    match act {
        Act::Put(row, value) => push_written(out, cast.registers, row, value),
        Act::Get(row, index, value) => push_read(out, cast.registers, row, index, value),
        Act::Scan(ranks) => push_ranks(out, cast.processes, &ranks),
        Act::Older(i, j, answer) => push_compared(out, i, j, answer),
        Act::Held(index, answer) => push_asked(out, index, answer),
        Act::Out(value) => push_number(out, u64::from(value)),
        Act::Trap(trap) => push(out, trap_name(trap)),
        _ => Ok(()),
    }
}

#[tactic(auto, unfolding(crate::specs::Writing::two_numbers))]
fn push_compared(out: &mut Vec<u8>, i: u8, j: u8, answer: u8) -> Added
    ensures { OnOk result (out.new.items ≡ out.old.items ++ (decimal i ++ OLDER_THAN.now ++ decimal j ++ codes "? " ++ answer_text answer)) }
{
    push_two(out, "", u64::from(i), OLDER_THAN, u128::from(j), "? ")?;
    push_answer(out, answer)
}

#[tactic(auto, unfolding(crate::specs::Writing::one_number))]
fn push_asked(out: &mut Vec<u8>, index: u8, answer: u8) -> Added
    ensures { OnOk result (out.new.items ≡ out.old.items ++ (decimal index ++ HELD.now ++ answer_text answer)) }
{
    push_one(out, "", u128::from(index), HELD)?;
    push_answer(out, answer)
}

// The ticket or the label of a process.
fn push_own(out: &mut Vec<u8>, process: u8, held: Holdings) -> Added
    ensures { OnOk result (out.new.items ≡ out.old.items ++ own_text process held) }
{
    match held {
        Holdings::Tickets(tickets) => push_number(out, ticket_of(&tickets, process)),
        Holdings::Labels(word) => push_own_label(out, &word, process),
    }
}

fn push_own_label(out: &mut Vec<u8>, word: &LabelWord, process: u8) -> Added
    ensures { OnOk result (out.new.items ≡ out.old.items ++ own_label process word.now) }
{
    if process < word.n() {
        push_label(out, word, process)
    } else {
        Ok(())
    }
}
