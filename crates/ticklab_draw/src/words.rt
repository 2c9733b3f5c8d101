// What marks show, in words.
ghost use Rattle.std.specs.Prelude.{◌≡◌, ◌++◌, ◌<◌, OnOk, codes, length, map, take, Some};
ghost use Rattle.std.specs.Fmt.{decimal};
ghost use Rattle.base.specs.Lines.{spaced};
ghost use Rattle.word_core.specs.Stamps.{label_at};
ghost use Rattle.ticklab_draw.specs.Words.{act_text, answer_text, held_text, label_text, origin_text, read_text, row_text, sentence, sight_text, names, written_text};
ghost use Rattle.tick_play.specs.Lines.{trap_text};

use crate::mark::{Holdings, Mark, Sight};
use crate::writing::{Added, push, push_escaped, push_number, push_numbered};
use base::tree::Named;
use base::{Act, Trap};
use label_core::Label;
use tick_play::trap_name;
use word_core::LabelWord;

const STEP: &str = "step ";

const PROCESS: &str = ": P";

// What a process did.
const STAMPS: &str = "stamps";

const CLEARS: &str = "clears";

const ENDS: &str = "ends";

const PUTS: &str = "puts ";

const GETS: &str = "gets ";

const SCANS: &str = "scans: ranks";

const ASKS_WHETHER: &str = "asks whether ";

const IS_OLDER_THAN: &str = " is older than ";

const HOLDS_A_TICKET: &str = " holds a ticket: ";

const GIVES_OUT: &str = "gives out ";

const TRAPS: &str = "traps: ";

const LOSES_AN_EXCHANGE: &str = "loses an exchange";

const TICKETS: &str = "tickets";

const LABELS: &str = "labels";

const BECOMES: &str = " := ";

const HAS_VALUE: &str = "] = ";

const AS_AT_THE_START: &str = ", as at the start";

const PUT_BY_MARK: &str = ", put by mark ";

const NO: &str = "no";

const YES: &str = "yes";

/// What is known besides the marks: how many processes there are, and the names of the rows.
#[derive(Clone, Copy)]
pub struct Cast<'a> {
    pub processes: u8,
    pub registers: &'a [Named],
}

/// The step, the process and what it did.
#[tactic(auto, unfolding(crate::specs::Words::sentence))]
pub fn push_sentence(out: &mut Vec<u8>, cast: Cast<'_>, mark: &Mark) -> Added
    ensures { OnOk result (out.new.items ≡ out.old.items ++ sentence cast.entry.processes (names cast.entry.registers.now) mark.now) }
{
    push_numbered(out, STEP, mark.step as u64)?;
    push_numbered(out, PROCESS, u64::from(mark.process))?;
    push(out, " ")?;
    push_sight(out, cast, mark.sight)
}

fn push_sight(out: &mut Vec<u8>, cast: Cast<'_>, sight: Sight) -> Added
    ensures { OnOk result (out.new.items ≡ out.old.items ++ sight_text cast.entry.processes (names cast.entry.registers.now) sight) }
{
    match sight {
        Sight::Act(act) => push_act(out, cast, act),
        Sight::Get(row, index, value, put) => push_got(out, cast.registers, row, index, value, put),
        Sight::Stamp(held) => push_left(out, STAMPS, cast.processes, held),
        Sight::Clear(held) => push_left(out, CLEARS, cast.processes, held),
        Sight::Lost(held) => push_left(out, LOSES_AN_EXCHANGE, cast.processes, held),
    }
}

fn push_got(
    out: &mut Vec<u8>,
    registers: &[Named],
    row: u8,
    index: u8,
    value: u32,
    put: Option<usize>,
) -> Added
    ensures { OnOk result (out.new.items ≡ out.old.items ++ GETS.now ++ read_text (names registers.now) row index value ++ origin_text put) }
{
    push_gets(out, registers, row, index, value)?;
    push_origin(out, put)
}

fn push_left(out: &mut Vec<u8>, did: &str, n: u8, held: Holdings) -> Added
    ensures { OnOk result (out.new.items ≡ out.old.items ++ did.now ++ codes ": " ++ held_text n held) }
{
    push(out, did)?;
    push(out, ": ")?;
    push_held(out, n, held)
}

fn push_act(out: &mut Vec<u8>, cast: Cast<'_>, act: Act) -> Added
    ensures { OnOk result (out.new.items ≡ out.old.items ++ act_text cast.entry.processes (names cast.entry.registers.now) act) }
{
    match act {
        Act::Put(row, value) => push_put(out, cast.registers, row, value),
        Act::Get(row, index, value) => push_gets(out, cast.registers, row, index, value),
        Act::Stamp => push(out, STAMPS),
        Act::Clear => push(out, CLEARS),
        Act::Scan(ranks) => push_scanned(out, cast.processes, &ranks),
        Act::Older(i, j, answer) => push_asked(out, i, j, answer),
        Act::Held(index, answer) => push_asked_held(out, index, answer),
        Act::Out(value) => push_numbered(out, GIVES_OUT, u64::from(value)),
        Act::Trap(trap) => push_trap(out, trap),
        Act::End => push(out, ENDS),
    }
}

fn push_put(out: &mut Vec<u8>, registers: &[Named], row: u8, value: u32) -> Added
    ensures { OnOk result (out.new.items ≡ out.old.items ++ PUTS.now ++ written_text (names registers.now) row value) }
{
    push(out, PUTS)?;
    push_written(out, registers, row, value)
}

/// A row, and the value that is put into its register.
pub fn push_written(out: &mut Vec<u8>, registers: &[Named], row: u8, value: u32) -> Added
    ensures { OnOk result (out.new.items ≡ out.old.items ++ written_text (names registers.now) row value) }
{
    push_row(out, registers, row)?;
    push_numbered(out, BECOMES, u64::from(value))
}

fn push_gets(out: &mut Vec<u8>, registers: &[Named], row: u8, index: u8, value: u32) -> Added
    ensures { OnOk result (out.new.items ≡ out.old.items ++ GETS.now ++ read_text (names registers.now) row index value) }
{
    push(out, GETS)?;
    push_read(out, registers, row, index, value)
}

fn push_scanned(out: &mut Vec<u8>, n: u8, ranks: &[u8]) -> Added
    ensures { OnOk result (out.new.items ≡ out.old.items ++ SCANS.now ++ spaced (map decimal (take n ranks.now))) }
{
    push(out, SCANS)?;
    push_ranks(out, n, ranks)
}

fn push_asked(out: &mut Vec<u8>, i: u8, j: u8, answer: u8) -> Added
    ensures { OnOk result (out.new.items ≡ out.old.items ++ ASKS_WHETHER.now ++ decimal i ++ IS_OLDER_THAN.now ++ decimal j ++ codes ": " ++ answer_text answer) }
{
    push_numbered(out, ASKS_WHETHER, u64::from(i))?;
    push_numbered(out, IS_OLDER_THAN, u64::from(j))?;
    push(out, ": ")?;
    push_answer(out, answer)
}

fn push_asked_held(out: &mut Vec<u8>, index: u8, answer: u8) -> Added
    ensures { OnOk result (out.new.items ≡ out.old.items ++ ASKS_WHETHER.now ++ decimal index ++ HOLDS_A_TICKET.now ++ answer_text answer) }
{
    push_numbered(out, ASKS_WHETHER, u64::from(index))?;
    push(out, HOLDS_A_TICKET)?;
    push_answer(out, answer)
}

fn push_trap(out: &mut Vec<u8>, trap: Trap) -> Added
    ensures { OnOk result (out.new.items ≡ out.old.items ++ TRAPS.now ++ trap_text trap) }
{
    push(out, TRAPS)?;
    push(out, trap_name(trap))
}

/// Yes or no.
pub fn push_answer(out: &mut Vec<u8>, answer: u8) -> Added
    ensures { OnOk result (out.new.items ≡ out.old.items ++ answer_text answer) }
{
    push(out, if answer == 0 { NO } else { YES })
}

/// A register and the value that it has.
pub fn push_read(out: &mut Vec<u8>, registers: &[Named], row: u8, index: u8, value: u32) -> Added
    ensures { OnOk result (out.new.items ≡ out.old.items ++ read_text (names registers.now) row index value) }
{
    push_row(out, registers, row)?;
    push_numbered(out, "[", u64::from(index))?;
    push_numbered(out, HAS_VALUE, u64::from(value))
}

/// The name of a row, or `r` and its number where it has none.
pub fn push_row(out: &mut Vec<u8>, registers: &[Named], row: u8) -> Added
    ensures { OnOk result (out.new.items ≡ out.old.items ++ row_text (names registers.now) row) }
{
    match registers.get(row as usize) {
        Some(named) => push_escaped(out, &named.name),
        None => push_numbered(out, "r", u64::from(row)),
    }
}

fn push_origin(out: &mut Vec<u8>, put: Option<usize>) -> Added
    ensures { OnOk result (out.new.items ≡ out.old.items ++ origin_text put) }
{
    match put {
        Some(at) => push_numbered(out, PUT_BY_MARK, at as u128 + 1),
        None => push(out, AS_AT_THE_START),
    }
}

/// Ranks of so many processes, each after a space.
pub fn push_ranks(out: &mut Vec<u8>, n: u8, ranks: &[u8]) -> Added
    ensures { OnOk result (out.new.items ≡ out.old.items ++ spaced (map decimal (take n ranks.now))) }
{
    let told = &ranks[..ranks.len().min(n as usize)];
    for &rank in told {
        push_numbered(out, " ", u64::from(rank))?;
    }
    Ok(())
}

fn push_held(out: &mut Vec<u8>, n: u8, held: Holdings) -> Added
    ensures { OnOk result (out.new.items ≡ out.old.items ++ held_text n held) }
{
    match held {
        Holdings::Tickets(tickets) => {
            push(out, TICKETS)?;
            push_tickets(out, n, &tickets)
        }
        Holdings::Labels(word) => {
            push(out, LABELS)?;
            push_labels(out, &word)
        }
    }
}

fn push_tickets(out: &mut Vec<u8>, n: u8, tickets: &[u64]) -> Added
    ensures { OnOk result (out.new.items ≡ out.old.items ++ spaced (map decimal (take n tickets.now))) }
{
    let told = &tickets[..tickets.len().min(n as usize)];
    for &ticket in told {
        push_numbered(out, " ", ticket)?;
    }
    Ok(())
}

/// The label of each process, after a space.
pub fn push_labels(out: &mut Vec<u8>, word: &LabelWord) -> Added
    ensures { OnOk result (out.new.items ≡ out.old.items ++ spaced (map label_text word.now)) }
{
    for process in 0..word.n() {
        push(out, " ")?;
        push_label(out, word, process)?;
    }
    Ok(())
}

/// The label of a process: its digits, a dash where it has none, a dot where the process is absent.
pub fn push_label(out: &mut Vec<u8>, word: &LabelWord, process: u8) -> Added
    requires { process < length word.now }
    ensures { OnOk result (out.new.items ≡ out.old.items ++ label_text (label_at word.now process)) }
{
    match word.label(process) {
        Some(label) => push_digits(out, &label),
        None => push(out, "."),
    }
}

fn push_digits(out: &mut Vec<u8>, label: &Label) -> Added
    ensures { OnOk result (out.new.items ≡ out.old.items ++ label_text (Some label.now)) }
{
    if label.is_empty() {
        return push(out, "-");
    }
    for i in 0..label.len() {
        push_number(out, u64::from(label.digit(i)))?;
    }
    Ok(())
}
