// One process: the instructions that it makes alone, and then its next step on what is shared.

ghost use Rattle.std.specs.Prelude.{◌≡◌, ◌≤◌, ◌++◌, ◌↔◌, OnOk, IfOk, IsTrue, Some, replicate};
ghost use Rattle.std.specs.Bool.{OnTrue};
ghost use Rattle.code_machine.specs.Machine.{made, labels_left, rows_left};
ghost use Rattle.code_machine.specs.Process.{IsOf, next_of};
ghost use Rattle.code_machine.specs.Safety.{AreOrdered};
ghost use Rattle.tick_merge.specs.Merged.{alone_for};
ghost use Rattle.tick_merge.specs.prover.Held.{memory_held, after_alone, act_next};

use crate::history::act_for;
use code_core::Code;
use code_machine::{Advance, CodeMemory, Proc};
use std::alloc::AllocFailed;
use word_core::SharedAct;

/// Makes what process `p` makes alone, at most `most` instructions, and schedules each. Tells how many.
pub fn go_alone(
    code: &Code,
    proc: &mut Proc,
    p: u8,
    most: u64,
    schedule: &mut Vec<u8>,
) -> Result<u64, AllocFailed<u8>>
    requires of { IsOf code.now proc.old }
    requires me { proc.old.me ≡ p }
    ensures count { IfOk result (λ count. count ≡ alone_for code.now.sizes.processes code.now.instructions p most proc.old.process) }
    ensures few { IfOk result (λ count. count ≤ most) }
    ensures process { OnOk result (proc.new.process ≡ after_alone code.now.sizes.processes code.now.instructions p most proc.old.process) }
    ensures schedule { IfOk result (λ count. schedule.new.items ≡ schedule.old.items ++ replicate count p) }
    ensures of { IsOf code.now proc.new }
    ensures me { proc.new.me ≡ p }
{
    for count in 0..most {
        match proc.advance(code) {
            Advance::Silent | Advance::Did(_) => schedule.push(p)?,
            Advance::Ask(_) | Advance::Stopped => return Ok(count),
        }
    }
    Ok(most)
}

/// Makes the next instruction of process `p` where it is this act on what is shared.
pub fn makes_act(
    code: &Code,
    words: &mut CodeMemory,
    proc: &mut Proc,
    p: u8,
    act: SharedAct,
) -> bool
    requires of { IsOf code.now proc.old }
    requires me { proc.old.me ≡ p }
    requires labels { AreOrdered code.now.sizes.processes words.old.labels }
    ensures made { IsTrue result ↔ (act_next proc.old.process.status (memory_held words.old) (next_of code.now proc.old) ≡ Some act) }
    ensures process { OnTrue result (proc.new.process ≡ (made words.old.labels words.old.registers (next_of code.now proc.old)).process) }
    ensures labels { OnTrue result (words.new.labels ≡ labels_left p (next_of code.now proc.old) words.old.labels) }
    ensures rows { OnTrue result (words.new.registers ≡ rows_left p (next_of code.now proc.old) words.old.registers) }
    ensures of { IsOf code.now proc.new }
    ensures me { proc.new.me ≡ p }
{
    let Advance::Ask(ask) = proc.advance(code) else {
        return false;
    };
    let asked = ask;
    if !is_act(act_for(words, asked), act) {
        return false;
    }
    let reply = words.serve(p, ask);
    proc.answer(code, reply);
    true
}

fn is_act(found: SharedAct, wanted: SharedAct) -> bool
    ensures { IsTrue result ↔ (found ≡ wanted) }
{
    found == wanted
}
