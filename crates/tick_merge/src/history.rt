// What a history says of the label word and the registers while `merge` goes through it.

ghost use Rattle.std.specs.Prelude.{◌≡◌, ◌↔◌, ◌<◌, IsTrue};
ghost use Rattle.word_core.specs.History.{MayFollow, Answers};
ghost use Rattle.code_machine.specs.Safety.{AreOrdered, IsLawful};
ghost use Rattle.tick_merge.specs.Ran.{act_by};
ghost use Rattle.tick_merge.specs.prover.Held.{memory_held};

use code_core::Sizes;
use code_machine::{Ask, CodeMemory, are_same};
use word_core::{Shared, SharedAct};

/// Whether the step can come next.
pub fn may_follow(words: &CodeMemory, sizes: Sizes, step: Shared) -> bool
    requires { AreOrdered sizes.processes words.now.labels }
    ensures { IsTrue result ↔ MayFollow sizes.processes sizes.rows (memory_held words.now) step }
{
    step.process < sizes.processes() && answers(words, sizes, step.process, step.act)
}

// Whether what is shared answers an act of process `p` so.
fn answers(words: &CodeMemory, sizes: Sizes, p: u8, act: SharedAct) -> bool
    requires labels { AreOrdered sizes.processes words.now.labels }
    requires in_range { p < sizes.processes }
    ensures { IsTrue result ↔ Answers sizes.processes sizes.rows (memory_held words.now) p act }
{
    match act {
        SharedAct::Load(found) => found == words.labels.bits(),
        SharedAct::Won(old, new) => {
            old == words.labels.bits() && new == words.labels.stamped(p).bits()
        }
        SharedAct::Lost(old, found) => found == words.labels.bits() && found != old,
        SharedAct::Read(r, i, v) => {
            r < sizes.registers() && i < sizes.processes() && v == words.registers.get(r, i)
        }
        SharedAct::Write(r, _) => r < sizes.registers(),
        SharedAct::Clear(old) => old == words.labels.bits(),
    }
}

/// What becomes of an ask.
pub fn act_for(words: &CodeMemory, ask: Ask) -> SharedAct
    requires { (sizes : _) × (p : _) × AreOrdered sizes.processes words.now.labels × IsLawful sizes p ask }
    ensures { result ≡ act_by (memory_held words.now) ask }
{
    match ask {
        Ask::LoadWord | Ask::Scan => SharedAct::Load(words.labels.bits()),
        Ask::Exchange(old, new) => {
            if are_same(&words.labels, &old) {
                SharedAct::Won(old.bits(), new.bits())
            } else {
                SharedAct::Lost(old.bits(), words.labels.bits())
            }
        }
        Ask::Get(r, i) => SharedAct::Read(r, i, words.registers.get(r, i)),
        Ask::Put(r, v) => SharedAct::Write(r, v),
        Ask::Clear => SharedAct::Clear(words.labels.bits()),
    }
}
