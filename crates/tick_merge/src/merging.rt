// Goes through a history, and leads its processes from step to step.

ghost use Rattle.std.specs.Prelude.{◌≡◌, ◌<◌, ℕ, List, [], IfOk, IfErr, OnOk, length};
ghost use Rattle.word_core.specs.History.{IsLegal, MayFollow};
ghost use Rattle.word_core.specs.declared.history.Shared.{Shared};
ghost use Rattle.tick_merge.specs.Laws.{AllMake};
ghost use Rattle.tick_merge.specs.Merged.{merged, IsMerged};
ghost use Rattle.tick_merge.specs.Refusals.{IsFault};
ghost use Rattle.tick_merge.specs.declared.fault.MergeFault.TheVariants.{NoMemory};
ghost use Rattle.tick_merge.specs.prover.Held.{memory_held};
ghost use Rattle.tick_merge.specs.prover.Reached.{Reached, IsLed, StepTaken, ProcessSpent, AllTaken, AllSpent};

use crate::fault::MergeFault;
use crate::history::may_follow;
use crate::process::{go_alone, makes_act};
use code_core::Code;
use code_machine::{CodeMemory, Proc};
use std::alloc::Global;
use word_core::Shared;

// How far a history was gone through: what is shared, each process, how many instructions are left to
// it, and the schedule.
#[derive(Drop)]
struct Merging {
    words: CodeMemory,
    processes: Vec<Proc>,
    left: Vec<u64>,
    schedule: Vec<u8>,
}

impl Merging {
    // Before the first step.
    fn new(alloc: Global, code: &Code, turns: &[u64]) -> Result<Merging, MergeFault>
        requires { length turns.now ≡ code.now.sizes.processes }
        ensures ok { IfOk result (Reached code.now turns.now []) }
        ensures empty { IfOk result (λ merging. merging.schedule.items ≡ []) }
        ensures err { IfErr result (λ fault. fault ≡ NoMemory) }
    {
        let sizes = code.sizes();
        let words = CodeMemory::new(alloc, sizes)?;
        let mut processes = Vec::new(alloc);
        for p in 0..sizes.processes() {
            let process = Proc::at_start(alloc, code, p)?;
            processes.push(process)?;
        }
        let left = Vec::from_slice(alloc, turns)?;
        let schedule = Vec::new(alloc);
        Ok(Merging {
            words,
            processes,
            left,
            schedule,
        })
    }

    // Lets process `p` make what it makes alone; tells how many instructions are left to it then.
    fn lead(&mut self, code: &Code, p: u8) -> Result<u64, MergeFault>
        requires reached { (turns : List ℕ) × (history : List Shared) × Reached code.now turns history self.old }
        requires in_range { p < code.now.sizes.processes }
        ensures led { (turns : List ℕ) (history : List Shared) → Reached code.now turns history self.old → IfOk result (IsLed code.now turns history p self.old self.new) }
        ensures err { IfErr result (λ fault. fault ≡ NoMemory) }
    {
        let most = self.left[p as usize];
        let process = &mut self.processes[p as usize];
        let alone = go_alone(code, process, p, most, &mut self.schedule)?;
        let left = most - alone;
        self.left[p as usize] = left;
        Ok(left)
    }

    // Leads the process of a step that can come next to it, and makes it; tells whether that can be.
    fn take_step(&mut self, code: &Code, step: Shared) -> Result<bool, MergeFault>
        requires reached { (turns : List ℕ) × (history : List Shared) × Reached code.now turns history self.old }
        requires in_range { step.process < code.now.sizes.processes }
        ensures ok { (turns : List ℕ) (history : List Shared) → Reached code.now turns history self.old → MayFollow code.now.sizes.processes code.now.sizes.rows (memory_held self.old.words) step → IfOk result (StepTaken code.now turns history step self.old self.new) }
        ensures err { IfErr result (λ fault. fault ≡ NoMemory) }
    {
        let p = step.process;
        let left = self.lead(code, p)?;
        if left == 0 {
            return Ok(false);
        }
        let process = &mut self.processes[p as usize];
        if !makes_act(code, &mut self.words, process, p, step.act) {
            return Ok(false);
        }
        self.schedule.push(p)?;
        self.left[p as usize] = left - 1;
        Ok(true)
    }

    // Leads process `p` to the end of its instructions; tells whether that can be.
    fn spend(&mut self, code: &Code, p: u8) -> Result<bool, MergeFault>
        requires reached { (turns : List ℕ) × (history : List Shared) × Reached code.now turns history self.old }
        requires in_range { p < code.now.sizes.processes }
        ensures ok { (turns : List ℕ) (history : List Shared) → Reached code.now turns history self.old → IfOk result (ProcessSpent code.now turns history p self.old self.new) }
        ensures err { IfErr result (λ fault. fault ≡ NoMemory) }
    {
        let left = self.lead(code, p)?;
        Ok(left == 0)
    }

    // Goes through the whole history.
    fn take_all(&mut self, code: &Code, history: &[Shared]) -> Result<(), MergeFault>
        requires reached { (turns : List ℕ) × Reached code.now turns [] self.old }
        requires empty { self.old.schedule.items ≡ [] }
        ensures ok { (turns : List ℕ) → Reached code.now turns [] self.old → OnOk result (AllTaken code.now turns history.now self.new) }
        ensures err { (turns : List ℕ) → Reached code.now turns [] self.old → IfErr result (IsFault code.now turns history.now) }
    {
        let sizes = code.sizes();
        for (place, step) in history.iter().enumerate() {
            if !may_follow(&self.words, sizes, *step) {
                return Err(MergeFault::NotLegal(place));
            }
            if !self.take_step(code, *step)? {
                return Err(MergeFault::NotThisCode(step.process, place));
            }
        }
        Ok(())
    }

    // Leads each process to the end of its instructions, after a history of so many steps.
    fn spend_all(&mut self, code: &Code, steps: usize) -> Result<(), MergeFault>
        requires taken { (turns : List ℕ) × (history : List Shared) × AllTaken code.now turns history self.old }
        ensures ok { (turns : List ℕ) (history : List Shared) → AllTaken code.now turns history self.old → OnOk result (AllSpent code.now turns history self.new) }
        ensures err { (turns : List ℕ) (history : List Shared) → AllTaken code.now turns history self.old → length history ≡ steps → IfErr result (IsFault code.now turns history) }
    {
        for p in 0..code.sizes().processes() {
            if !self.spend(code, p)? {
                return Err(MergeFault::NotThisCode(p, steps));
            }
        }
        Ok(())
    }
}

/// The schedule under which the code makes just the steps of this history, in its order, and each
/// process its number of instructions: before each step its process makes what it makes alone, and after
/// the last each process, in order of number, makes the rest of its instructions.
pub fn merge(
    alloc: Global,
    code: &Code,
    history: &[Shared],
    turns: &[u64],
) -> Result<Vec<u8>, MergeFault>
    requires { length turns.now ≡ code.now.sizes.processes }
    ensures legal { OnOk result (IsLegal code.now.sizes.processes code.now.sizes.rows history.now) }
    ensures makes { OnOk result (AllMake code.now turns.now history.now) }
    ensures merged { IfOk result (λ schedule. schedule.items ≡ merged code.now turns.now history.now) }
    ensures whole { IfOk result (λ schedule. IsMerged code.now turns.now history.now schedule.items) }
    ensures err { IfErr result (IsFault code.now turns.now history.now) }
{
    let mut merging = Merging::new(alloc, code, turns)?;
    merging.take_all(code, history)?;
    merging.spend_all(code, history.len())?;
    Ok(merging.schedule)
}
