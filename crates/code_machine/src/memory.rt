ghost use Rattle.std.specs.Prelude.{◌≡◌, ◌<◌, ℕ, length, IfOk};
ghost use Rattle.base.specs.RegisterRows.{start_rows};
ghost use Rattle.word_core.specs.Stamps.{start_labels};
ghost use Rattle.word_core.specs.Packed.{AreLabels};
ghost use Rattle.code_machine.specs.Machine.{same_labels, reply_in, labels_by, rows_by};

use crate::ask::{Ask, Reply};
use base::{NoMemory, Registers};
use code_core::Sizes;
use std::alloc::Global;
use word_core::LabelWord;

/// What all processes share.
#[derive(Drop)]
pub struct CodeMemory {
    pub labels: LabelWord,
    pub registers: Registers,
}

impl CodeMemory {
    /// No process is present, and all registers are 0.
    pub fn new(alloc: Global, sizes: Sizes) -> Result<CodeMemory, NoMemory>
        ensures labels { IfOk result (λ shared. shared.labels ≡ start_labels sizes.processes) }
        ensures rows { IfOk result (λ shared. shared.registers ≡ start_rows sizes.rows sizes.processes) }
    {
        Ok(CodeMemory {
            labels: LabelWord::start(sizes.processes()),
            registers: Registers::new(alloc, sizes.registers(), sizes.processes())?,
        })
    }

    // Where the labels are the old ones, they become the new ones.
    fn exchange(&mut self, old: LabelWord, new: LabelWord) -> Reply
        requires { (n : ℕ) × AreLabels n self.old.labels × AreLabels n old }
        ensures reply { result ≡ reply_in self.old.labels self.old.registers (Ask.Exchange old new) }
        ensures labels { (p : ℕ) → self.new.labels ≡ labels_by p (Ask.Exchange old new) self.old.labels }
        ensures registers { self.new.registers ≡ self.old.registers }
    {
        if are_same(&self.labels, &old) {
            self.labels = new;
            Reply::Won
        } else {
            Reply::Lost(self.labels)
        }
    }

    /// Answers what process `p` asks for.
    pub fn serve(&mut self, p: u8, ask: Ask) -> Reply
        requires process { p < length self.old.labels }
        requires labels { (old : _) → (new : _) → ask ≡ Ask.Exchange old new → (n : ℕ) × AreLabels n self.old.labels × AreLabels n old }
        ensures reply { result ≡ reply_in self.old.labels self.old.registers ask }
        ensures labels { self.new.labels ≡ labels_by p ask self.old.labels }
        ensures rows { self.new.registers ≡ rows_by p ask self.old.registers }
    {
        match ask {
            Ask::LoadWord | Ask::Scan => Reply::Word(self.labels),
            Ask::Exchange(old, new) => self.exchange(old, new),
            Ask::Get(r, i) => Reply::Value(self.registers.get(r, i)),
            Ask::Put(r, value) => {
                self.registers.set(r, p, value);
                Reply::Written
            }
            Ask::Clear => {
                self.labels = self.labels.cleared(p);
                Reply::Cleared
            }
        }
    }
}

/// Whether these are the same labels.
pub fn are_same(labels: &LabelWord, others: &LabelWord) -> bool
    requires { (n : ℕ) × AreLabels n labels.now × AreLabels n others.now }
    ensures { result ≡ same_labels labels.now others.now }
{
    let _n = labels.n();
    *labels == *others
}
