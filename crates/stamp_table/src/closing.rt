// The end of a table.
ghost use Rattle.std.specs.Prelude.{◌≡◌, ◌+◌, ◌^◌, ◌<◌, ◌≤◌, ℕ, length, slice_index};
ghost use Rattle.std.specs.Mem.Slots.{slots_items, slots_len, IsFull};
ghost use Rattle.word_core.specs.History.{IsLegal, register_at};
ghost use Rattle.stamp_table.specs.Passes.{Holds, memory_seen};

use crate::pass::Pass;
use crate::registers::register_place;
use crate::table::StampTable;
use atomic_table::Closed;
use std::alloc::Global;
use std::marker::Model;
use word_core::LabelWord;

/// What stood in a table at its end: the label word and the registers.
#[derive(Drop)]
pub struct Final {
    n: u8,
    rows: u8,
    word: LabelWord,
    registers: [u32; 48],
}

impl Model for Final {
    ghost use Rattle.std.specs.Prelude.{◌≡◌, ◌≤◌, length};
    ghost use Rattle.word_core.specs.History.{Memory};
    ghost use Rattle.stamp_table.specs.prover.Closed.{rows_in};

    ghost Value = { Memory };

    ghost view = { λ f. record { labels = f.word; rows = rows_in f.rows f.n f.registers } };

    ghost invariant = { λ f. (f.n ≤ 6) × (f.rows ≤ 8) × (length f.word ≡ f.n) };
}

impl Final {
    /// The label word.
    pub fn word(&self) -> LabelWord
        ensures { result ≡ self.now.labels }
    {
        self.word
    }

    /// The register of process `i` in row `r`.
    pub fn register(&self, r: u8, i: u8) -> u32
        requires row { r < length self.now.rows }
        requires index { i < length self.now.labels }
        ensures { result ≡ register_at self.now.rows r i }
    {
        self.registers[register_place(self.n, r, i)]
    }
}

impl StampTable {
    /// What stands in the table once all its processes are in one pass: what their steps leave.
    pub fn close(self, pass: Pass) -> Final
        requires here { pass.table ≡ self }
        requires all { (p : ℕ) → p < self.n → Holds pass.held p }
        ensures memory { result ≡ memory_seen pass }
        ensures legal { IsLegal self.n self.rows pass.seen }
        ensures processes { length result.labels ≡ self.n }
        ensures rows { length result.rows ≡ self.rows }
    {
        let StampTable { table, n, rows } = self;
        let closed = table.close_with(pass.seat);
        let word = LabelWord::from_bits(n, closed.word(0));
        let registers = copied(&closed, rows as usize * n as usize);
        closed.free();
        Final {
            n,
            rows,
            word,
            registers,
        }
    }
}

// The first registers, and 0 past them.
fn copied(closed: &Closed<u8, Global>, count: usize) -> [u32; 48]
    requires few { count ≤ 48 }
    requires long { slots_len closed.now.words ≡ 1 + count }
    requires full { IsFull closed.now.words }
    requires small { (k : ℕ) → k < count → slice_index (slots_items closed.now.words) (1 + k) < 2 ^ 32 }
    ensures len { length result ≡ 48 }
    ensures copied { (k : ℕ) → k < count → slice_index result k ≡ slice_index (slots_items closed.now.words) (1 + k) }
{
    let mut registers = [0; 48];
    for k in 0..count {
        registers[k] = closed.word(1 + k) as u32;
    }
    registers
}
