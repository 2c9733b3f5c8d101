//! What processes asked for, in the order of the steps, as a history. What each step found is computed from a
//! word and registers alone.

use crate::notes::{Asked, Note};
use std::alloc::Global;
use std::test::Fail;
use tick_merge::{Shared, SharedAct};

const MOST_PROCESSES: usize = 6;

const MOST_ROWS: usize = 8;

// The bits of each process in a word: its label and its presence.
static BITS: [u64; MOST_PROCESSES] = [
    0x0001_0000_0000_00ff,
    0x0002_0000_0000_ff00,
    0x0004_0000_00ff_0000,
    0x0008_0000_ff00_0000,
    0x0010_00ff_0000_0000,
    0x0020_ff00_0000_0000,
];

// What is shared. A row that there isn't has zeros.
#[derive(Drop)]
struct Found {
    word: u64,
    rows: [[u32; MOST_PROCESSES]; MOST_ROWS],
}

impl Found {
    fn register(&mut self, r: u8, i: u8) -> Option<&mut u32> {
        self.rows.get_mut(r as usize)?.get_mut(i as usize)
    }

    fn exchange(&mut self, old: u64, new: u64) -> SharedAct {
        if self.word != old {
            return SharedAct::Lost(old, self.word);
        }
        self.word = new;
        SharedAct::Won(old, new)
    }

    fn clear(&mut self, p: u8) -> SharedAct {
        let old = self.word;
        if let Some(bits) = BITS.get(p as usize) {
            self.word = old & !*bits;
        }
        SharedAct::Clear(old)
    }

    fn get(&mut self, r: u8, i: u8) -> SharedAct {
        let value = match self.register(r, i) {
            Some(value) => *value,
            None => 0,
        };
        SharedAct::Read(r, i, value)
    }

    fn put(&mut self, p: u8, r: u8, value: u32) -> SharedAct {
        if let Some(own) = self.register(r, p) {
            *own = value;
        }
        SharedAct::Write(r, value)
    }

    // What process `p` finds, or leaves.
    fn act(&mut self, p: u8, asked: Asked) -> SharedAct {
        match asked {
            Asked::Load => SharedAct::Load(self.word),
            Asked::Exchange(old, new) => self.exchange(old, new),
            Asked::Get(r, i) => self.get(r, i),
            Asked::Put(r, value) => self.put(p, r, value),
            Asked::Clear => self.clear(p),
        }
    }
}

/// The steps of these processes, each with what its gate noted.
pub fn history_of(alloc: Global, order: &[u8], notes: &[Note]) -> Result<Vec<Shared>, Fail> {
    let mut found = Found {
        word: 0,
        rows: [[0; MOST_PROCESSES]; MOST_ROWS],
    };
    let mut history = Vec::new(alloc);
    for (process, note) in order.iter().zip(notes.iter()) {
        let Some(asked) = note.asked() else {
            return Err(Fail::from("a step that no gate noted"));
        };
        let act = found.act(*process, asked);
        history.push(Shared {
            process: *process,
            act,
        })?;
    }
    Ok(history)
}
