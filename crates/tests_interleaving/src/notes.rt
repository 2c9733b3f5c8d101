//! What gates were told, step by step in order.

use code_machine::Ask;
use std::sync::atomic::AtomicU64;
use std::sync::atomic::Ordering::SeqCst;

/// What a process asked for, with words as their bits.
#[derive(Clone, Copy)]
pub enum Asked {
    Load,
    Exchange(u64, u64),
    Get(u8, u8),
    Put(u8, u32),
    Clear,
}

// Each ask has a number here, since a gate can hand on numbers alone.
const LOAD: u64 = 1;

const EXCHANGE: u64 = 2;

const GET: u64 = 3;

const PUT: u64 = 4;

const CLEAR: u64 = 5;

// What was written as a byte, and as a register.
fn byte_of(number: u64) -> u8 {
    (number % 256) as u8
}

fn register_of(number: u64) -> u32 {
    (number % 4_294_967_296) as u32
}

/// Room for what was asked for at one step.
#[derive(Drop)]
pub struct Note {
    kind: AtomicU64,
    first: AtomicU64,
    second: AtomicU64,
}

impl Note {
    pub fn new() -> Note {
        Note {
            kind: AtomicU64::new(0),
            first: AtomicU64::new(0),
            second: AtomicU64::new(0),
        }
    }

    fn put(&self, kind: u64, first: u64, second: u64) {
        self.first.store(first, SeqCst);
        self.second.store(second, SeqCst);
        self.kind.store(kind, SeqCst);
    }

    pub fn take(&self, ask: Ask) {
        match ask {
            Ask::LoadWord | Ask::Scan => self.put(LOAD, 0, 0),
            Ask::Exchange(old, new) => self.put(EXCHANGE, old.bits(), new.bits()),
            Ask::Get(r, i) => self.put(GET, u64::from(r), u64::from(i)),
            Ask::Put(r, value) => self.put(PUT, u64::from(r), u64::from(value)),
            Ask::Clear => self.put(CLEAR, 0, 0),
        }
    }

    /// What was noted, if anything was.
    pub fn asked(&self) -> Option<Asked> {
        let first = self.first.load(SeqCst);
        let second = self.second.load(SeqCst);
        match self.kind.load(SeqCst) {
            LOAD => Some(Asked::Load),
            EXCHANGE => Some(Asked::Exchange(first, second)),
            GET => Some(Asked::Get(byte_of(first), byte_of(second))),
            PUT => Some(Asked::Put(byte_of(first), register_of(second))),
            CLEAR => Some(Asked::Clear),
            _ => None,
        }
    }
}
