//! The programs that tests run, each with how many outcomes it has.
use code_machine::Code;
use std::alloc::Global;
use std::ops::Range;
use std::test::Fail;
use tests_shared::Checked;
use tick_lower::lower;

/// A program, how many instructions each process may make, how many values it may give out, and how many
/// outcomes there are, reckoned apart from this repository on whole-number tickets. Each of its processes
/// has a step on what is shared.
pub type Small = (&'static str, u64, u32, usize);

/// The code of the program.
pub fn code_of(alloc: Global, small: &Small) -> Result<Code, Fail> {
    Ok(lower(alloc, &Checked::new(alloc, small.0)?.program)?)
}

/// A place of `PROGRAMS`, and the seeds that the program there is tried with.
#[derive(Drop)]
pub struct Tried {
    place: usize,
    pub seeds: Range<u64>,
}

impl Tried {
    pub fn small(&self) -> &'static Small {
        &PROGRAMS[self.place % PROGRAMS.len()]
    }
}

/// Tries each program with so many seeds of its own. The first seed of all is given.
pub fn try_each<F: Fn(Tried) -> Result<(), Fail>>(
    first: u64,
    count: u64,
    tries: F,
) -> Result<(), Fail>
    requires { F.IsAlwaysCallable tries }
{
    let mut start = first;
    for place in 0..PROGRAMS.len() {
        let seeds = start..start.wrapping_add(count);
        tries(Tried { place, seeds })?;
        start = start.wrapping_add(count);
    }
    Ok(())
}

pub static PROGRAMS: [Small; 15] = [
    // both take a ticket, and compare
    (
        "processes 2; var x; scan s; begin stamp; s = scan; x = older s 0 1; out x; end",
        1_000,
        4,
        3,
    ),
    // who loses an exchange stamps again
    (
        "processes 2; var x; scan s; begin stamp; stamp; s = scan; x = older s me (1 - me); out x; end",
        1_000,
        4,
        3,
    ),
    // three take a ticket each, and one looks twice
    (
        "processes 3; var x; scan s; begin stamp; if (me == 0) { s = scan; x = older s 1 2; out x; \
        s = scan; x = older s 1 2; out x; } else { } end",
        1_000,
        4,
        4,
    ),
    // three take a ticket each, and another looks: it never sees them go round
    (
        "processes 4; var x; scan s; begin if (me < 3) { stamp; } else { s = scan; \
        x = older s 0 1; out x; x = older s 1 2; out x; x = older s 2 0; out x; } end",
        1_000,
        4,
        7,
    ),
    // a lock that each tries once: a flag, a ticket, and the other's flag and ticket
    (
        "processes 2; var x; scan s; reg r; begin put r 1; stamp; x = get r (1 - me); \
        if x { s = scan; x = older s (1 - me) me; } else { } if x { } else { out me; } put r 0; end",
        1_000,
        4,
        4,
    ),
    // each writes, and reads the other's: one of them sees it
    (
        "processes 2; var x; reg r; begin put r 1; x = get r (1 - me); out x; end",
        1_000,
        4,
        3,
    ),
    // a message, and the flag that it is there
    (
        "processes 2; var x; reg d, f; begin if me { x = get f 0; out x; x = get d 0; out x; } \
        else { put d 7; put f 1; } end",
        1_000,
        4,
        3,
    ),
    // two write, and two read both in turn: they see them in one order
    (
        "processes 4; var x; reg r; begin if (me < 2) { put r 1; } else { \
        x = get r (me - 2); out x; x = get r (3 - me); out x; } end",
        1_000,
        4,
        15,
    ),
    // each counts one further than the one before it
    (
        "processes 4; var x; reg r; begin if me { x = get r (me - 1); put r (x + 1); } \
        else { put r 1; } end",
        1_000,
        4,
        8,
    ),
    // who reads 0 traps
    (
        "processes 3; var x; reg r; begin put r 1; x = get r ((me + 1) % n); x = (5 % x); out x; end",
        1_000,
        4,
        7,
    ),
    // the turns are spent in the second round or in the third
    (
        "processes 2; var x; scan s; begin while 1 { stamp; s = scan; x = older s 0 1; out x; } end",
        24,
        4,
        31,
    ),
    // the outputs are full
    (
        "processes 3; var x; reg r; begin put r me; x = get r ((me + 1) % n); out x; \
        x = get r ((me + 2) % n); out x; end",
        1_000,
        1,
        4,
    ),
    // a lock that each tries once, by the other's ticket alone, and gives up by a clear
    (
        "processes 2; var w; scan s; begin stamp; s = scan; w = held s (1 - me); \
        if w { w = older s (1 - me) me; } else { } if w { } else { out me; } clear; end",
        1_000,
        4,
        3,
    ),
    // two come and go, and another looks twice
    (
        "processes 3; var x; scan s; begin if (me < 2) { stamp; clear; } else { \
        s = scan; x = held s 0; out x; x = held s 1; out x; \
        s = scan; x = held s 0; out x; x = held s 1; out x; x = older s 0 1; out x; } end",
        1_000,
        8,
        18,
    ),
    // each goes and comes back
    (
        "processes 2; var x; scan s; begin stamp; clear; stamp; s = scan; x = older s me (1 - me); out x; end",
        1_000,
        4,
        3,
    ),
];
