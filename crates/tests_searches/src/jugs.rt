//! Two jugs that hold three and five: to measure four takes six steps and no fewer. Two jugs that hold even
//! numbers never measure five.
ghost use Rattle.std.specs.Prelude.{◌≡◌, ◌<◌, ◌≤◌, ◌==◌, ◌||◌, ℕ, false, length, nat_lt, if◌then◌else◌, slice_index};
ghost use Rattle.tests_searches.specs.Machines.{poured, nobody_else, none_stops};

use searches_states::{Limits, Machine, NoMemory, Unwatched, Verdict, search};
use std::alloc::Global;
use std::test::Fail;
use tests_shared::is_same;

#[derive(Clone, Copy, Debug)]
struct Jugs {
    left: u32,
    right: u32,
    measured: u32,
}

impl Machine for Jugs {
    ghost Value = { ℕ × ℕ };

    ghost view = { λ machine words. (slice_index words 0, slice_index words 1) };

    ghost fits = { λ machine words. (length words ≡ 2) × (slice_index words 0 ≤ machine.left) × (slice_index words 1 ≤ machine.right) };

    ghost processes = { λ machine. 6 };

    ghost shared_words = { λ machine. 2 };

    ghost own_words = { λ machine. 0 };

    ghost next = { λ machine p jugs. if nat_lt p 6 then poured machine.left machine.right p jugs else jugs };

    ghost bad = { λ machine jugs. (jugs.0 == machine.measured) || (jugs.1 == machine.measured) };

    ghost stopped = { λ machine p value. false };

    ghost fits_whole = { λ machine words fits. fits.0 };

    ghost others_idle = { λ machine p jugs idle. nobody_else 6 p (poured machine.left machine.right p jugs) jugs idle };

    ghost stays_stopped = { λ machine p q value stopped. stopped };

    ghost stopped_idle = { λ machine p state fits stopped. none_stops stopped };

    fn processes(&self) -> u8 {
        6
    }

    fn shared_words(&self) -> u16 {
        2
    }

    fn own_words(&self) -> u16 {
        0
    }

    fn step(&self, jugs: &mut [u32], process: u8) {
        let (left, right) = (jugs[0], jugs[1]);
        let to_right = left.min(self.right - right);
        let to_left = right.min(self.left - left);
        let (left, right) = match process {
            0 => (self.left, right),
            1 => (left, self.right),
            2 => (0, right),
            3 => (left, 0),
            4 => (left - to_right, right + to_right),
            _ => (left + to_left, right - to_left),
        };
        jugs[0] = left;
        jugs[1] = right;
    }

    fn is_bad(&self, jugs: &[u32]) -> bool {
        jugs[0] == self.measured || jugs[1] == self.measured
    }

    fn is_bad_beside(&self, _before: &[u32], after: &[u32]) -> bool {
        self.is_bad(after)
    }

    fn has_stopped(&self, _jugs: &[u32], _process: u8) -> bool {
        false
    }
}

// What is found of jugs that hold so much, of which one is to have so much.
fn measured(
    alloc: Global,
    measured: u32,
    left: u32,
    right: u32,
) -> Result<Verdict<Vec<u8>, ()>, NoMemory> {
    let jugs = Jugs {
        left,
        right,
        measured,
    };
    search(
        alloc,
        &jugs,
        &[0, 0],
        Limits::of_states(100),
        &mut Unwatched,
    )
}

#[test]
fn four_of_three_and_five(rt: HostRuntime) -> Result<(), Fail> {
    let schedule = Vec::from_slice(rt.alloc(), &[1, 5, 2, 5, 1, 5])?;
    let found = Verdict::Found {
        states: 13,
        found: schedule,
    };
    is_same(&measured(rt.alloc(), 4, 3, 5)?, &found)
}

#[test]
fn five_of_four_and_six(rt: HostRuntime) -> Result<(), Fail> {
    let nowhere = Verdict::Nowhere {
        states: 10,
        known: (),
    };
    is_same(&measured(rt.alloc(), 5, 4, 6)?, &nowhere)
}
