ghost use Rattle.std.specs.Prelude.{◌≡◌, ◌≤◌, ◌<◌, ◌+◌, [], length, OnOk, IfErr, IfOk};
ghost use Rattle.code_core.specs.Heights.{placed};
ghost use Rattle.code_core.specs.Verified.{first_fault};
ghost use Rattle.code_core.specs.prover.Passing.{Passing, noted_to, noted};

use crate::fault::CodeFault;
use crate::faults::fault_at;
use crate::heights::{hands_on, height_by, left, target};
use crate::instr::Instr;
use crate::sizes::Sizes;
use std::alloc::Global;

/// What is known once the first places of a code were passed.
#[derive(Drop)]
pub struct Verifier {
    // The height of each place that was passed; of each one ahead, what the first jump to it left.
    pub heights: Vec<Option<u16>>,
    // What the last instruction hands on to the next place.
    pub before: Option<u16>,
    pub greatest: u16,
}

// What is known of the height of the place to which an instruction jumps.
fn known_to(heights: &[Option<u16>], to: Option<u16>) -> Option<u16>
    ensures { result ≡ noted_to heights.now to }
{
    match to {
        Some(place) => match heights.get(usize::from(place)) {
            Some(known) => *known,
            None => None,
        },
        None => None,
    }
}

// A jump leaves this height to the place, where nothing was known of it.
fn note(heights: &mut [Option<u16>], to: Option<u16>, left: u16)
    ensures { heights.new ≡ noted heights.old to left }
{
    if let Some(place) = to {
        let at = usize::from(place);
        if at < heights.len() {
            heights[at] = Some(heights[at].unwrap_or(left));
        }
    }
}

impl Verifier {
    /// No place was passed yet.
    pub fn new(alloc: Global, sizes: Sizes, code: &[Instr]) -> Result<Verifier, CodeFault>
        ensures ok { IfOk result (λ pass. Passing sizes code.now 0 pass.heights.items pass.before pass.greatest) }
        ensures err { IfErr result (λ fault. fault ≡ CodeFault.NoMemory) }
    {
        Ok(Verifier {
            heights: vec![in alloc; None; code.len()]?,
            before: Some(0),
            greatest: 0,
        })
    }

    /// Passes the next place, unless it has a fault.
    pub fn step(&mut self, sizes: Sizes, code: &[Instr], place: u16) -> Result<(), CodeFault>
        requires few { length code.now ≤ 65535 }
        requires inside { place < length code.now }
        requires passing { Passing sizes code.now place self.old.heights.items self.old.before self.old.greatest }
        ensures ok { OnOk result (Passing sizes code.now (place + 1) self.new.heights.items self.new.before self.new.greatest) }
        ensures err { IfErr result (λ fault. first_fault sizes code.now [] (placed code.now) ≡ Some fault) }
    {
        let instruction = code[usize::from(place)];
        let came = self.heights[usize::from(place)];
        let height = height_by(self.before, came);
        self.heights[usize::from(place)] = Some(height);
        let there = known_to(&self.heights, target(instruction));
        if let Some(fault) = fault_at(sizes, code, place, instruction, height, came, there) {
            return Err(fault);
        }
        let left = left(instruction, height);
        note(&mut self.heights, target(instruction), left);
        self.before = hands_on(instruction, height);
        self.greatest = self.greatest.max(height);
        Ok(())
    }
}
