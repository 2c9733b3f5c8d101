ghost use Rattle.std.specs.Prelude.{◌≡◌, ◌<◌, ◌≤◌, IfOk};
ghost use Rattle.std.specs.List.{All};
ghost use Rattle.searches_hunt.specs.Draws.{chosen, more_steps, next_drawing, start_drawing, drawn};

use crate::plan::{Mode, Plan};
use base::NoMemory;
use rand_core::utils::NextWord;
use rand_pcg::Pcg32;
use std::alloc::Global;

/// Where the drawing of a schedule stands: the process that made the last step, how many more it makes
/// at once, and the generator.
#[derive(Drop)]
pub struct ScheduleDraw {
    pub process: u8,
    pub more: u32,
    pub generator: Pcg32,
}

// The process of `n` that a word stands for: the word is a part of 2^32, and this is that part of `n`.
fn chosen(n: u8, word: u32) -> u8
    requires some { 1 ≤ n }
    requires few { n ≤ 6 }
    ensures chosen { result ≡ chosen n word }
    ensures process { result < n }
{
    ((u64::from(word) * u64::from(n)) >> 32) as u8
}

// How many more steps the process makes.
fn more_steps(mode: Mode, word: u32) -> u32
    ensures { result ≡ more_steps mode word }
{
    match mode {
        Mode::Bursts => word % 16,
        Mode::Uniform => 0,
    }
}

impl ScheduleDraw {
    /// Before the first step of this run.
    pub fn new(seed: u64, run: u32) -> ScheduleDraw
        ensures start { result ≡ start_drawing seed run }
        ensures process { result.process ≡ 0 }
    {
        ScheduleDraw {
            process: 0,
            more: 0,
            generator: Pcg32::new(seed, u64::from(run)),
        }
    }

    /// The process that makes the next step, of `n`.
    pub fn step(&mut self, mode: Mode, n: u8) -> u8
        requires few { n ≤ 6 }
        requires process { self.old.process < n }
        ensures drawn { self.new ≡ next_drawing mode n self.old }
        ensures process { self.new.process < n }
        ensures result { result ≡ self.new.process }
    {
        if self.more > 0 {
            self.more -= 1;
        } else {
            let word = self.generator.next_word();
            self.process = chosen(n, word);
            self.more = more_steps(mode, word);
        }
        self.process
    }
}

/// The processes of the first steps of a run.
pub fn draw(alloc: Global, plan: Plan, n: u8, run: u32, steps: u32) -> Result<Vec<u8>, NoMemory>
    requires some { 1 ≤ n }
    requires few { n ≤ 6 }
    ensures drawn { IfOk result (λ s. s.items ≡ drawn plan.mode n steps (start_drawing plan.seed run)) }
    ensures lawful { IfOk result (λ s. All (λ p. p < n) s.items) }
{
    let mut drawing = ScheduleDraw::new(plan.seed, run);
    let mut schedule = Vec::with_capacity(alloc, steps as usize)?;
    for _ in 0..steps {
        let p = drawing.step(plan.mode, n);
        schedule.push(p)?;
    }
    Ok(schedule)
}
