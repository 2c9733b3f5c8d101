//! A way: a schedule, and what goes on behind it for ever.
ghost use Rattle.std.specs.Prelude.{◌≡◌, ◌<◌, ◌++◌, All, IfErr, IfOk, string_bytes};
ghost use Rattle.ticklab_files.specs.Stops.{IfRefused};
ghost use Rattle.ticklab_files.specs.Ways.{AreMisspelled, AreSpelled, alone, held};

use crate::reading::schedule_of;
use crate::stop::NoAnswer;
use base::NoMemory;
use std::alloc::Global;

/// The texts of a schedule, of the steps that lead on from where it ends, and of those that repeat for ever. A schedule
/// alone has no such steps.
#[derive(Drop)]
pub struct ScheduleTexts {
    pub schedule: String,
    pub lead_in: String,
    pub cycle: String,
}

/// The steps of a way, by their processes.
#[derive(Drop)]
pub struct Way {
    pub schedule: Vec<u8>,
    pub lead_in: Vec<u8>,
    pub cycle: Vec<u8>,
}

/// The steps of so many processes that the texts spell; `from` says where they are from.
pub fn way_of(alloc: Global, from: &str, texts: &ScheduleTexts, n: u8) -> Result<Way, NoAnswer>
    ensures ok { IfOk result (λ way. AreSpelled n (held texts.now) way.schedule.items way.lead_in.items way.cycle.items) }
    ensures schedule { IfOk result (λ way. All (λ p. p < n) way.schedule.items) }
    ensures lead_in { IfOk result (λ way. All (λ p. p < n) way.lead_in.items) }
    ensures cycle { IfOk result (λ way. All (λ p. p < n) way.cycle.items) }
    ensures refused { IfErr result (λ stop. IfRefused stop (AreMisspelled n from.now (held texts.now))) }
{
    let schedule = schedule_of(alloc, from, &texts.schedule, n)?;
    let lead_in = schedule_of(alloc, from, &texts.lead_in, n)?;
    let cycle = schedule_of(alloc, from, &texts.cycle, n)?;
    Ok(Way {
        schedule,
        lead_in,
        cycle,
    })
}

impl Way {
    /// All steps, one after the other.
    pub fn steps(self) -> Result<Vec<u8>, NoMemory>
        ensures value { IfOk result (λ all. all.items ≡ self.schedule.items ++ self.lead_in.items ++ self.cycle.items) }
    {
        let mut all = self.schedule;
        all.extend_from_slice(self.lead_in.as_slice())?;
        all.extend_from_slice(self.cycle.as_slice())?;
        Ok(all)
    }

    /// The steps before those that repeat, and these.
    pub fn divided(self) -> Result<(Vec<u8>, Vec<u8>), NoMemory>
        ensures value { IfOk result (λ both. both.0.items ≡ self.schedule.items ++ self.lead_in.items) }
        ensures cycle { IfOk result (λ both. both.1.items ≡ self.cycle.items) }
    {
        let mut before = self.schedule;
        before.extend_from_slice(self.lead_in.as_slice())?;
        Ok((before, self.cycle))
    }
}

/// A schedule alone.
pub fn alone(alloc: Global, schedule: String) -> ScheduleTexts
    ensures { held result ≡ alone (string_bytes schedule) }
{
    ScheduleTexts {
        schedule,
        lead_in: String::new(alloc),
        cycle: String::new(alloc),
    }
}
