//! The steps of a schedule with which a process looked in vain (`vain_looks`).
ghost use Rattle.std.specs.Prelude.{◌<◌, length, IfSome};
ghost use Rattle.std.specs.List.{All};
ghost use Rattle.tick_kinds.specs.Resolution.{resolved};

use base::{Act, Event, NoMemory, set_at};
use std::alloc::Global;
use tick_kinds::Program;
use tick_source::SourceMachine;

/// What a process looks at.
#[derive(Clone, Copy, PartialEq, Eq, Drop)]
enum LookedAt {
    Register { row: u8, process: u8 },
    Tickets,
}

/// What a step has to do with others: it looks at what they share, it may change it, or neither.
#[derive(Clone, Copy, Drop)]
enum Effect {
    Looks(LookedAt),
    Changes,
    Neither,
}

fn done_by(event: Option<&Event>) -> Effect {
    let Some(event) = event else {
        return Effect::Neither;
    };
    match event.act {
        Act::Get(row, process, _) => Effect::Looks(LookedAt::Register { row, process }),
        Act::Scan(_) => Effect::Looks(LookedAt::Tickets),
        Act::Put(_, _) => Effect::Changes,
        Act::Stamp => Effect::Changes,
        Act::Clear => Effect::Changes,
        _ => Effect::Neither,
    }
}

/// The steps of a process since it last changed what is shared.
#[derive(Drop)]
struct Since {
    /// Their places in the schedule.
    places: Vec<usize>,
    /// What it looked at, and how many of the steps came before that.
    looks: Vec<(LookedAt, usize)>,
}

// Where among the looks there is one at the same.
fn look_at(looks: &[(LookedAt, usize)], look: LookedAt) -> Option<usize>
    ensures { IfSome result (λ at. at < length looks.now) }
{
    for at in 0..looks.len() {
        if looks[at].0 == look {
            return Some(at);
        }
    }
    None
}

impl Since {
    // Where the process has looked at the same, it did so in vain: it marks the steps from then on, and forgets them.
    fn look_again(&mut self, look: LookedAt, vain: &mut [bool]) {
        let Some(at) = look_at(&self.looks, look) else {
            return;
        };
        let first = self.looks[at].1;
        for i in first..self.places.len() {
            set_at(vain, self.places[i], true);
        }
        self.places.truncate(first);
        self.looks.truncate(at);
    }

    // Adds the step of this place.
    fn add(&mut self, place: usize, doing: Effect, vain: &mut [bool]) -> Result<(), NoMemory> {
        match doing {
            Effect::Changes => {
                self.places.clear();
                self.looks.clear();
                return Ok(());
            }
            Effect::Looks(look) => {
                self.look_again(look, vain);
                self.looks.push((look, self.places.len()))?;
            }
            Effect::Neither => {}
        }
        self.places.push(place)?;
        Ok(())
    }
}

/// Marks the steps of a schedule with which a process looked in vain: from where it looked at something on, up to where
/// it looked at the same again and had changed nothing that is shared. What follows mostly goes as well without them; to
/// make sure is left to the caller.
pub fn vain_looks(alloc: Global, program: &Program, schedule: &[u8]) -> Result<Vec<bool>, NoMemory>
    requires { All (λ p. p < (resolved program.now).processes) schedule.now }
{
    let mut machine = SourceMachine::new(alloc, program)?;
    let mut vain = vec![in alloc; false; schedule.len()]?;
    let mut all = Vec::new(alloc);
    for _ in 0..program.processes() {
        all.push(Since {
            places: Vec::new(alloc),
            looks: Vec::new(alloc),
        })?;
    }
    for at in 0..schedule.len() {
        let p = schedule[at];
        let before = machine.events().len();
        machine.step(p)?;
        let done = done_by(machine.events().get(before));
        if let Some(since) = all.get_mut(usize::from(p)) {
            since.add(at, done, &mut vain)?;
        }
    }
    Ok(vain)
}
