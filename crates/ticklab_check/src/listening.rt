ghost use Rattle.std.specs.Prelude.{◌≡◌, IfErr, OnOk};
ghost use Rattle.ticklab_check.specs.Listening.{IsOfListener};
ghost use Rattle.ticklab_check.specs.declared.checked.Timed.{Timed};
ghost use Rattle.ticklab_check.specs.declared.source.Source.{Source};

use crate::checked::Timed;
use crate::fault::CheckFault;
use crate::source::Source;
use std::alloc::Global;

/// Hears what each file comes to, as soon as this is known of it and of all files before it.
pub trait Listener {
    // What it is for a listener to hear what a file comes to, of the listener before and after.
    ghost hears: { Self → Source → Timed → Self → Type 0 };

    // What is so where it may refuse to hear.
    ghost refuses: { Type 0 };

    /// Hears what a file comes to. Where it refuses, no further file is searched.
    fn hear(&mut self, alloc: Global, source: &Source, timed: &Timed) -> Result<(), CheckFault>
        ensures ok { OnOk result (Self.hears self.old source.now timed.now self.new) }
        ensures err { IfErr result (IsOfListener Self.refuses) };
}

/// Nobody hears of it.
#[derive(Drop)]
pub struct Unheard;

impl Listener for Unheard {
    ghost hears = { λ before source timed after. after ≡ before };

    ghost refuses = { ⊥ };

    fn hear(&mut self, _alloc: Global, _source: &Source, _timed: &Timed) -> Result<(), CheckFault> {
        Ok(())
    }
}
