ghost use Rattle.std.specs.Prelude.{◌≡◌, IfErr, IfOk, length};
ghost use Rattle.ticklab_check.specs.Listening.{Hears, IsOfListener, shared_limits};
ghost use Rattle.ticklab_check.specs.Wording.{AreFindings, tally_text};

use crate::checked::Timed;
use crate::checks::Checks;
use crate::fault::CheckFault;
use crate::listening::Listener;
use crate::source::Source;
use crate::tally::{Tally, tally_of};
use crate::wording::push_tally;
use searches_explore::Limits;
use std::alloc::{AllocError, Global};

/// What files come to, in their order, and how many there are of each verdict.
#[derive(Drop)]
pub struct Findings {
    pub files: Vec<Timed>,
    pub tally: Tally,
}

/// Checks files. Each is searched within these limits, but files that may be searched at once share the bytes.
pub fn check<C: Checks, L: Listener>(
    alloc: Global,
    checks: &C,
    sources: &[Source],
    limits: Limits,
    listener: &mut L,
) -> Result<Findings, CheckFault>
    ensures are { IfOk result (AreFindings (shared_limits (C.most checks.now) (length sources.now) limits) sources.now) }
    ensures heard { IfOk result (λ findings. Hears L.hears listener.old sources.now findings.files.items listener.new) }
    ensures err { IfErr result (IsOfListener L.refuses) }
{
    let each = shared_limits(checks.at_once(), sources.len(), limits);
    let files = checks.checked(alloc, sources, each, listener)?;
    let tally = tally_of(&files);
    Ok(Findings { files, tally })
}

// The limits of each search, where at most so many of so many files are searched at once.
fn shared_limits(at_once: u32, files: usize, limits: Limits) -> Limits
    ensures { result ≡ shared_limits at_once files limits }
{
    let shares = u64::from(at_once).min(files as u64).max(1);
    Limits {
        bytes: limits.bytes / shares,
        ..limits
    }
}

impl Findings {
    /// The last line that is told: how many files are as expected.
    pub fn last_line(&self, alloc: Global) -> Result<Vec<u8>, AllocError>
        ensures { IfOk result (λ text. text.items ≡ tally_text self.now.tally) }
    {
        let mut text = Vec::new(alloc);
        push_tally(&mut text, self.tally)?;
        Ok(text)
    }
}
