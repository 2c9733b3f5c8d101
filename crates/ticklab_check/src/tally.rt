// How many files there are of each verdict.
ghost use Rattle.std.specs.Prelude.{◌≡◌, ◌<◌};
ghost use Rattle.ticklab_check.specs.Wording.{counted, status_of, tally_of};

use crate::checked::{Comparison, Timed};
use crate::comparing::comparison_of;

/// How many files are as expected, how many are not, and how many met the limit.
#[derive(Clone, Copy, PartialEq, Eq, Debug)]
pub struct Tally {
    pub as_expected: u64,
    pub otherwise: u64,
    pub limit: u64,
}

impl Tally {
    /// The exit status that tells it.
    pub fn status(self) -> u8
        ensures { result ≡ status_of self }
    {
        if self.otherwise != 0 {
            return 5;
        }
        if self.limit != 0 {
            return 6;
        }
        0
    }

    // With one file more.
    fn with(self, verdict: Comparison) -> Tally
        requires as_expected { self.as_expected < 18446744073709551615 }
        requires otherwise { self.otherwise < 18446744073709551615 }
        requires limit { self.limit < 18446744073709551615 }
        ensures { result ≡ counted verdict self }
    {
        match verdict {
            Comparison::AsExpected => Tally {
                as_expected: self.as_expected + 1,
                ..self
            },
            Comparison::Otherwise => Tally {
                otherwise: self.otherwise + 1,
                ..self
            },
            Comparison::Limit => Tally {
                limit: self.limit + 1,
                ..self
            },
        }
    }
}

/// The tally of files.
#[tactic(auto, unfolding(crate::specs::Wording::tallied))]
pub fn tally_of(files: &[Timed]) -> Tally
    ensures { result ≡ tally_of files.now }
{
    let mut tally = Tally {
        as_expected: 0,
        otherwise: 0,
        limit: 0,
    };
    for timed in files {
        tally = tally.with(comparison_of(&timed.checked));
    }
    tally
}
